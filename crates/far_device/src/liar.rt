//! A device of which one read is a lie.

ghost use Rattle.std.specs.Prelude.{◌≡◌, ◌==◌, ◌-◌, ℕ, List, map, cond, IsSome, Result};
ghost use Rattle.std.specs.Vec.{vec_capacity};
ghost use Rattle.far_device.specs.Liar.{inverted};
ghost use Rattle.far_device.specs.declared.liar.Lie.TheVariants as lie;
ghost use Rattle.far_device.specs.declared.fault.DeviceFault.{DeviceFault};

use crate::device::Device;
use crate::fault::DeviceFault;

/// What is told in place of the bytes.
#[derive(Clone, Copy, Debug)]
pub(crate) enum Lie {
    /// The bytes.
    Never,
    /// All but the last.
    Short,
    /// Each one inverted.
    Flip,
}

/// A device of which one read is a lie: the k-th that is asked for, counted from 1. That read gives the inner device's bytes
/// without the last, or with each inverted; no bytes if the inner device gives none. A fault of the inner device is handed on,
/// and that read counts too. All other calls are the inner device's.
///
/// It is honest where the inner device is and k is 0; it forgets where the inner device forgets, and counts its faults.
#[derive(Debug, Drop)]
pub struct Liar<D: Device + Drop> {
    pub(crate) inner: D,
    pub(crate) lie: Lie,
    // Which of the reads to come is a lie, counted from 1; 0 if none of them is to be.
    pub(crate) left: u64,
}

impl<D: Device + Drop> Liar<D> {
    /// The device `inner`, of which the k-th read from now on lacks its last byte; none for 0. Takes no memory.
    pub fn short(inner: D, k: u64) -> Liar<D>
        ensures inner { result.inner ≡ inner }
        ensures lie { result.lie ≡ cond (k == 0) lie.Never lie.Short }
        ensures left { result.left ≡ k }
    {
        Liar {
            inner,
            lie: if k == 0 { Lie::Never } else { Lie::Short },
            left: k,
        }
    }

    /// The device `inner`, of which the k-th read from now on has each byte inverted: a byte b becomes 255 - b. None for 0.
    /// Takes no memory.
    pub fn flip(inner: D, k: u64) -> Liar<D>
        ensures inner { result.inner ≡ inner }
        ensures lie { result.lie ≡ cond (k == 0) lie.Never lie.Flip }
        ensures left { result.left ≡ k }
    {
        Liar {
            inner,
            lie: if k == 0 { Lie::Never } else { Lie::Flip },
            left: k,
        }
    }

    // Counts a read. Whether it is the one that is a lie.
    #[inline]
    fn lies(&mut self) -> bool
        ensures turn { result ≡ (self.old.left == 1) }
        ensures inner { self.new.inner ≡ self.old.inner }
        ensures lie { self.new.lie ≡ self.old.lie }
        ensures left { self.new.left ≡ self.old.left - 1 }
    {
        if self.left == 0 {
            return false;
        }
        let lies = self.left == 1;
        self.left -= 1;
        lies
    }
}

impl Lie {
    ghost use Rattle.far_device.specs.Liar.{lied};

    // Makes of bytes what is told in their place.
    fn tell(self, bytes: &mut Vec<u8>)
        ensures told { bytes.new.items ≡ lied self bytes.old.items }
        ensures room { vec_capacity bytes.new ≡ vec_capacity bytes.old }
    {
        match self {
            Lie::Never => {}
            Lie::Short => bytes.truncate(bytes.len().saturating_sub(1)),
            Lie::Flip => invert(bytes),
        }
    }
}

impl<D: Device + Drop> Device for Liar<D> {
    ghost use Rattle.std.proofs.Common.{subst};
    ghost use Rattle.far_device.specs.Faults.{is_fault};
    ghost use Rattle.far_device.specs.Following.{Follows, any_key};
    ghost use Rattle.far_device.specs.Liar.{is_honest, told};
    ghost use Rattle.far_device.specs.LiarFollowing.{honest_still, told_fault};

    ghost contents = { λ s. D.contents s.inner };

    ghost honest = { λ s. is_honest s.lie (D.honest s.inner) };

    ghost faults = { λ s. D.faults s.inner };

    ghost forgets = { D.forgets };

    ghost reads_in_place = { D.reads_in_place };

    ghost fails_at_most = { λ s. D.fails_at_most s.inner };

    ghost writes = { λ old id bytes answer new.
        D.writes old.inner id bytes answer new.inner × (new.lie ≡ old.lie) × (new.left ≡ old.left) };

    ghost reads = { λ old id answer new. (stored : Result (List ℕ) DeviceFault) × D.reads old.inner id stored new.inner
        × (answer ≡ told (old.left == 1) old.lie stored) × (new.lie ≡ old.lie) × (new.left ≡ old.left - 1) };

    ghost lets_go = { λ old id new. D.lets_go old.inner id new.inner × (new.lie ≡ old.lie) × (new.left ≡ old.left) };

    ghost wraps = { λ s. D.wraps s.inner };

    ghost write_follows = { λ s id bytes answer t h.
        let was = D.write_follows s.inner id bytes answer t.inner h.0 in
        record {
          others = was.others;
          honest = honest_still s.lie t.lie (D.honest s.inner) (D.honest t.inner) h.1 was.honest;
          counted = was.counted;
          spent = was.spent;
        } };

    ghost read_follows = { λ s id answer t h.
        let was = subst (λ fault. Follows D.contents D.honest D.faults (λ d n. IsSome (D.contents s.inner id) × D.fails_at_most d n) any_key fault s.inner t.inner)
        (told_fault (s.left == 1) s.lie h.0 answer h.2) (D.read_follows s.inner id h.0 t.inner h.1) in
        record {
          others = was.others;
          honest = honest_still s.lie t.lie (D.honest s.inner) (D.honest t.inner) h.3 was.honest;
          counted = was.counted;
          spent = was.spent;
        } };

    ghost forget_follows = { λ s id t h.
        let was = D.forget_follows s.inner id t.inner h.0 in
        record {
          others = was.others;
          honest = honest_still s.lie t.lie (D.honest s.inner) (D.honest t.inner) h.1 was.honest;
          counted = was.counted;
          spent = was.spent;
        } };

    #[inline(always)]
    fn write(&mut self, id: u32, bytes: &[u8]) -> Result<(), DeviceFault> {
        self.inner.write(id, bytes)
    }

    fn read(&mut self, id: u32) -> Result<Vec<u8>, DeviceFault> {
        let lies = self.lies();
        let mut bytes = self.inner.read(id)?;
        if lies {
            self.lie.tell(&mut bytes);
        }
        Ok(bytes)
    }

    #[inline(always)]
    fn read_into(&mut self, id: u32, buffer: &mut Vec<u8>) -> Result<(), DeviceFault> {
        let lies = self.lies();
        self.inner.read_into(id, buffer)?;
        if lies {
            self.lie.tell(buffer);
        }
        Ok(())
    }

    #[inline(always)]
    fn forget(&mut self, id: u32) {
        self.inner.forget(id);
    }

    fn faults(&self) -> u64 {
        self.inner.faults()
    }
}

// Inverts each byte.
#[tactic(auto, using(crate::proofs::Inverting::inverted_none, crate::proofs::Inverting::inverted_next, crate::proofs::Inverting::inverted_all))]
fn invert(bytes: &mut [u8])
    ensures { bytes.new ≡ map inverted bytes.old }
{
    for byte in bytes.iter_mut() {
        *byte = u8::MAX - *byte;
    }
}
