//! A device of which one call fails.

ghost use Rattle.std.specs.Prelude.{◌≡◌, ◌+◌, ◌-◌, ◌%◌, ◌^◌, ◌==◌, cond, IsSome};
ghost use Rattle.far_device.specs.FailAt.{in_all, Counts, MayFail};

use crate::device::Device;
use crate::fault::DeviceFault;

/// A device of which one call fails, once: the k-th write or read, counted together from 1. That call answers
/// [`DeviceFault::Device`], and the inner device isn't asked. All other calls are the inner device's.
///
/// It is honest where the inner device is, and forgets where that forgets. Calls of `forget` and `faults` aren't counted,
/// and never fail.
#[derive(Debug, Drop)]
pub struct FailAt<D: Device + Drop> {
    pub(crate) inner: D,
    // Which of the writes and reads to come fails, counted from 1; 0 if none of them is to.
    pub(crate) left: u64,
    // How many failed here, modulo 2^64.
    pub(crate) own: u64,
}

impl<D: Device + Drop> FailAt<D> {
    /// The device `inner`, of which the k-th write or read from now on fails; none for 0. Takes no memory.
    pub fn new(inner: D, k: u64) -> FailAt<D>
        ensures inner { result.inner ≡ inner }
        ensures left { result.left ≡ k }
        ensures own { result.own ≡ 0 }
    {
        FailAt {
            inner,
            left: k,
            own: 0,
        }
    }

    // Counts a write or read. Whether it is the one that fails.
    #[inline]
    fn fails(&mut self) -> bool
        ensures turn { result ≡ (self.old.left == 1) }
        ensures inner { self.new.inner ≡ self.old.inner }
        ensures left { self.new.left ≡ self.old.left - 1 }
        ensures own { self.new.own ≡ cond result ((self.old.own + 1) % 2 ^ 64) self.old.own }
    {
        if self.left == 0 {
            return false;
        }
        let fails = self.left == 1;
        self.left -= 1;
        if fails {
            self.own = self.own.wrapping_add(1);
        }
        fails
    }
}

impl<D: Device + Drop> Device for FailAt<D> {
    ghost use Rattle.std.proofs.Common.{arith};
    ghost use Rattle.far_device.specs.FailAtFollowing.{Numbers, counts_follow, read_counts, uncounted_follows};
    ghost use Rattle.far_device.specs.Following.{other_than};
    ghost use Rattle.far_device.specs.Wrapping.{wrapped_below};

    ghost contents = { λ s. D.contents s.inner };

    ghost honest = { λ s. D.honest s.inner };

    ghost faults = { λ s. in_all (D.faults s.inner) s.own };

    ghost forgets = { D.forgets };

    ghost reads_in_place = { D.reads_in_place };

    ghost fails_at_most = { λ s. MayFail s.left (D.fails_at_most s.inner) };

    ghost writes = { λ old id bytes answer new.
        Counts old.left old.own old.inner answer new.left new.own new.inner (D.writes old.inner id bytes answer new.inner) };

    ghost reads = { λ old id answer new.
        Counts old.left old.own old.inner answer new.left new.own new.inner (D.reads old.inner id answer new.inner) };

    ghost lets_go = { λ old id new. D.lets_go old.inner id new.inner × (new.left ≡ old.left) × (new.own ≡ old.own) };

    ghost wraps = { λ s. wrapped_below (D.faults s.inner + s.own) };

    ghost write_follows = { λ s id bytes answer t h. counts_follow
        (record { own = λ f o same. Prim.omega arith; inner = λ f g o below still other same. other (Prim.omega arith) })
        (λ x. x.inner) (λ x. x.left) (λ x. x.own) D.contents D.honest D.faults D.wraps D.fails_at_most (other_than id) answer
        (D.writes s.inner id bytes answer t.inner) s t (D.write_follows s.inner id bytes answer t.inner) h };

    ghost read_follows = { λ s id answer t h. read_counts
        (record { own = λ f o same. Prim.omega arith; inner = λ f g o below still other same. other (Prim.omega arith) })
        (λ x. x.inner) (λ x. x.left) (λ x. x.own) D.contents D.honest D.faults D.wraps D.fails_at_most (IsSome (D.contents s.inner id))
        answer (D.reads s.inner id answer t.inner) s t (D.read_follows s.inner id answer t.inner) h };

    ghost forget_follows = { λ s id t h. uncounted_follows
        (λ x. x.inner) (λ x. x.left) (λ x. x.own) D.contents D.honest D.faults D.fails_at_most (other_than id) s t
        (D.forget_follows s.inner id t.inner h.0) h.1 h.2 };

    #[inline(always)]
    fn write(&mut self, id: u32, bytes: &[u8]) -> Result<(), DeviceFault> {
        if self.fails() {
            return Err(DeviceFault::Device);
        }
        self.inner.write(id, bytes)
    }

    fn read(&mut self, id: u32) -> Result<Vec<u8>, DeviceFault> {
        if self.fails() {
            return Err(DeviceFault::Device);
        }
        self.inner.read(id)
    }

    #[inline(always)]
    fn read_into(&mut self, id: u32, buffer: &mut Vec<u8>) -> Result<(), DeviceFault> {
        if self.fails() {
            return Err(DeviceFault::Device);
        }
        self.inner.read_into(id, buffer)
    }

    #[inline(always)]
    fn forget(&mut self, id: u32) {
        self.inner.forget(id);
    }

    /// Those of the inner device and its own, modulo 2^64.
    fn faults(&self) -> u64 {
        self.inner.faults().wrapping_add(self.own)
    }
}
