//! Devices that lie.

ghost use Rattle.std.specs.Prelude.{◌≡◌, ℕ, List, IsSome, Result, false};
ghost use Rattle.std.proofs.Common.{refl, rules, subst};
ghost use Rattle.far_device.specs.Faults.{is_fault};
ghost use Rattle.far_device.specs.Following.{Follows, any_key};
ghost use Rattle.far_device.specs.declared.fault.DeviceFault.{DeviceFault};

use far_device::{Device, DeviceFault, hand_over};

/// Gives one byte less than is held, and forgets nothing.
#[derive(Drop)]
pub(crate) struct Short<D: Device + Drop> {
    pub(crate) inner: D,
}

impl<D: Device + Drop> Device for Short<D> {
    ghost contents = { λ s. D.contents s.inner };

    ghost honest = { λ _. false };

    ghost faults = { λ s. D.faults s.inner };

    ghost forgets = { ⊥ };

    ghost reads_in_place = { ⊥ };

    ghost fails_at_most = { λ s. D.fails_at_most s.inner };

    ghost wraps = { λ s. D.wraps s.inner };

    ghost writes = { λ old id bytes answer new. D.writes old.inner id bytes answer new.inner };

    ghost reads = { λ old id answer new. (stored : Result (List ℕ) DeviceFault) × D.reads old.inner id stored new.inner × (is_fault stored ≡ is_fault answer) };

    ghost lets_go = { λ old _ new. new ≡ old };

    ghost write_follows = { λ s id bytes answer t h.
        let was = D.write_follows s.inner id bytes answer t.inner h in
        record { others = was.others; honest = refl; counted = was.counted; spent = was.spent } };

    ghost read_follows = { λ s id answer t h.
        let was = subst (λ fault. Follows D.contents D.honest D.faults (λ d n. IsSome (D.contents s.inner id) × D.fails_at_most d n) any_key fault s.inner t.inner)
        h.2 (D.read_follows s.inner id h.0 t.inner h.1) in
        record { others = was.others; honest = refl; counted = was.counted; spent = was.spent } };

    ghost forget_follows = { Prim.search rules };

    fn write(&mut self, id: u32, bytes: &[u8]) -> Result<(), DeviceFault> {
        self.inner.write(id, bytes)
    }

    fn read(&mut self, id: u32) -> Result<Vec<u8>, DeviceFault> {
        let mut bytes = self.inner.read(id)?;
        bytes.pop();
        Ok(bytes)
    }

    fn read_into(&mut self, id: u32, buffer: &mut Vec<u8>) -> Result<(), DeviceFault> {
        hand_over(self.read(id)?, buffer);
        Ok(())
    }

    fn forget(&mut self, _id: u32) {}

    fn faults(&self) -> u64 {
        self.inner.faults()
    }
}
