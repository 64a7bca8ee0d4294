//! Devices that fail while objects leave: what is counted, what stays, and how the round goes on.

ghost use Rattle.std.specs.Prelude.{◌≡◌, ◌+◌, ◌%◌, ◌^◌, true, false, None, Some, IsSome, IfOk};
ghost use Rattle.far_device.specs.Calls.{given};
ghost use Rattle.far_device.specs.Faults.{is_fault};
ghost use Rattle.far_device.specs.Following.{Follows, any_key, other_than};
ghost use Rattle.far_device.specs.Mem.{bytes_at, faults_of};
ghost use Rattle.far_device.specs.Wrapping.{wrapped_below};

use crate::tests::acts::Act::*;
use crate::tests::acts::Choice::{Eldest, Named};
use crate::tests::acts::{Act, End};
use crate::tests::making::{SMALL, evacuator_over};
use crate::tests::stage::plays_on;
use far_book::Plain;
use far_device::{Device, DeviceFault, MemDevice, hand_over};
use far_evac::{Evac, LogKind, Phase};
use far_word::{Place, Refused};
use std::alloc::Global;

// One read of what is in memory, with its answer taken apart.
fn read_inner(inner: &mut MemDevice, id: u32) -> Result<Vec<u8>, DeviceFault>
    ensures follows { Follows bytes_at (λ _. true) faults_of (λ _ _. IsSome (bytes_at inner.old id) × ⊥) any_key (is_fault (given result)) inner.old inner.new }
    ensures given { IfOk result (λ bytes. bytes_at inner.old id ≡ Some bytes.items) }
    ensures kept { bytes_at inner.new ≡ bytes_at inner.old }
{
    match inner.read(id) {
        Ok(bytes) => Ok(bytes),
        Err(DeviceFault::Memory) => Err(DeviceFault::Memory),
        Err(DeviceFault::Device) => Err(DeviceFault::Device),
    }
}

/// Its write after so many others fails with this fault, and no other.
#[derive(Drop)]
struct Stumbling {
    inner: MemDevice,
    writes: u8,
    fault: Option<DeviceFault>,
    faults: u64,
}

impl Device for Stumbling {
    ghost contents = { λ s. bytes_at s.inner };

    ghost honest = { λ _. true };

    ghost faults = { λ s. (faults_of s.inner + s.faults) % 2 ^ 64 };

    ghost forgets = { Unit {0} };

    ghost reads_in_place = { ⊥ };

    ghost fails_at_most = { λ _ _. ⊥ };

    ghost wraps = { λ s. wrapped_below (faults_of s.inner + s.faults) };

    ghost writes = { λ old id _ answer new. Follows (λ s. bytes_at s.inner) (λ _. true) (λ s. (faults_of s.inner + s.faults) % 2 ^ 64) (λ _ _. ⊥) (other_than id) (is_fault answer) old new };

    ghost reads = { λ old id answer new. Follows (λ s. bytes_at s.inner) (λ _. true) (λ s. (faults_of s.inner + s.faults) % 2 ^ 64) (λ _ _. IsSome (bytes_at old.inner id) × ⊥) any_key (is_fault answer) old new };

    ghost lets_go = { λ old id new. Follows (λ s. bytes_at s.inner) (λ _. true) (λ s. (faults_of s.inner + s.faults) % 2 ^ 64) (λ _ _. ⊥) (other_than id) false old new };

    ghost write_follows = { λ _ _ _ _ _ h. h };

    ghost read_follows = { λ _ _ _ _ h. h };

    ghost forget_follows = { λ _ _ _ h. h };

    fn write(&mut self, id: u32, bytes: &[u8]) -> Result<(), DeviceFault> {
        if self.writes > 0 {
            self.writes -= 1;
            return self.inner.write(id, bytes);
        }
        let Some(fault) = self.fault.take() else {
            return self.inner.write(id, bytes);
        };
        if fault == DeviceFault::Device {
            self.faults = self.faults.wrapping_add(1);
        }
        Err(fault)
    }

    fn read(&mut self, id: u32) -> Result<Vec<u8>, DeviceFault> {
        read_inner(&mut self.inner, id)
    }

    fn read_into(&mut self, id: u32, buffer: &mut Vec<u8>) -> Result<(), DeviceFault> {
        hand_over(self.read(id)?, buffer);
        Ok(())
    }

    fn forget(&mut self, id: u32) {
        self.inner.forget(id);
    }

    fn faults(&self) -> u64 {
        self.inner.faults().wrapping_add(self.faults)
    }
}

// An evacuator over one.
fn over_stumbling(
    alloc: Global,
    writes: u8,
    fault: DeviceFault,
) -> Result<Evac<Plain, Stumbling>, Refused> {
    let device = Stumbling {
        inner: MemDevice::new(alloc),
        writes,
        fault: Some(fault),
        faults: 0,
    };
    evacuator_over(alloc, SMALL, device)
}

// Pointers 0 to 2 lie in log 0, of which the first is hot; the next fills log 1.
const FOUR: &[Act] = &[MakesMany(3, 8), Writes(0, 7), MakesMany(1, 4088)];

// A round that comes to where objects leave is refused at the second: the first object has moved, and the others wait. Then the round ends, and
// both are far.
const STOPPED: &[Act] = &[
    Runs(Eldest, 1, 2, End::Limit(Phase::Evacuating)),
    DealsUntil(9, [1, 0, 0, 0], Refused::Device),
    In(Phase::Evacuating),
    Near(0, Place { log: 2, at: 0 }, false),
    Leaving(1, Place { log: 0, at: 2 }),
    Leaving(2, Place { log: 0, at: 4 }),
    Log(0, LogKind::Chosen, [32, 16, 4048]),
    Deals(9, [0, 2, 0, 1], true),
    Far(1),
    Far(2),
    Counts(2, 2, 4112),
    Reads(0, 7),
    Reads(1, 0),
];

const STOPPED_ROUND: &[Act] = &[
    Runs(Eldest, 1, 9, End::Stopped([1, 1, 0, 0], Refused::Device)),
    Far(1),
    Leaving(2, Place { log: 0, at: 4 }),
    Deals(9, [0, 1, 0, 1], true),
    Counts(2, 2, 4112),
];

// The round is given up, and the object that was refused is there.
const GIVEN_UP: &[Act] = &[
    Runs(Eldest, 1, 2, End::Limit(Phase::Evacuating)),
    DealsUntil(2, [1, 0, 0, 0], Refused::Memory),
    GivesUp(Ok(())),
    Near(1, Place { log: 0, at: 2 }, false),
    Log(0, LogKind::Sealed, [32, 16, 4048]),
    Reads(0, 7),
    Reads(2, 0),
];

// Object 0 goes far by the one write that the device makes, comes near again to log 0, and object 2 fills log 2.
const CAME_BACK: &[Act] = &[
    MakesMany(1, 8),
    MakesMany(1, 4088),
    Runs(Eldest, 1, 9, End::Done([0, 1, 0, 1])),
    Fetches(0),
    Clean(0, Place { log: 0, at: 0 }, false),
    MakesMany(1, 4088),
    Sealed(&[1, 0]),
];

// The object leaves without a write, and comes back as it was.
const LEAVES_CLEAN: &[Act] = &[
    Runs(Named(&[0]), 1, 9, End::Done([0, 1, 0, 1])),
    Far(0),
    Reads(0, 0),
];

// Once it is written it has its mark again, and keeps it as it moves.
const LEAVES_WRITTEN: &[Act] = &[
    Writes(0, 7),
    Runs(Named(&[0]), 1, 9, End::Done([1, 0, 0, 1])),
    Near(0, Place { log: 3, at: 0 }, false),
    Counts(3, 0, 8208),
];

/// A test: its name, after how many writes the device fails, how, and its parts.
#[derive(Clone, Copy)]
struct Stumble {
    name: &'static str,
    writes: u8,
    fault: DeviceFault,
    parts: &'static [&'static [Act]],
}

#[rattlefmt::skip]
const STUMBLES: &[Stumble] = &[
    // The first object has moved, the second can't go far, the third waits behind it.
    Stumble { name: "a_failure_stops_at_an_object", writes: 0, fault: DeviceFault::Device, parts: &[FOUR, STOPPED] },
    // A whole round sums what was done before the failure, and stands where it is.
    Stumble { name: "a_failure_stops_a_round", writes: 1, fault: DeviceFault::Device, parts: &[FOUR, STOPPED_ROUND] },
    // The device has no memory for an object; the round is given up, and the object is there.
    Stumble { name: "a_refused_object_stays", writes: 0, fault: DeviceFault::Memory, parts: &[FOUR, GIVEN_UP] },
    // What was fetched and isn't written since is on the device still.
    Stumble { name: "a_clean_object_leaves_without_a_write", writes: 1, fault: DeviceFault::Device, parts: &[CAME_BACK, LEAVES_CLEAN] },
    // What was fetched and is written since is marked, and moves with its mark.
    Stumble { name: "a_written_object_keeps_its_mark", writes: 1, fault: DeviceFault::Device, parts: &[CAME_BACK, LEAVES_WRITTEN] },
];

fn comes_out(alloc: Global, test: &Stumble) -> bool {
    plays_on(over_stumbling(alloc, test.writes, test.fault), test.parts)
}

#[test]
fn devices_fail(rt: HostRuntime) {
    for test in STUMBLES {
        assert!(rt; comes_out(rt.alloc(), test), "{}", test.name);
    }
}
