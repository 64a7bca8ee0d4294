//! Devices that fail once, and one that gives too little: what a view and a round answer, and that the same call succeeds after that.

ghost use Rattle.std.specs.Prelude.{◌≡◌, ◌+◌, ◌%◌, ◌^◌, true, false, None, Some, IsSome, IfOk};
ghost use Rattle.far_device.specs.Calls.{given};
ghost use Rattle.far_device.specs.Faults.{is_fault};
ghost use Rattle.far_device.specs.Following.{Follows, any_key, other_than};
ghost use Rattle.far_device.specs.Mem.{bytes_at, faults_of};
ghost use Rattle.far_device.specs.Wrapping.{wrapped_below};

use crate::tests::acts::Act::*;
use crate::tests::acts::Choice::{Eldest, Named};
use crate::tests::acts::{Act, EIGHT, End};
use crate::tests::play::Scene::Acts;
use crate::tests::play::{ONE, Over, Play, holds};
use far_device::{Device, DeviceFault, MemDevice, hand_over};
use far_evac::{LogKind, Phase};
use far_word::Refused;

// One read of what is in memory, with its answer taken apart.
fn read_inner(inner: &mut MemDevice, id: u32) -> Result<Vec<u8>, DeviceFault>
    ensures follows { Follows bytes_at (λ _. true) faults_of (λ _ _. IsSome (bytes_at inner.old id) × ⊥) any_key (is_fault (given result)) inner.old inner.new }
    ensures given { IfOk result (λ bytes. bytes_at inner.old id ≡ Some bytes.items) }
    ensures kept { bytes_at inner.new ≡ bytes_at inner.old }
{
    match inner.read(id) {
        Ok(bytes) => Ok(bytes),
        Err(DeviceFault::Memory) => Err(DeviceFault::Memory),
        Err(DeviceFault::Device) => Err(DeviceFault::Device),
    }
}

// The same, with one byte less.
fn read_short(inner: &mut MemDevice, id: u32) -> Result<Vec<u8>, DeviceFault>
    ensures follows { Follows bytes_at (λ _. true) faults_of (λ _ _. IsSome (bytes_at inner.old id) × ⊥) any_key (is_fault (given result)) inner.old inner.new }
    ensures kept { bytes_at inner.new ≡ bytes_at inner.old }
{
    match read_inner(inner, id) {
        Ok(mut bytes) => {
            bytes.pop();
            Ok(bytes)
        }
        Err(why) => Err(why),
    }
}

/// What one of its calls does in place of what was asked.
#[derive(Clone, Copy)]
pub(super) enum Fault {
    /// It fails so.
    Fails(DeviceFault),
    /// It gives one byte less.
    Short,
}

/// A device in memory of which one call, a write or a read, has a fault.
#[derive(Drop)]
pub(super) struct Faulty {
    inner: MemDevice,
    // How many calls come before that.
    before: u64,
    fault: Option<Fault>,
    faults: u64,
}

impl Faulty {
    /// One whose call after so many has this fault.
    pub(super) fn new(inner: MemDevice, before: u64, fault: Fault) -> Faulty {
        Faulty {
            inner,
            before,
            fault: Some(fault),
            faults: 0,
        }
    }

    // The fault of this call, if it is the one.
    fn next_fault(&mut self) -> Option<Fault>
        ensures inner { self.new.inner ≡ self.old.inner }
        ensures faults { self.new.faults ≡ self.old.faults }
    {
        if self.before > 0 {
            self.before -= 1;
            return None;
        }
        self.fault.take()
    }
}

impl Device for Faulty {
    ghost contents = { λ s. bytes_at s.inner };

    ghost honest = { λ _. false };

    ghost faults = { λ s. (faults_of s.inner + s.faults) % 2 ^ 64 };

    ghost forgets = { Unit {0} };

    ghost reads_in_place = { ⊥ };

    ghost fails_at_most = { λ _ _. ⊥ };

    ghost wraps = { λ s. wrapped_below (faults_of s.inner + s.faults) };

    ghost writes = { λ old id _ answer new. Follows (λ s. bytes_at s.inner) (λ _. false) (λ s. (faults_of s.inner + s.faults) % 2 ^ 64) (λ _ _. ⊥) (other_than id) (is_fault answer) old new };

    ghost reads = { λ old id answer new. Follows (λ s. bytes_at s.inner) (λ _. false) (λ s. (faults_of s.inner + s.faults) % 2 ^ 64) (λ _ _. IsSome (bytes_at old.inner id) × ⊥) any_key (is_fault answer) old new };

    ghost lets_go = { λ old id new. Follows (λ s. bytes_at s.inner) (λ _. false) (λ s. (faults_of s.inner + s.faults) % 2 ^ 64) (λ _ _. ⊥) (other_than id) false old new };

    ghost write_follows = { λ _ _ _ _ _ h. h };

    ghost read_follows = { λ _ _ _ _ h. h };

    ghost forget_follows = { λ _ _ _ h. h };

    fn write(&mut self, id: u32, bytes: &[u8]) -> Result<(), DeviceFault> {
        match self.next_fault() {
            Some(Fault::Fails(DeviceFault::Device)) => {
                self.faults = self.faults.wrapping_add(1);
                Err(DeviceFault::Device)
            }
            Some(Fault::Fails(DeviceFault::Memory)) => Err(DeviceFault::Memory),
            _ => self.inner.write(id, bytes),
        }
    }

    fn read(&mut self, id: u32) -> Result<Vec<u8>, DeviceFault> {
        match self.next_fault() {
            None => read_inner(&mut self.inner, id),
            Some(Fault::Fails(DeviceFault::Device)) => {
                self.faults = self.faults.wrapping_add(1);
                Err(DeviceFault::Device)
            }
            Some(Fault::Fails(DeviceFault::Memory)) => Err(DeviceFault::Memory),
            Some(Fault::Short) => read_short(&mut self.inner, id),
        }
    }

    fn read_into(&mut self, id: u32, buffer: &mut Vec<u8>) -> Result<(), DeviceFault> {
        hand_over(self.read(id)?, buffer);
        Ok(())
    }

    fn forget(&mut self, id: u32) {
        self.inner.forget(id);
    }

    fn faults(&self) -> u64 {
        self.inner.faults().wrapping_add(self.faults)
    }
}

// The first object is written, and a round has moved it to log 2, which is sealed then.
pub(super) const IN_LOG_TWO: &[Act] = &[
    Makes(8, Ok(0)),
    Makes(4088, Ok(1)),
    Opens,
    Writes(0, EIGHT),
    Closes,
    Runs(Eldest, 1, 9, End::Done([1, 0, 0, 1])),
    Makes(4088, Ok(2)),
];

// A round of log 2 sends its object far.
pub(super) const SENT_FAR: &[Act] = &[
    Runs(Named(&[2]), 1, 9, End::Done([0, 1, 0, 1])),
    Far(0, false),
];

// A view that was refused in this scope is given, with what was written.
pub(super) const COMES_BACK: &[Act] = &[IsSlow(0), Brings(0, EIGHT), Reads(0, EIGHT)];

// A view is refused once for this reason, and the object stays far then.
const NO_DEVICE: &[Act] = &[
    Opens,
    IsSlow(0),
    ViewsNone(0, Refused::Device),
    Far(0, true),
];

const NO_MEMORY: &[Act] = &[
    Opens,
    IsSlow(0),
    ViewsNone(0, Refused::Memory),
    Far(0, true),
];

const DAMAGED: &[Act] = &[
    Opens,
    IsSlow(0),
    ViewsNone(0, Refused::Damaged),
    Far(0, true),
];

const FAILS: Fault = Fault::Fails(DeviceFault::Device);

const LACKS_MEMORY: Fault = Fault::Fails(DeviceFault::Memory);

// The device's read, its second call, has a fault.
const VIEWS: &[Play] = &[
    Play {
        over: Over::Faulty(1, FAILS),
        scene: Acts(&[IN_LOG_TWO, SENT_FAR, NO_DEVICE, COMES_BACK]),
        ..ONE
    },
    Play {
        over: Over::Faulty(1, LACKS_MEMORY),
        scene: Acts(&[IN_LOG_TWO, SENT_FAR, NO_MEMORY, COMES_BACK]),
        ..ONE
    },
    Play {
        over: Over::Faulty(1, Fault::Short),
        scene: Acts(&[IN_LOG_TWO, SENT_FAR, DAMAGED, COMES_BACK]),
        ..ONE
    },
];

#[test]
fn a_refused_view_may_be_tried_again(rt: HostRuntime) {
    holds(&rt, rt.alloc(), VIEWS);
}

// The round goes on, and the object goes far.
const GOES_ON: &[Act] = &[
    Deals(9, Ok([0, 1, 0, 1])),
    Far(0, false),
    Opens,
    Brings(0, EIGHT),
];

// The round is given up, and the object stays.
const IS_GIVEN_UP: &[Act] = &[
    GivesUp(Ok(())),
    Near(0, (2, 0), false),
    Log(2, LogKind::Sealed, [16, 0, 4080]),
    Opens,
    Brings(0, EIGHT),
];

// A round is refused once for this reason, where the device's write, its first call, fails so: the round stands where the object is to leave, which is
// there.
const ROUND_WITHOUT_DEVICE: &[Act] = &[
    Runs(Named(&[2]), 9, 9, End::Refused(Refused::Device)),
    In(Phase::Evacuating),
    Log(2, LogKind::Chosen, [16, 0, 4080]),
];

const ROUND_WITHOUT_MEMORY: &[Act] = &[
    Runs(Named(&[2]), 9, 9, End::Refused(Refused::Memory)),
    In(Phase::Evacuating),
    Log(2, LogKind::Chosen, [16, 0, 4080]),
];

const ROUNDS: &[Play] = &[
    Play {
        over: Over::Faulty(0, FAILS),
        scene: Acts(&[IN_LOG_TWO, ROUND_WITHOUT_DEVICE, GOES_ON]),
        ..ONE
    },
    Play {
        over: Over::Faulty(0, FAILS),
        scene: Acts(&[IN_LOG_TWO, ROUND_WITHOUT_DEVICE, IS_GIVEN_UP]),
        ..ONE
    },
    Play {
        over: Over::Faulty(0, LACKS_MEMORY),
        scene: Acts(&[IN_LOG_TWO, ROUND_WITHOUT_MEMORY, GOES_ON]),
        ..ONE
    },
    Play {
        over: Over::Faulty(0, LACKS_MEMORY),
        scene: Acts(&[IN_LOG_TWO, ROUND_WITHOUT_MEMORY, IS_GIVEN_UP]),
        ..ONE
    },
];

#[test]
fn a_refused_round_may_go_on(rt: HostRuntime) {
    holds(&rt, rt.alloc(), ROUNDS);
}

// The object comes near by the device's second call, and moves as a viewed one, to a log that is sealed then. Neither a read nor a refused write soils it.
const BACK_AGAIN: &[Act] = &[
    Opens,
    Brings(0, EIGHT),
    Keeps(0),
    Bars(8, 1, Refused::Range),
    Bars(0, 0, Refused::Range),
    ReadsAt(0, &EIGHT),
    Clean(0, (2, 0), true),
    Closes,
    Makes(4088, Ok(3)),
    Runs(Named(&[2]), 1, 9, End::Done([1, 0, 0, 1])),
    Clean(0, (4, 0), false),
    Makes(4088, Ok(4)),
];

// It goes far without a call, so that the third call reads it.
const UNWRITTEN: &[Act] = &[
    Runs(Named(&[4]), 1, 9, End::Done([0, 1, 0, 1])),
    Far(0, false),
    Opens,
    IsSlow(0),
    ViewsNone(0, Refused::Device),
    Brings(0, EIGHT),
];

// The same, but it is written in the scope for which it comes near: the third call is its write, which is refused once.
const WRITTEN_AGAIN: &[Act] = &[
    Opens,
    Brings(0, EIGHT),
    Writes(0, NINES),
    Near(0, (2, 0), true),
    Closes,
    Makes(4088, Ok(3)),
    Runs(Named(&[2]), 1, 9, End::Done([1, 0, 0, 1])),
    Near(0, (4, 0), false),
    Makes(4088, Ok(4)),
    Runs(Named(&[4]), 1, 9, End::Refused(Refused::Device)),
    Deals(9, Ok([0, 1, 0, 1])),
    Opens,
    Brings(0, NINES),
];

const NINES: [u8; 8] = [9; 8];

const SIX: Play = Play {
    logs: 6,
    over: Over::Faulty(2, FAILS),
    ..ONE
};

const LEAVES_UNWRITTEN: Play = Play {
    scene: Acts(&[IN_LOG_TWO, SENT_FAR, BACK_AGAIN, UNWRITTEN]),
    ..SIX
};

const UNWRITTEN_PLAYS: &[Play] = &[LEAVES_UNWRITTEN];

#[test]
fn what_was_not_written_since_leaves_without_a_write(rt: HostRuntime) {
    holds(&rt, rt.alloc(), UNWRITTEN_PLAYS);
}

const IS_WRITTEN_BACK: Play = Play {
    scene: Acts(&[IN_LOG_TWO, SENT_FAR, WRITTEN_AGAIN]),
    ..SIX
};

const WRITTEN_PLAYS: &[Play] = &[IS_WRITTEN_BACK];

#[test]
fn what_was_written_since_is_written_back(rt: HostRuntime) {
    holds(&rt, rt.alloc(), WRITTEN_PLAYS);
}
