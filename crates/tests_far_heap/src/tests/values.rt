//! Integers and records in an object, at even and odd bytes, and scopes that are lent.

ghost use Rattle.std.specs.Prelude.{[], ◌++◌, ◌∷◌, drop, slice_index};
ghost use Rattle.std.proofs.Common.{arith};
ghost use Rattle.byteorder.specs.Endian.{big_bytes, big_number, little_bytes, little_number};

use crate::tests::play::Scene::Values;
use crate::tests::play::{ONE, Play, holds};
use crate::tests::stage::Stage;
use byteorder::{BigEndian, ByteOrder, LittleEndian};
use far_device::Device;
use far_evac::RoundEnd;
use far_heap::{FixedRecord, Heap, HeapName, Mutator, Scope, View, lend};
use far_policy::Oldest;
use far_word::Refused;
use std::sync::Wait;

/// A record of seven bytes: two and four, the highest first, and the lowest first.
#[derive(Clone, Copy, Debug, PartialEq, Eq)]
struct Reading {
    sensor: u16,
    value: u32,
    quality: u8,
}

impl FixedRecord<7> for Reading {
    ghost bytes_of = { λ r. big_bytes 2 r.sensor ++ little_bytes 4 r.value ++ r.quality ∷ [] };

    ghost value_of = { λ bytes. record { sensor = big_number 2 bytes; value = little_number 4 (drop 2 bytes); quality = slice_index bytes 6 } };

    ghost short = { Prim.omega arith };

    fn to_bytes(self) -> [u8; 7] {
        let mut bytes = [0; 7];
        BigEndian::write_u16(&mut bytes, self.sensor);
        LittleEndian::write_u32(&mut bytes[2..], self.value);
        bytes[6] = self.quality;
        bytes
    }

    fn from_bytes(bytes: &[u8; 7]) -> Reading {
        Reading {
            sensor: BigEndian::read_u16(bytes),
            value: LittleEndian::read_u32(&bytes[2..]),
            quality: bytes[6],
        }
    }
}

const READING: Reading = Reading {
    sensor: 0x0102,
    value: 0x03040506,
    quality: 7,
};

// Whether these bytes stand from one of an object's on.
fn stand<K: HeapName, D: Device + Drop>(
    scope: &mut Scope<K, D>,
    view: &View,
    from: u16,
    want: &[u8; 8],
) -> bool {
    let mut found = [0; 8];
    scope.read(view, from, &mut found).is_ok() && found == *want
}

// Eight bytes from byte 3 on, written as one integer, are read as integers of each width, in both orders, from odd and from even bytes on.
fn are_read<K: HeapName, D: Device + Drop>(scope: &mut Scope<K, D>, view: &View) -> bool {
    scope
        .write_u64::<LittleEndian>(view, 3, 0x0102030405060708)
        .is_ok()
        && stand(scope, view, 3, &[8, 7, 6, 5, 4, 3, 2, 1])
        && scope.read_u64::<LittleEndian>(view, 3) == Ok(0x0102030405060708)
        && scope.read_u64::<BigEndian>(view, 3) == Ok(0x0807060504030201)
        && scope.read_u32::<LittleEndian>(view, 5) == Ok(0x03040506)
        && scope.read_u32::<BigEndian>(view, 6) == Ok(0x05040302)
        && scope.read_u16::<LittleEndian>(view, 9) == Ok(0x0102)
        && scope.read_u16::<BigEndian>(view, 8) == Ok(0x0302)
}

// Each width is written, in both orders, and nothing beside it.
fn are_written<K: HeapName, D: Device + Drop>(scope: &mut Scope<K, D>, view: &View) -> bool {
    scope
        .write_u64::<BigEndian>(view, 17, 0x0102030405060708)
        .is_ok()
        && stand(scope, view, 17, &[1, 2, 3, 4, 5, 6, 7, 8])
        && scope.write_u32::<BigEndian>(view, 19, 0xa1a2a3a4).is_ok()
        && scope
            .write_u32::<LittleEndian>(view, 21, 0xb1b2b3b4)
            .is_ok()
        && stand(scope, view, 17, &[1, 2, 0xa1, 0xa2, 0xb4, 0xb3, 0xb2, 0xb1])
        && scope.write_u16::<BigEndian>(view, 18, 0xc1c2).is_ok()
        && scope.write_u16::<LittleEndian>(view, 23, 0xd1d2).is_ok()
        && stand(
            scope,
            view,
            17,
            &[1, 0xc1, 0xc2, 0xa2, 0xb4, 0xb3, 0xd2, 0xd1],
        )
}

// A record is the bytes that its layout says, and comes back from them.
fn records_come_back<K: HeapName, D: Device + Drop>(scope: &mut Scope<K, D>, view: &View) -> bool {
    scope.write_record(view, 29, READING).is_ok()
        && stand(scope, view, 28, &[0, 1, 2, 6, 5, 4, 3, 7])
        && scope.read_record(view, 29) == Ok(READING)
        && scope.write_record(view, 57, READING).is_ok()
        && scope.read_record(view, 57) == Ok(READING)
}

// What passes the end of 64 bytes is refused, and what stood there stays.
fn pass_the_end<K: HeapName, D: Device + Drop>(scope: &mut Scope<K, D>, view: &View) -> bool {
    scope.write_u64::<LittleEndian>(view, 57, 1) == Err(Refused::Range)
        && scope.write_u32::<LittleEndian>(view, 61, 1) == Err(Refused::Range)
        && scope.write_u16::<LittleEndian>(view, 63, 1) == Err(Refused::Range)
        && scope.write_record(view, 58, READING) == Err(Refused::Range)
        && stand(scope, view, 56, &[0, 1, 2, 6, 5, 4, 3, 7])
}

fn read_past<K: HeapName, D: Device + Drop>(scope: &mut Scope<K, D>, view: &View) -> bool {
    let past: Result<Reading, Refused> = scope.read_record(view, 58);
    past == Err(Refused::Range)
        && scope.read_u64::<BigEndian>(view, 57) == Err(Refused::Range)
        && scope.read_u32::<BigEndian>(view, 61) == Err(Refused::Range)
        && scope.read_u16::<BigEndian>(view, 63) == Err(Refused::Range)
        && scope.read_u16::<BigEndian>(view, 62) == Ok(0x0307)
}

// By a view of an earlier scope nothing is read or written.
fn not_held<K: HeapName, D: Device + Drop>(scope: &mut Scope<K, D>, view: &View) -> bool {
    let gone: Result<Reading, Refused> = scope.read_record(view, 0);
    gone == Err(Refused::NotHeld)
        && scope.read_u64::<BigEndian>(view, 0) == Err(Refused::NotHeld)
        && scope.write_u16::<BigEndian>(view, 0, 1) == Err(Refused::NotHeld)
        && scope.write_record(view, 0, READING) == Err(Refused::NotHeld)
}

// All of it in one scope, lent: the view, or what refused it.
fn in_one_scope<K: HeapName, D: Device + Drop, R: Wait>(
    rt: &R,
    scope: &mut Scope<K, D>,
) -> Result<Option<View>, Refused> {
    let pointer = scope.alloc(rt, 64, 1)?;
    let view = scope.view(rt, pointer)?;
    let integers = are_read(scope, &view) && are_written(scope, &view);
    let records = records_come_back(scope, &view) && pass_the_end(scope, &view);
    if integers && records && read_past(scope, &view) {
        Ok(Some(view))
    } else {
        Ok(None)
    }
}

// An early return by `?` ends what was lent alone: the scope is closed, so that the mutator drops what it viewed, and a round ends.
fn closed_by_lend<K: HeapName, D: Device + Drop, R: Wait>(
    rt: &R,
    heap: &Heap<K, D>,
    mutator: Mutator<K, D>,
    view: View,
) -> bool {
    let (mut mutator, refused) = lend(
        mutator.open(),
        |scope: &mut Scope<K, D>| -> Result<u16, Refused> {
            let seen = scope.view(rt, view.pointer())?;
            let other = scope.view(rt, 255)?;
            scope.read_u16::<BigEndian>(&seen, other.len())
        },
    );
    let filler = mutator.alloc(rt, 4088, 1).is_ok();
    let round = heap.run_round(rt, &mut Oldest, 1, 1000);
    let ended = matches!(round, Ok(RoundEnd::Done(done)) if done.moved == 1);
    refused == Err(Refused::NotHeld)
        && filler
        && ended
        && mutator.drop_object(rt, view.pointer()) == Ok(())
}

fn works<K: HeapName, D: Device + Drop, R: Wait>(
    rt: &R,
    heap: &Heap<K, D>,
    mutator: Mutator<K, D>,
) -> bool {
    let (mutator, told) = lend(
        mutator.open(),
        |scope: &mut Scope<K, D>| in_one_scope(rt, scope),
    );
    let Ok(Some(view)) = told else {
        return false;
    };
    let (mutator, unheld) = lend(
        mutator.open(),
        |scope: &mut Scope<K, D>| not_held(scope, &view),
    );
    unheld && closed_by_lend(rt, heap, mutator, view)
}

/// Whether all that comes out as it should with the first mutator.
pub(super) fn has_values<K: HeapName, D: Device + Drop, R: Wait>(
    rt: &R,
    stage: &mut Stage<'_, K, D>,
) -> bool {
    match stage.mutators.pop() {
        Some(mutator) => works(rt, stage.heap, mutator),
        None => false,
    }
}

const IN_LENT_SCOPES: &[Play] = &[Play {
    scene: Values,
    ..ONE
}];

#[test]
fn values_in_lent_scopes(rt: HostRuntime) {
    holds(&rt, rt.alloc(), IN_LENT_SCOPES);
}
