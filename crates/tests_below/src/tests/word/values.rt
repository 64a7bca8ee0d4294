//! Values of each public type that differ in one field compare as different, and each is equal to itself.

use super::{HOT, NO_MARKS};
use far_word::{HeadWord, HeadWordV1, Mark, Marks, Place, PtrWord, Refused, ScopeWord, Version};
use std::test::*;

// Whether two values are different both ways, by each of the two comparisons.
fn differ<T: PartialEq>(left: &T, right: &T) -> bool {
    !(left == right) && left != right && !(right == left) && right != left
}

// Whether a value is equal to itself, and different from each of these.
fn is_new<T: PartialEq>(value: &T, others: &[T]) -> bool {
    for other in others {
        if !differ(value, other) {
            return false;
        }
    }
    value == value && !(value != value)
}

// Whether no two of some values are the same.
fn all_differ<T: PartialEq>(values: &[T]) -> bool {
    for (i, value) in values.iter().enumerate() {
        if !is_new(value, &values[..i]) {
            return false;
        }
    }
    true
}

const PLACE: Place = Place { log: 3, at: 5 };

const MARKS: [Marks; 6] = [
    NO_MARKS,
    Marks {
        hot: true,
        ..NO_MARKS
    },
    Marks {
        evac: true,
        ..NO_MARKS
    },
    Marks {
        moved: true,
        ..NO_MARKS
    },
    Marks {
        dropped: true,
        ..NO_MARKS
    },
    Marks {
        dirty: true,
        ..NO_MARKS
    },
];

#[test]
fn places(rt: HostRuntime) {
    assert!(rt; all_differ(&[PLACE, Place { log: 4, ..PLACE }, Place { at: 6, ..PLACE }]));
}

#[test]
fn marks(rt: HostRuntime) {
    assert!(rt; all_differ(&MARKS));
    assert!(rt;
        all_differ(&[
            Mark::Hot,
            Mark::Evac,
            Mark::Moved,
            Mark::Dropped,
            Mark::Dirty
        ])
    );
}

// Near ones that differ in one field, and far ones.
const NEAR: [PtrWord; 6] = [
    PtrWord::Near {
        len: 8,
        ds: 1,
        place: PLACE,
        marks: NO_MARKS,
    },
    PtrWord::Near {
        len: 9,
        ds: 1,
        place: PLACE,
        marks: NO_MARKS,
    },
    PtrWord::Near {
        len: 8,
        ds: 2,
        place: PLACE,
        marks: NO_MARKS,
    },
    PtrWord::Near {
        len: 8,
        ds: 1,
        place: Place { log: 4, ..PLACE },
        marks: NO_MARKS,
    },
    PtrWord::Near {
        len: 8,
        ds: 1,
        place: Place { at: 6, ..PLACE },
        marks: NO_MARKS,
    },
    PtrWord::Near {
        len: 8,
        ds: 1,
        place: PLACE,
        marks: HOT,
    },
];

const FAR: [PtrWord; 4] = [
    PtrWord::Far {
        len: 8,
        ds: 1,
        marks: NO_MARKS,
    },
    PtrWord::Far {
        len: 9,
        ds: 1,
        marks: NO_MARKS,
    },
    PtrWord::Far {
        len: 8,
        ds: 2,
        marks: NO_MARKS,
    },
    PtrWord::Far {
        len: 8,
        ds: 1,
        marks: HOT,
    },
];

#[test]
fn pointers(rt: HostRuntime) {
    assert!(rt; all_differ(&NEAR) && all_differ(&FAR));
    assert!(rt; all_differ(&[PtrWord::Free, NEAR[0], FAR[0]]));
}

const HEAD: HeadWord = HeadWord {
    pointer: 5,
    len: 8,
    ds: 1,
};

const HEADS: [HeadWord; 4] = [
    HEAD,
    HeadWord { pointer: 6, ..HEAD },
    HeadWord { len: 9, ..HEAD },
    HeadWord { ds: 2, ..HEAD },
];

const OLDER: HeadWordV1 = HeadWordV1 {
    pointer: 5,
    len: 8,
    ds: 1,
};

const OLDER_HEADS: [HeadWordV1; 4] = [
    OLDER,
    HeadWordV1 {
        pointer: 6,
        ..OLDER
    },
    HeadWordV1 { len: 9, ..OLDER },
    HeadWordV1 { ds: 2, ..OLDER },
];

#[test]
fn headers(rt: HostRuntime) {
    assert!(rt; all_differ(&HEADS) && all_differ(&OLDER_HEADS));
    assert!(rt; all_differ(&[Version::First, Version::Second]));
}

#[test]
fn scopes(rt: HostRuntime) {
    assert!(rt;
        all_differ(&[
            ScopeWord::Closed,
            ScopeWord::Open { epoch: 0 },
            ScopeWord::Open { epoch: 1 },
            ScopeWord::Open { epoch: 1 << 61 },
        ])
    );
}

#[test]
fn refusals(rt: HostRuntime) {
    assert!(rt;
        all_differ(&[
            Refused::Memory,
            Refused::NoRoom,
            Refused::NoPointer,
            Refused::Length,
            Refused::Closed,
            Refused::AlreadyOpen,
            Refused::NotHeld,
            Refused::Range,
            Refused::Held,
            Refused::Device,
            Refused::Damaged,
            Refused::Phase,
            Refused::EpochsSpent,
            Refused::Marked(1),
            Refused::Marked(2),
            Refused::Shape,
            Refused::Syntax(1),
            Refused::Syntax(2),
            Refused::BadChoice(1),
            Refused::BadChoice(2),
            Refused::StillOpen(1, 1),
            Refused::StillOpen(1, 2),
            Refused::StillOpen(2, 1),
        ])
    );
}
