//! Inputs, outputs and far sides that fail.

use crate::tests::streams::{Ending, FREE, SEED, Side, Slow, Watched, run};
use far_double::Double;
use far_seen::Seen;
use far_word::Refused;
use std::alloc::Global;

const TEXT: &[u8] = b"a\nb\na\nc\nd";

/// For how many objects there is room, each which call is refused, and what comes of the text: how many lines came, what was printed, and how
/// the run ended.
type Row = (usize, u64, u64, &'static [u8], Ending);

#[rattlefmt::skip]
const SIDES: &[Row] = &[
    (4, 0, 5, b"a\nb\nc\nd\n", Ending::Done),
    (3, 0, 4, b"a\nb\nc\n", Ending::NoRoom),
    (2, 0, 3, b"a\nb\n", Ending::NoRoom),
    (0, 0, 0, b"", Ending::NoRoom),
    // Three lines are made, one is read and one is made.
    (4, 6, 5, b"a\nb\nc\nd\n", Ending::Done),
    (4, 5, 4, b"a\nb\nc\n", Ending::Device),
    (4, 4, 3, b"a\nb\n", Ending::Device),
    (4, 3, 2, b"a\nb\n", Ending::Device),
    (4, 1, 0, b"", Ending::Device),
];

fn comes_to(alloc: Global, few: usize, row: &Row) -> Result<bool, Refused> {
    let side = Side {
        end: b'\n',
        room: row.0,
        every: row.1,
        longest: 100,
    };
    let mut input = Slow {
        left: TEXT,
        step: few,
        fails: 0,
        reads: 0,
    };
    let mut output = Watched::new(alloc, 100, 100);
    let came = run(alloc, side, &mut input, &mut output)?;
    Ok(came == (row.2, row.4) && output.out.as_slice() == row.3)
}

#[test]
fn a_far_side_refuses(rt: HostRuntime) {
    for row in SIDES {
        for few in [1usize, 3, 100] {
            assert!(rt;
                comes_to(rt.alloc(), few, row) == Ok(true),
                "{} {} {few}",
                row.0,
                row.1
            );
        }
    }
}

/// How long a line is, for how many bytes of one and how many objects there is room, and what comes of it after a line `a`.
type Much = (usize, usize, usize, Ending);

#[rattlefmt::skip]
const MUCH: &[Much] = &[
    (1, 1, 2, Ending::Done),
    (100, 100, 2, Ending::Done),
    (101, 100, 2, Ending::Long),
    (9_000, 9_000, 4, Ending::Done),
    (9_001, 9_000, 4, Ending::Long),
    (9_000, 9_000, 3, Ending::NoRoom),
    (70_000, 9_000, 4, Ending::Long),
    (70_000, 70_000, 19, Ending::Done),
];

fn has_room(alloc: Global, few: usize, row: &Much) -> Result<bool, Refused> {
    let Ok(mut text) = vec![in alloc; b'x'; row.0.saturating_add(2)] else {
        return Err(Refused::Memory);
    };
    text.as_mut_slice()[..2].copy_from_slice(b"a\n");
    let side = Side {
        end: b'\n',
        room: row.2,
        every: 0,
        longest: row.1,
    };
    let mut input = Slow {
        left: text.as_slice(),
        step: few,
        fails: 0,
        reads: 0,
    };
    let mut output = Watched::new(alloc, 100_000, 100_000);
    let came = run(alloc, side, &mut input, &mut output)?;
    let lines = if row.3 == Ending::Done { 2 } else { 1 };
    let Ok(()) = text.push(b'\n') else {
        return Err(Refused::Memory);
    };
    let printed = if row.3 == Ending::Done { text.len() } else { 2 };
    Ok(came == (lines, row.3) && text.as_slice().get(..printed) == Some(output.out.as_slice()))
}

#[test]
fn lines_have_room_near_and_far(rt: HostRuntime) {
    for row in MUCH {
        for few in [3usize, 4_088, 100_000] {
            assert!(rt;
                has_room(rt.alloc(), few, row) == Ok(true),
                "{} {few}",
                row.0
            );
        }
    }
}

/// For how many lines a set has room, the lengths of two lines, and whether each is taken.
type Counted = (usize, usize, usize, (bool, bool));

#[rattlefmt::skip]
const COUNTED: &[Counted] = &[
    (2, 1, 4_088, (true, true)),
    (1, 1, 4_088, (true, false)),
    (0, 1, 2, (false, false)),
    (6, 1, 4_089, (true, false)),
    (7, 1, 4_089, (true, true)),
    (6, 4_089, 1, (true, false)),
    (7, 4_089, 1, (true, true)),
    (5, 8_176, 1, (false, true)),
    (6, 8_176, 1, (true, false)),
    (6, 8_177, 1, (false, true)),
    (7, 8_177, 1, (true, false)),
];

// A line that is refused takes no room.
fn counts(alloc: Global, row: &Counted) -> Result<bool, Refused> {
    let double = Double::new(alloc, true, 100, 0);
    let mut seen = Seen::with_room(alloc, double, SEED, row.0)?;
    let (Ok(first), Ok(second)) = (vec![in alloc; b'x'; row.1], vec![in alloc; b'x'; row.2]) else {
        return Err(Refused::Memory);
    };
    let came = (
        seen.first(first.as_slice()),
        seen.first(second.as_slice()),
        seen.len(),
    );
    Ok(
        came == match row.3 {
            (true, true) => (Ok(true), Ok(true), 2),
            (true, false) => (Ok(true), Err(Refused::Memory), 1),
            (false, true) => (Err(Refused::Memory), Ok(true), 1),
            (false, false) => (Err(Refused::Memory), Err(Refused::Memory), 0),
        },
    )
}

#[test]
fn a_set_has_room_for_so_many_lines(rt: HostRuntime) {
    for row in COUNTED {
        assert!(rt;
            counts(rt.alloc(), row) == Ok(true),
            "{} {} {}",
            row.0,
            row.1,
            row.2
        );
    }
}

// A long line is made of all its objects, or of none: there is room for two more afterwards. Near room for seven lines, or that one, is taken by none that
// is refused. The two short ones are of one tag under this seed: sixteen calls in all, of which one is a read.
fn leaves_no_part(alloc: Global) -> Result<bool, Refused> {
    let double = Double::new(alloc, true, 2, 0);
    let mut seen = Seen::with_room(alloc, double, SEED, 7)?;
    let Ok(text) = vec![in alloc; b'x'; 9_000] else {
        return Err(Refused::Memory);
    };
    let long = text.as_slice();
    let mut right = seen.first(long) == Err(Refused::NoRoom)
        && seen.first(long) == Err(Refused::NoRoom)
        && seen.first(b"11992950") == Ok(true)
        && seen.first(b"19817538") == Ok(true);
    for _ in 0..7 {
        right = seen.first(b"c") == Err(Refused::NoRoom) && right;
    }
    Ok(right && seen.len() == 2 && seen.worker().calls() == 16)
}

#[test]
fn a_refused_line_leaves_no_part(rt: HostRuntime) {
    assert!(rt; leaves_no_part(rt.alloc()) == Ok(true));
}

// Over a far side that reads zeros: a line that comes again is called neither new nor known.
fn is_damaged(alloc: Global, len: usize) -> Result<bool, Refused> {
    let double = Double::new(alloc, false, 100, 0);
    let mut seen = Seen::new(alloc, double, SEED)?;
    let Ok(text) = vec![in alloc; b'x'; len] else {
        return Err(Refused::Memory);
    };
    let line = text.as_slice();
    Ok(
        seen.first(line) == Ok(true)
            && seen.first(line) == Err(Refused::Damaged)
            && seen.first(b"another line") == Ok(true)
            && seen.len() == 2,
    )
}

#[test]
fn a_far_side_that_lies_is_told(rt: HostRuntime) {
    for len in [1usize, 4_088, 4_089, 20_000] {
        assert!(rt; is_damaged(rt.alloc(), len) == Ok(true), "{len}");
    }
}

/// Which read fails, of which each gives three bytes, how many lines came, and what was printed.
type Failing = (u64, u64, &'static [u8]);

#[rattlefmt::skip]
const READS: &[Failing] = &[
    (1, 0, b""),
    (2, 1, b"a\n"),
    (3, 3, b"a\nb\n"),
    (4, 4, b"a\nb\nc\n"),
];

fn fails_at(alloc: Global, row: &Failing) -> Result<bool, Refused> {
    let mut input = Slow {
        left: TEXT,
        step: 3,
        fails: row.0,
        reads: 0,
    };
    let mut output = Watched::new(alloc, 100, 100);
    let came = run(alloc, FREE, &mut input, &mut output)?;
    Ok(came == (row.1, Ending::Input) && output.out.as_slice() == row.2)
}

#[test]
fn an_input_fails(rt: HostRuntime) {
    for row in READS {
        assert!(rt; fails_at(rt.alloc(), row) == Ok(true), "{}", row.0);
    }
}

// An output with room for so many bytes has those of what is printed, and the run says so.
fn is_closed_at(alloc: Global, room: usize) -> Result<bool, Refused> {
    let printed: &[u8] = b"a\nb\nc\nd\n";
    let mut input = Slow {
        left: TEXT,
        step: 3,
        fails: 0,
        reads: 0,
    };
    let mut output = Watched::new(alloc, 2, room);
    let came = run(alloc, FREE, &mut input, &mut output)?;
    let wanted = if room < 8 {
        Ending::Output
    } else {
        Ending::Done
    };
    Ok(came.1 == wanted && printed.get(..room.min(8)) == Some(output.out.as_slice()))
}

#[test]
fn an_output_is_closed(rt: HostRuntime) {
    for room in 0..10usize {
        assert!(rt; is_closed_at(rt.alloc(), room) == Ok(true), "{room}");
    }
}

// Of lines that come alone each is written and flushed before the next is read.
fn go_out_alone(alloc: Global) -> Result<bool, Refused> {
    let mut input = Slow {
        left: b"a\nb\na\nc\n",
        step: 2,
        fails: 0,
        reads: 0,
    };
    let mut output = Watched::new(alloc, 100, 100);
    let came = run(alloc, FREE, &mut input, &mut output)?;
    Ok(came == (4, Ending::Done) && output.writes == 3 && output.flushes == 3)
}

#[test]
fn lines_go_out_alone(rt: HostRuntime) {
    assert!(rt; go_out_alone(rt.alloc()) == Ok(true));
}
