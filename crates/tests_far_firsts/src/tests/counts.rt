//! How often lines come: what is printed of a text, beside a model; and inputs, outputs and far sides that fail.

use crate::tests::streams::{FREE, SEED, Side, Slow, Watched};
use far_double::Double;
use far_firsts::{Counted, Ending, count_lines};
use far_seen::Tally;
use far_word::Refused;
use std::alloc::Global;

/// How a count ended.
#[derive(Clone, Copy, Debug, PartialEq, Eq)]
enum Name {
    Done,
    Long,
    NoRoom,
    Device,
    Input,
    Lost(u64),
    Output,
    Other,
}

fn name_of(ending: &Ending) -> Name {
    match ending {
        Ending::Done => Name::Done,
        Ending::Refused(Refused::Length) => Name::Long,
        Ending::Refused(Refused::NoRoom) => Name::NoRoom,
        Ending::Refused(Refused::Device) => Name::Device,
        Ending::Input(_) => Name::Input,
        Ending::Lost(shown, Refused::Device | Refused::Damaged) => Name::Lost(*shown),
        Ending::Output(_) => Name::Output,
        _ => Name::Other,
    }
}

// A count over an empty tally: how many lines came, and how it ended.
fn count(
    alloc: Global,
    double: Double,
    side: Side,
    input: &mut Slow<'_>,
    output: &mut Watched,
) -> Result<(u64, Name), Refused> {
    let mut tally = Tally::new(alloc, double, SEED)?;
    let came: Counted = count_lines(alloc, &mut tally, side.end, side.longest, input, output);
    Ok((came.lines, name_of(&came.ending)))
}

fn slow(text: &[u8], step: usize) -> Slow<'_> {
    Slow {
        left: text,
        step,
        fails: 0,
        reads: 0,
    }
}

/// A text, what is printed of it, and how many lines it has.
type Row = (&'static [u8], &'static [u8], u64);

#[rattlefmt::skip]
const TEXTS: &[Row] = &[
    (b"", b"", 0),
    (b"a", b"      1 a\n", 1),
    (b"\n", b"      1 \n", 1),
    (b"\n\n\n", b"      3 \n", 3),
    (b"b\na\nb\nc\nb\na", b"      3 b\n      2 a\n      1 c\n", 6),
    (b"a\n\na\n\xff\n\n\n", b"      2 a\n      3 \n      1 \xff\n", 6),
    // Two lines of one tag.
    (b"11992950\n19817538\n11992950\n", b"      2 11992950\n      1 19817538\n", 3),
];

fn prints(alloc: Global, side: Side, few: usize, row: &Row) -> Result<bool, Refused> {
    let double = Double::new(alloc, true, side.room, 0);
    let mut output = Watched::new(alloc, few, 100_000);
    let came = count(alloc, double, side, &mut slow(row.0, few), &mut output)?;
    Ok(came == (row.2, Name::Done) && output.out.as_slice() == row.1)
}

#[test]
fn lines_are_counted(rt: HostRuntime) {
    for row in TEXTS {
        for few in [1usize, 3, 100_000] {
            assert!(rt;
                prints(rt.alloc(), FREE, few, row) == Ok(true),
                "{few} {}",
                row.2
            );
        }
    }
}

#[test]
fn lines_that_end_in_nul_are_counted(rt: HostRuntime) {
    let side = Side {
        end: 0,
        room: 3,
        every: 0,
        longest: 3,
    };
    let row: Row = (b"a\n\0b\0a\n\0\0", b"      2 a\n\0      1 b\0      1 \0", 4);
    assert!(rt; prints(rt.alloc(), side, 100, &row) == Ok(true));
}

/// How often a line came, and how that is printed.
type Wide = (u32, &'static [u8]);

#[rattlefmt::skip]
const WIDE: &[Wide] = &[
    (9, b"      9 x\n"), (10, b"     10 x\n"), (99_999, b"  99999 x\n"), (100_000, b" 100000 x\n"),
];

// A text of so many lines `x`.
fn same_lines(alloc: Global, count: u32) -> Result<Vec<u8>, Refused> {
    let Ok(mut text) = vec![in alloc; b'x'; count as usize * 2] else {
        return Err(Refused::Memory);
    };
    let bytes = text.as_mut_slice();
    for at in 0..bytes.len() {
        if at % 2 == 1 {
            bytes[at] = b'\n';
        }
    }
    Ok(text)
}

fn is_wide(alloc: Global, row: &Wide) -> Result<bool, Refused> {
    let text = same_lines(alloc, row.0)?;
    let double = Double::new(alloc, true, 1, 0);
    let mut output = Watched::new(alloc, 100, 100);
    let came = count(
        alloc,
        double,
        FREE,
        &mut slow(text.as_slice(), 1_000_000),
        &mut output,
    )?;
    Ok(came == (row.0 as u64, Name::Done) && output.out.as_slice() == row.1)
}

#[test]
fn counts_stand_in_seven_columns(rt: HostRuntime) {
    for row in WIDE {
        assert!(rt; is_wide(rt.alloc(), row) == Ok(true), "{}", row.0);
    }
}

/// For how many objects there is room, each which call is refused, how many lines came, what was printed, and how it ended.
type Fault = (usize, u64, u64, &'static [u8], Name);

const TEXT: &[u8] = b"a\nb\na\nc";

#[rattlefmt::skip]
const FAULTS: &[Fault] = &[
    (3, 0, 4, b"      2 a\n      1 b\n      1 c\n", Name::Done),
    (2, 0, 3, b"", Name::NoRoom),
    (0, 0, 0, b"", Name::NoRoom),
    // Two lines are made, one is read, one is made; then three are read.
    (3, 8, 4, b"      2 a\n      1 b\n      1 c\n", Name::Done),
    (3, 7, 4, b"      2 a\n      1 b\n", Name::Lost(2)),
    (3, 6, 4, b"      2 a\n", Name::Lost(1)),
    (3, 5, 4, b"", Name::Lost(0)),
    (3, 4, 3, b"", Name::Device),
    (3, 3, 2, b"", Name::Device),
    (3, 1, 0, b"", Name::Device),
];

fn comes_to(alloc: Global, row: &Fault) -> Result<bool, Refused> {
    let double = Double::new(alloc, true, row.0, row.1);
    let mut output = Watched::new(alloc, 100, 100);
    let came = count(alloc, double, FREE, &mut slow(TEXT, 3), &mut output)?;
    Ok(came == (row.2, row.4) && output.out.as_slice() == row.3)
}

#[test]
fn a_far_side_refuses_a_count(rt: HostRuntime) {
    for row in FAULTS {
        assert!(rt;
            comes_to(rt.alloc(), row) == Ok(true),
            "{} {}",
            row.0,
            row.1
        );
    }
}

// Over a far side that reads zeros no line is printed that wasn't read back.
#[test]
fn a_lie_is_told_at_the_end(rt: HostRuntime) {
    let double = Double::new(rt.alloc(), false, 10, 0);
    let mut output = Watched::new(rt.alloc(), 100, 100);
    let came = count(
        rt.alloc(),
        double,
        FREE,
        &mut slow(b"a\nb", 100),
        &mut output,
    );
    assert!(rt; came == Ok((2, Name::Lost(0))) && output.out.is_empty());
}

// Over such a far side a line that comes again isn't counted, neither as the one that came nor as another.
fn is_damaged(alloc: Global, len: usize) -> Result<bool, Refused> {
    let double = Double::new(alloc, false, 100, 0);
    let mut tally = Tally::new(alloc, double, SEED)?;
    let Ok(text) = vec![in alloc; b'x'; len] else {
        return Err(Refused::Memory);
    };
    let line = text.as_slice();
    Ok(tally.add(line) == Ok(()) && tally.add(line) == Err(Refused::Damaged) && tally.len() == 1)
}

#[test]
fn a_damaged_line_is_not_counted(rt: HostRuntime) {
    for len in [1usize, 4_088, 4_089, 20_000] {
        assert!(rt; is_damaged(rt.alloc(), len) == Ok(true), "{len}");
    }
}

/// Which read of three bytes fails, and how many lines came then.
type Failing = (u64, u64);

#[rattlefmt::skip]
const READS: &[Failing] = &[(1, 0), (2, 1), (3, 3)];

fn fails_at(alloc: Global, row: &Failing) -> Result<bool, Refused> {
    let double = Double::new(alloc, true, 10, 0);
    let mut input = Slow {
        left: TEXT,
        step: 3,
        fails: row.0,
        reads: 0,
    };
    let mut output = Watched::new(alloc, 100, 100);
    let came = count(alloc, double, FREE, &mut input, &mut output)?;
    Ok(came == (row.1, Name::Input) && output.out.is_empty())
}

#[test]
fn an_input_fails_and_nothing_is_printed(rt: HostRuntime) {
    for row in READS {
        assert!(rt; fails_at(rt.alloc(), row) == Ok(true), "{}", row.0);
    }
}

// An output with room for so many bytes has those of what is printed, and the run says so.
fn is_closed_at(alloc: Global, room: usize) -> Result<bool, Refused> {
    let printed: &[u8] = b"      2 a\n      1 b\n      1 c\n";
    let double = Double::new(alloc, true, 10, 0);
    let mut output = Watched::new(alloc, 7, room);
    let came = count(alloc, double, FREE, &mut slow(TEXT, 100), &mut output)?;
    let wanted = if room < 30 { Name::Output } else { Name::Done };
    Ok(came == (4, wanted) && printed.get(..room.min(30)) == Some(output.out.as_slice()))
}

#[test]
fn an_output_of_counts_is_closed(rt: HostRuntime) {
    for room in 0..32usize {
        assert!(rt; is_closed_at(rt.alloc(), room) == Ok(true), "{room}");
    }
}

#[test]
fn a_longer_line_ends_a_count(rt: HostRuntime) {
    let side = Side {
        end: b'\n',
        room: 10,
        every: 0,
        longest: 2,
    };
    let double = Double::new(rt.alloc(), true, 10, 0);
    let mut output = Watched::new(rt.alloc(), 100, 100);
    let came = count(
        rt.alloc(),
        double,
        side,
        &mut slow(b"a\nab\nabc\n", 4),
        &mut output,
    );
    assert!(rt; came == Ok((2, Name::Long)) && output.out.is_empty());
}

// Long lines, and more lines than are written at once: what is printed is what a model counts, line for line.
fn counts_many(alloc: Global, kinds: usize, long: usize) -> Result<bool, Refused> {
    let mut text = Vec::new(alloc);
    let mut wanted = Vec::new(alloc);
    for kind in 0..kinds {
        let line = line_of(alloc, kind, long)?;
        let Ok(()) = wanted.extend_from_slice(b"      2 ") else {
            return Err(Refused::Memory);
        };
        let Ok(()) = wanted.extend_from_slice(line.as_slice()) else {
            return Err(Refused::Memory);
        };
        let Ok(()) = text.extend_from_slice(line.as_slice()) else {
            return Err(Refused::Memory);
        };
    }
    let Ok(once) = Vec::from_slice(alloc, text.as_slice()) else {
        return Err(Refused::Memory);
    };
    let Ok(()) = text.extend_from_slice(once.as_slice()) else {
        return Err(Refused::Memory);
    };
    let double = Double::new(alloc, true, 1_000_000, 0);
    let mut output = Watched::new(alloc, 100_000, 10_000_000);
    let came = count(
        alloc,
        double,
        FREE,
        &mut slow(text.as_slice(), 50_000),
        &mut output,
    )?;
    Ok(
        came == ((kinds as u64).saturating_mul(2), Name::Done)
            && output.out.as_slice() == wanted.as_slice(),
    )
}

// A line of so many bytes that is one of its kind, and an end.
fn line_of(alloc: Global, kind: usize, long: usize) -> Result<Vec<u8>, Refused> {
    let Ok(mut line) = vec![in alloc; b'x'; long] else {
        return Err(Refused::Memory);
    };
    let digits = [
        b'0' + (kind / 1_000 % 10) as u8,
        b'0' + (kind / 100 % 10) as u8,
        b'0' + (kind / 10 % 10) as u8,
        b'0' + (kind % 10) as u8,
        b'\n',
    ];
    let Ok(()) = line.extend_from_slice(&digits) else {
        return Err(Refused::Memory);
    };
    Ok(line)
}

#[test]
fn many_and_long_lines_are_counted(rt: HostRuntime) {
    for row in [
        (5_000usize, 20usize),
        (40, 4_084),
        (40, 4_085),
        (30, 90_000),
    ] {
        assert!(rt;
            counts_many(rt.alloc(), row.0, row.1) == Ok(true),
            "{} {}",
            row.0,
            row.1
        );
    }
}

// The line of a place, if it is one.
fn read_at(tally: &mut Tally<Double>, place: usize, out: &mut Vec<u8>) -> Result<u64, Refused> {
    if place >= tally.len() {
        return Err(Refused::Range);
    }
    tally.read(place, out)
}

// A tally is refused and changes nothing; the line is counted once there is room. No line is empty. The first two are of one tag under this seed, so the second costs
// a read more each time: six calls in all.
fn is_as_before(alloc: Global) -> Result<bool, Refused> {
    let double = Double::new(alloc, true, 2, 0);
    let mut tally = Tally::new(alloc, double, SEED)?;
    let mut out = Vec::new(alloc);
    let refused = tally.add(b"") == Err(Refused::Length)
        && tally.add(b"11992950") == Ok(())
        && tally.add(b"19817538") == Ok(())
        && tally.add(b"c") == Err(Refused::NoRoom)
        && tally.add(b"19817538") == Ok(())
        && tally.len() == 2
        && tally.worker().calls() == 6;
    let (second, first): (&[u8], &[u8]) = (b"19817538", b"11992950");
    let read = read_at(&mut tally, 1, &mut out) == Ok(2) && out.as_slice() == second;
    let first = read_at(&mut tally, 0, &mut out) == Ok(1) && out.as_slice() == first;
    Ok(refused && read && first)
}

#[test]
fn a_tally_that_refused_is_as_before(rt: HostRuntime) {
    assert!(rt; is_as_before(rt.alloc()) == Ok(true));
}

// It takes no more lines than it has room for.
fn has_room_for(alloc: Global, lines: usize) -> Result<bool, Refused> {
    let double = Double::new(alloc, true, 100, 0);
    let mut tally = Tally::with_room(alloc, double, SEED, lines)?;
    let (first, again) = (tally.add(b"a"), tally.add(b"a"));
    let second = tally.add(b"b");
    Ok(match lines {
        0 => first == Err(Refused::Memory) && again == Err(Refused::Memory),
        1 => first == Ok(()) && again == Ok(()) && second == Err(Refused::Memory),
        _ => first == Ok(()) && again == Ok(()) && second == Ok(()),
    })
}

#[test]
fn a_tally_has_room_for_so_many_lines(rt: HostRuntime) {
    for lines in 0..3usize {
        assert!(rt; has_room_for(rt.alloc(), lines) == Ok(true), "{lines}");
    }
}
