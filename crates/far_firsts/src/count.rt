//! Lines are counted.

ghost use Rattle.std.specs.Prelude.{◌≡◌, ◌+◌, ◌<◌, ◌≤◌, ◌++◌, ◌⊎◌, ◌∷◌, [], ℕ, List, true, false, IfErr, IfOk, IfSome, OnOk, OnErr, length};
ghost use Rattle.memchr.specs.Find.{IsFirstByte, is_byte};
ghost use Rattle.far_seen.specs.Tallied.{counted, often, total};
ghost use Rattle.far_firsts.specs.Lines.{IsPlain, key_of, lines_of, stamp_by};
ghost use Rattle.far_firsts.specs.Causes.{IsWhyNext, Refuses};
ghost use Rattle.far_firsts.specs.Doing.{IsWhyHalt, Stopped};
ghost use Rattle.far_firsts.specs.Tallying.{Came, IsStop, Last, Whole, midst as state_of};

use crate::end::{End, Why};
use crate::line::{keep, key};
use crate::midst::Midst;
use crate::write::read_some;
use far_objects::Objects;
use far_seen::Tally;
use far_word::Refused;
use memchr::memchr2;
use std::io::Read;

/// Counts a line.
fn count_line<O: Objects + Drop>(tally: &mut Tally<O>, end: u8, line: &[u8]) -> Result<(), Refused>
    ensures honest { tally.new.honest ≡ tally.old.honest }
    ensures counted { tally.old.honest ≡ true → OnOk result (tally.new.lines ≡ counted tally.old.lines (key_of end line.now)) }
    ensures total { OnOk result (total tally.new.lines ≡ total tally.old.lines + 1) }
    ensures seed { tally.new.seed ≡ tally.old.seed }
    ensures stamps { OnOk result ((q : List ℕ) → often q tally.new.stamps ≡ often q ((stamp_by tally.old.seed end line.now, 1) ∷ tally.old.stamps)) }
    ensures why { IfErr result (λ why. (why ≡ Refused.Memory) ⊎ Refuses O.unmade O.unreached tally.old.honest why) }
{
    let ends = [end];
    tally.add(key(line, &ends))
}

/// Counts the line that these bytes end.
fn count_end<O: Objects + Drop>(
    tally: &mut Tally<O>,
    end: u8,
    longest: usize,
    piece: &[u8],
    midst: &mut Midst,
) -> Result<(), Why>
    ensures honest { tally.new.honest ≡ tally.old.honest }
    ensures counted { tally.old.honest ≡ true → OnOk result (tally.new.lines ≡ counted tally.old.lines (key_of end (midst.old.part.items ++ piece.now))) }
    ensures total { OnOk result (total tally.new.lines ≡ total tally.old.lines + 1) }
    ensures seed { tally.new.seed ≡ tally.old.seed }
    ensures stamps { OnOk result ((q : List ℕ) → often q tally.new.stamps ≡ often q ((stamp_by tally.old.seed end (midst.old.part.items ++ piece.now), 1) ∷ tally.old.stamps)) }
    ensures part { OnOk result (midst.new.part.items ≡ []) }
    ensures count { OnOk result (midst.new.count ≡ midst.old.count + 1) }
    ensures out { midst.new.out ≡ midst.old.out }
    ensures same { OnErr result (midst.new.count ≡ midst.old.count) }
    ensures why { IfErr result (IsWhyNext longest (Refuses O.unmade O.unreached tally.old.honest) midst.old.count (length (midst.old.part.items ++ piece.now))) }
{
    if midst.count == u64::MAX {
        return Err(Why::TooMany);
    }
    if let Err(why) = keep(&mut midst.part, longest, piece) {
        return Err(Why::Refused(why));
    }
    match count_line(tally, end, midst.part.as_slice()) {
        Ok(()) => {
            midst.part.clear();
            midst.count += 1;
            Ok(())
        }
        Err(why) => Err(Why::Refused(why)),
    }
}

/// The place of the first end. It isn't found by `memchr`, so that this has one caller, and is made in its place there: in what prints lines
/// at once.
fn next_end(end: u8, bytes: &[u8]) -> Option<usize>
    ensures { IsFirstByte (is_byte end) bytes.now result }
{
    memchr2(end, end, bytes)
}

/// Counts the lines that end in these bytes, and keeps what comes after the last end.
fn count_bytes<O: Objects + Drop>(
    tally: &mut Tally<O>,
    end: u8,
    longest: usize,
    bytes: &[u8],
    midst: &mut Midst,
) -> Result<(), Why>
    requires { IsPlain end midst.old.part.items }
    ensures honest { tally.new.honest ≡ tally.old.honest }
    ensures plain { OnOk result (IsPlain end midst.new.part.items) }
    ensures out { midst.new.out ≡ midst.old.out }
    ensures came { OnOk result (Came tally.old.honest end bytes.now midst.old.part.items midst.old.count midst.new.part.items midst.new.count tally.old tally.new) }
    ensures stopped { IfErr result (λ why. Stopped longest (Refuses O.unmade O.unreached tally.old.honest) false end bytes.now (state_of midst.old.part.items midst.old.count) midst.new.count why [] []) }
{
    let mut rest = bytes;
    while let Some(i) = next_end(end, rest) {
        match count_end(tally, end, longest, &rest[..i], midst) {
            Ok(()) => {}
            Err(why) => return Err(why),
        }
        rest = &rest[i + 1..];
    }
    match keep(&mut midst.part, longest, rest) {
        Ok(()) => Ok(()),
        Err(why) => Err(Why::Refused(why)),
    }
}

/// The text has ended, and with it a line, if bytes of one came. How many lines came.
fn count_last<O: Objects + Drop>(
    tally: &mut Tally<O>,
    end: u8,
    longest: usize,
    midst: &mut Midst,
) -> Result<u64, Why>
    requires { IsPlain end midst.old.part.items }
    ensures honest { tally.new.honest ≡ tally.old.honest }
    ensures out { midst.new.out ≡ midst.old.out }
    ensures last { IfOk result (λ n. Last tally.old.honest end midst.old.part.items midst.old.count n tally.old tally.new) }
    ensures same { OnErr result (midst.new.count ≡ midst.old.count) }
    ensures halts { IfErr result (λ why. IsWhyHalt longest (Refuses O.unmade O.unreached tally.old.honest) end (state_of midst.old.part.items midst.old.count) why) }
{
    if midst.part.is_empty() {
        return Ok(midst.count);
    }
    match count_end(tally, end, longest, b"", midst) {
        Ok(()) => Ok(midst.count),
        Err(why) => Err(why),
    }
}

/// Counts the lines of an input. How many came, or how many until it ended early.
pub fn count_input<O: Objects + Drop, R: Read>(
    tally: &mut Tally<O>,
    end: u8,
    longest: usize,
    input: &mut R,
    room: &mut [u8],
    midst: &mut Midst,
) -> Result<u64, End>
    requires part { midst.old.part.items ≡ [] }
    requires count { midst.old.count ≡ 0 }
    requires room { 0 < length room.old }
    ensures honest { tally.new.honest ≡ tally.old.honest }
    ensures out { midst.new.out ≡ midst.old.out }
    ensures whole { IfSome (R.remaining input.old) (λ text. IfOk result (λ n. Whole tally.old.honest end n text tally.old tally.new)) }
    ensures stopped { IfSome (R.remaining input.old) (λ text. IfErr result (λ e. (e.lines ≤ length (lines_of end text)) × IsStop longest (Refuses O.unmade O.unreached tally.old.honest) end e.lines e.why text (R.remaining input.new))) }
{
    'reads: for turn in 0..u64::MAX {
        let count = match read_some(input, room) {
            Ok(count) => count,
            Err(e) => return Err(end_at(midst, Why::Input(e))),
        };
        if count == 0 {
            return match count_last(tally, end, longest, midst) {
                Ok(lines) => Ok(lines),
                Err(why) => Err(end_at(midst, why)),
            };
        }
        match count_bytes(tally, end, longest, &room[..count], midst) {
            Ok(()) => {}
            Err(why) => return Err(end_at(midst, why)),
        }
    }
    Err(end_at(midst, Why::TooMany))
}

fn end_at(midst: &Midst, why: Why) -> End
    ensures lines { result.lines ≡ midst.now.count }
    ensures why { result.why ≡ why }
{
    End {
        lines: midst.count,
        why,
    }
}
