//! A whole input.

ghost use Rattle.std.specs.Prelude.{◌≡◌, ◌<◌, [], IfOk, IfSome, length};
ghost use Rattle.std.specs.FinSet as set;
ghost use Rattle.far_firsts.specs.Lines.{IsPlain, stamp_by};
ghost use Rattle.far_firsts.specs.Causes.{Refuses};
ghost use Rattle.far_firsts.specs.Doing.{Finished, known_of, state};
ghost use Rattle.far_firsts.specs.Telling.{Tells};

use crate::end::{End, Why};
use crate::line::take_end;
use crate::midst::Midst;
use crate::write::{let_out, read_some, work};
use far_objects::Objects;
use far_seen::Seen;
use far_word::Refused;
use std::alloc::{AllocError, Global};
use std::io::{Read, Write};

/// How many bytes are read at once. So many, those of a line and an end are written at once.
pub const READ: usize = 65_536;

/// Prints each line of the input the first time it comes, and an end after each; what was read at once is written before more is read.
///
/// `end` ends a line; what follows the last one is a line too, if it has bytes, and gets an end. A line may have `longest` bytes, which
/// lie near until it is printed: twice so many are asked for, and those are used that lines have. A longer one is refused
/// [`Refused::Length`], and what came before is printed then. Over a far side that lies a line may be printed again; it is left out only
/// after another one of its length and its hash, of 48 bits. Whole lines of the input are printed, in its order, and nothing else; where the
/// output fails, a beginning of that. All this is said of an input and an output that tell their bytes.
pub fn uniq<O: Objects + Drop, R: Read, W: Write>(
    alloc: Global,
    seen: &mut Seen<O>,
    end: u8,
    longest: usize,
    input: &mut R,
    output: &mut W,
) -> End
    requires none { seen.old.lines ≡ set.empty }
    requires stamps { seen.old.stamps ≡ set.empty }
    ensures { IfSome (R.remaining input.old) (λ text. Tells longest (Refuses O.unmade O.unreached seen.old.honest) seen.old.honest (stamp_by seen.old.seed end) end result.lines result.why text (R.remaining input.new) (W.contents output.old) (W.contents output.new)) }
{
    let Ok(mut midst) = Midst::new(alloc, longest, READ) else {
        return no_room();
    };
    let Ok(mut room) = zeros(alloc, READ) else {
        return no_room();
    };
    run(
        seen,
        end,
        longest,
        input,
        output,
        room.as_mut_slice(),
        &mut midst,
    )
}

fn no_room() -> End
    ensures lines { result.lines ≡ 0 }
    ensures why { result.why ≡ Why.Refused Refused.Memory }
{
    End {
        lines: 0,
        why: Why::Refused(Refused::Memory),
    }
}

pub fn zeros(alloc: Global, len: usize) -> Result<Vec<u8>, AllocError>
    requires { 0 < len }
    ensures { IfOk result (λ v. 0 < length v.items) }
{
    let room = vec![in alloc; 0u8; len]?;
    Ok(room)
}

fn run<O: Objects + Drop, R: Read, W: Write>(
    seen: &mut Seen<O>,
    end: u8,
    longest: usize,
    input: &mut R,
    output: &mut W,
    room: &mut [u8],
    midst: &mut Midst,
) -> End
    requires none { seen.old.lines ≡ set.empty }
    requires stamps { seen.old.stamps ≡ set.empty }
    requires part { midst.old.part.items ≡ [] }
    requires out { midst.old.out.items ≡ [] }
    requires count { midst.old.count ≡ 0 }
    requires room { 0 < length room.old }
    ensures { IfSome (R.remaining input.old) (λ text. Tells longest (Refuses O.unmade O.unreached seen.old.honest) seen.old.honest (stamp_by seen.old.seed end) end result.lines result.why text (R.remaining input.new) (W.contents output.old) (W.contents output.new)) }
{
    'reads: for turn in 0..u64::MAX {
        let count = match read_some(input, room) {
            Ok(count) => count,
            Err(e) => {
                return End {
                    lines: midst.count,
                    why: Why::Input(e),
                };
            }
        };
        if count == 0 {
            return finish(seen, end, longest, midst, output);
        }
        match work(seen, end, longest, &room[..count], midst, output) {
            Ok(()) => {}
            Err(why) => {
                return End {
                    lines: midst.count,
                    why,
                };
            }
        }
    }
    End {
        lines: midst.count,
        why: Why::TooMany,
    }
}

/// The text has ended, and with it a line, if bytes of one came.
fn finish<O: Objects + Drop, W: Write>(
    seen: &mut Seen<O>,
    end: u8,
    longest: usize,
    midst: &mut Midst,
    output: &mut W,
) -> End
    requires out { midst.old.out.items ≡ [] }
    requires plain { IsPlain end midst.old.part.items }
    ensures { Finished longest (Refuses O.unmade O.unreached seen.old.honest) seen.old.honest end (state (known_of end seen.old) midst.old.part.items midst.old.count) result.lines result.why (W.contents output.old) (W.contents output.new) }
{
    if midst.part.is_empty() {
        return End {
            lines: midst.count,
            why: Why::Done,
        };
    }
    match take_end(seen, end, longest, b"", midst) {
        Ok(()) => {}
        Err(why) => {
            return End {
                lines: midst.count,
                why,
            };
        }
    }
    match let_out(output, &mut midst.out) {
        Ok(()) => End {
            lines: midst.count,
            why: Why::Done,
        },
        Err(e) => End {
            lines: midst.count,
            why: Why::Output(e),
        },
    }
}
