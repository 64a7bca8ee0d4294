//! A whole input, counted and printed.

ghost use Rattle.std.specs.Prelude.{◌≡◌, [], IfSome};
ghost use Rattle.far_firsts.specs.Causes.{Refuses};
ghost use Rattle.far_firsts.specs.Lines.{stamp_by};
ghost use Rattle.far_firsts.specs.Tallies.{TellsCounts};
ghost use Rattle.far_firsts.specs.Tallying.{ending_of as ending_for};

use crate::count::count_input;
use crate::end::Why;
use crate::ending::{Counted, Ending};
use crate::midst::Midst;
use crate::run::{READ, zeros};
use crate::show::show_all;
use far_objects::Objects;
use far_seen::Tally;
use far_word::Refused;
use std::alloc::Global;
use std::io::{Read, Write};

/// Counts the lines of the input to its end, and then prints each once, in the order in which each came first: how often it came, in seven
/// columns or more, a space, the line and its end. Nothing is printed before the end.
///
/// `end`, `longest` and what a line is are those of [`uniq`](crate::uniq); a longer line is refused [`Refused::Length`]. Over a far side
/// that lies a line may be counted as another one of its hash and length, and what is printed has those.
pub fn count_lines<O: Objects + Drop, R: Read, W: Write>(
    alloc: Global,
    tally: &mut Tally<O>,
    end: u8,
    longest: usize,
    input: &mut R,
    output: &mut W,
) -> Counted
    requires none { tally.old.lines ≡ [] }
    requires stamps { tally.old.stamps ≡ [] }
    ensures { IfSome (R.remaining input.old) (λ text. TellsCounts longest (Refuses O.unmade O.unreached tally.old.honest) tally.old.honest (stamp_by tally.old.seed end) end result.lines result.ending text (R.remaining input.new) (W.contents output.old) (W.contents output.new)) }
{
    let Ok(mut midst) = Midst::new(alloc, longest, READ) else {
        return no_room();
    };
    let Ok(mut room) = zeros(alloc, READ) else {
        return no_room();
    };
    match count_input(tally, end, longest, input, room.as_mut_slice(), &mut midst) {
        Ok(lines) => Counted {
            lines,
            ending: show_all(tally, end, &mut midst, output),
        },
        Err(ended) => Counted {
            lines: ended.lines,
            ending: ending_of(ended.why),
        },
    }
}

fn no_room() -> Counted
    ensures lines { result.lines ≡ 0 }
    ensures ending { result.ending ≡ Ending.Refused Refused.Memory }
{
    Counted {
        lines: 0,
        ending: Ending::Refused(Refused::Memory),
    }
}

// Why nothing is printed. `Done` is no such cause.
fn ending_of(why: Why) -> Ending
    ensures { result ≡ ending_for why }
{
    match why {
        Why::Refused(why) => Ending::Refused(why),
        Why::Input(e) => Ending::Input(e),
        Why::Output(e) => Ending::Output(e),
        Why::Done | Why::TooMany => Ending::TooMany,
    }
}
