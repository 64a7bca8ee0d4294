//! What was counted is printed.

ghost use Rattle.std.specs.Prelude.{◌≡◌, ◌<◌, ◌++◌, ◌∷◌, ◌⊎◌, ℕ, List, [], IfErr, OnOk, OnErr, length, take};
ghost use Rattle.std.specs.Io.KnownBytes.{Appends};
ghost use Rattle.far_firsts.specs.Causes.{Refuses};
ghost use Rattle.far_firsts.specs.Tallies.{entry};
ghost use Rattle.far_firsts.specs.Tallying.{Shown, Shows, line_for};

use crate::ending::Ending;
use crate::midst::Midst;
use crate::write::let_out;
use far_objects::Objects;
use far_seen::Tally;
use far_word::Refused;
use itoa::Buffer;
use std::alloc::AllocError;
use std::io;
use std::io::Write;

/// How many bytes wait until they are written.
const WAIT: usize = 32_768;

/// The line that a key stands for.
fn line_of_key(key: &[u8], end: u8) -> &[u8]
    ensures { result.now ≡ line_for end key.now }
{
    let ends = [end];
    if key == ends.as_slice() { b"" } else { key }
}

/// Puts how often a line came, a space, the line and its end to what is to be written. After an error some of that may be there.
fn push_entry(out: &mut Vec<u8>, count: u64, line: &[u8], end: u8) -> Result<(), AllocError>
    ensures pushed { OnOk result (out.new.items ≡ out.old.items ++ entry end (line.now, count)) }
    ensures begins { OnErr result ((more : List ℕ) × (out.new.items ≡ out.old.items ++ more)) }
{
    let mut buffer = Buffer::new();
    let digits = buffer.format(count).as_bytes();
    let spaces: &[u8] = b"       ";
    out.extend_from_slice(&spaces[digits.len().min(7)..])?;
    out.extend_from_slice(digits)?;
    out.push(b' ')?;
    out.extend_from_slice(line)?;
    out.push(end)?;
    Ok(())
}

/// The same, or nothing.
fn print_entry(out: &mut Vec<u8>, count: u64, line: &[u8], end: u8) -> Result<(), AllocError>
    ensures printed { OnOk result (out.new.items ≡ out.old.items ++ entry end (line.now, count)) }
    ensures refused { OnErr result (out.new.items ≡ out.old.items) }
{
    let before = out.len();
    match push_entry(out, count, line, end) {
        Ok(()) => Ok(()),
        Err(why) => {
            out.truncate(before);
            Err(why)
        }
    }
}

/// Puts the line of a place to what is to be written.
fn show<O: Objects + Drop>(
    tally: &mut Tally<O>,
    place: usize,
    end: u8,
    midst: &mut Midst,
) -> Result<(), Refused>
    requires { place < length tally.old.lines }
    ensures same { tally.new ≡ tally.old }
    ensures shown { OnOk result (Shown tally.old.honest end tally.old place midst.old.out.items midst.new.out.items) }
    ensures refused { OnErr result (midst.new.out.items ≡ midst.old.out.items) }
    ensures why { IfErr result (λ why. (why ≡ Refused.Memory) ⊎ Refuses O.unmade O.unreached tally.old.honest why) }
{
    let count = match tally.read(place, &mut midst.part) {
        Ok(count) => count,
        Err(why) => return Err(why),
    };
    let line = line_of_key(midst.part.as_slice(), end);
    match print_entry(&mut midst.out, count, line, end) {
        Ok(()) => Ok(()),
        Err(_) => Err(Refused::Memory),
    }
}

/// Writes what is to be written, if that is much.
fn let_much_out<W: Write>(output: &mut W, out: &mut Vec<u8>) -> io::Result<()>
    ensures all { OnOk result ((written : List ℕ) × (out.old.items ≡ written ++ out.new.items) × Appends (W.contents output.old) (W.contents output.new) written) }
    ensures part { OnErr result ((k : ℕ) × Appends (W.contents output.old) (W.contents output.new) (take k out.old.items)) }
{
    if out.len() < WAIT {
        return Ok(());
    }
    let_out(output, out)
}

/// Prints each line that was counted, in the order in which each came first, after how often it came.
pub fn show_all<O: Objects + Drop, W: Write>(
    tally: &mut Tally<O>,
    end: u8,
    midst: &mut Midst,
    output: &mut W,
) -> Ending
    requires { midst.old.out.items ≡ [] }
    ensures { Shows (Refuses O.unmade O.unreached tally.old.honest) tally.old.honest end tally.old result (W.contents output.old) (W.contents output.new) }
{
    for place in 0..tally.len() {
        if let Err(why) = show(tally, place, end, midst) {
            return match let_out(output, &mut midst.out) {
                Ok(()) => Ending::Lost(place as u64, why),
                Err(e) => Ending::Output(e),
            };
        }
        if let Err(e) = let_much_out(output, &mut midst.out) {
            return Ending::Output(e);
        }
    }
    match let_out(output, &mut midst.out) {
        Ok(()) => Ending::Done,
        Err(e) => Ending::Output(e),
    }
}
