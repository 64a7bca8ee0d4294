//! One line.

ghost use Rattle.std.specs.Prelude.{◌≡◌, ◌+◌, ◌<◌, ◌++◌, ◌∷◌, ◌⊎◌, [], IfErr, OnOk, OnErr, length};
ghost use Rattle.far_firsts.specs.Lines.{key_in};
ghost use Rattle.far_firsts.specs.Causes.{IsWhyNext, Refuses};
ghost use Rattle.far_firsts.specs.Doing.{Added, known_of};

use crate::end::Why;
use crate::midst::Midst;
use far_objects::Objects;
use far_seen::Seen;
use far_word::Refused;
use std::alloc::AllocError;

/// What stands for a line in the set.
pub fn key<'a>(line: &'a [u8], none: &'a [u8]) -> &'a [u8]
    ensures { result.now ≡ key_in none.now line.now }
{
    if line.is_empty() { none } else { line }
}

/// Puts a line and its end to what is to be written.
fn print(out: &mut Vec<u8>, line: &[u8], end: u8) -> Result<(), AllocError>
    ensures printed { OnOk result (out.new.items ≡ out.old.items ++ (line.now ++ end ∷ [])) }
    ensures refused { OnErr result (out.new.items ≡ out.old.items) }
{
    let before = out.len();
    match out.extend_from_slice(line) {
        Ok(()) => {}
        Err(why) => return Err(why),
    }
    match out.push(end) {
        Ok(()) => Ok(()),
        Err(_) => {
            out.truncate(before);
            Err(AllocError)
        }
    }
}

/// Puts a line to what is to be written, if it is the first of its kind.
fn take_line<O: Objects + Drop>(
    seen: &mut Seen<O>,
    end: u8,
    line: &[u8],
    out: &mut Vec<u8>,
) -> Result<(), Refused>
    ensures honest { seen.new.honest ≡ seen.old.honest }
    ensures added { OnOk result (Added seen.old.honest end (known_of end seen.old) (known_of end seen.new) line.now out.old.items out.new.items) }
    ensures refused { OnErr result (out.new.items ≡ out.old.items) }
    ensures why { IfErr result (λ why. (why ≡ Refused.Memory) ⊎ Refuses O.unmade O.unreached seen.old.honest why) }
{
    let ends = [end];
    match seen.first(key(line, &ends)) {
        Ok(true) => match print(out, line, end) {
            Ok(()) => Ok(()),
            Err(_) => Err(Refused::Memory),
        },
        Ok(false) => Ok(()),
        Err(why) => Err(why),
    }
}

/// Keeps bytes of a line whose end hasn't come, which has at most `longest`.
pub fn keep(part: &mut Vec<u8>, longest: usize, piece: &[u8]) -> Result<(), Refused>
    ensures kept { OnOk result (part.new.items ≡ part.old.items ++ piece.now) }
    ensures why { IfErr result (λ why. (why ≡ Refused.Memory) ⊎ ((why ≡ Refused.Length) × (longest < length part.old.items + length piece.now))) }
{
    if piece.len() > longest || part.len() > longest - piece.len() {
        return Err(Refused::Length);
    }
    match part.extend_from_slice(piece) {
        Ok(()) => Ok(()),
        Err(_) => Err(Refused::Memory),
    }
}

/// Takes the line that these bytes end.
pub fn take_end<O: Objects + Drop>(
    seen: &mut Seen<O>,
    end: u8,
    longest: usize,
    piece: &[u8],
    midst: &mut Midst,
) -> Result<(), Why>
    ensures honest { seen.new.honest ≡ seen.old.honest }
    ensures added { OnOk result (Added seen.old.honest end (known_of end seen.old) (known_of end seen.new) (midst.old.part.items ++ piece.now) midst.old.out.items midst.new.out.items) }
    ensures part { OnOk result (midst.new.part.items ≡ []) }
    ensures count { OnOk result (midst.new.count ≡ midst.old.count + 1) }
    ensures out { OnErr result (midst.new.out.items ≡ midst.old.out.items) }
    ensures counted { OnErr result (midst.new.count ≡ midst.old.count) }
    ensures why { IfErr result (IsWhyNext longest (Refuses O.unmade O.unreached seen.old.honest) midst.old.count (length (midst.old.part.items ++ piece.now))) }
{
    if midst.count == u64::MAX {
        return Err(Why::TooMany);
    }
    if let Err(why) = keep(&mut midst.part, longest, piece) {
        return Err(Why::Refused(why));
    }
    match take_line(seen, end, midst.part.as_slice(), &mut midst.out) {
        Ok(()) => {
            midst.part.clear();
            midst.count += 1;
            Ok(())
        }
        Err(why) => Err(Why::Refused(why)),
    }
}
