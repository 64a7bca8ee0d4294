//! What was read at once.

ghost use Rattle.std.specs.Prelude.{◌≡◌, IfErr, OnOk};
ghost use Rattle.far_firsts.specs.Lines.{IsPlain};
ghost use Rattle.far_firsts.specs.Causes.{Refuses};
ghost use Rattle.far_firsts.specs.Doing.{Did, Stopped, known_of, state};

use crate::end::Why;
use crate::line::{keep, take_end};
use crate::midst::Midst;
use far_objects::Objects;
use far_seen::Seen;
use memchr::memchr;

/// Takes the lines that end in these bytes, and keeps what comes after the last end.
pub fn take_bytes<O: Objects + Drop>(
    seen: &mut Seen<O>,
    end: u8,
    longest: usize,
    bytes: &[u8],
    midst: &mut Midst,
) -> Result<(), Why>
    requires { IsPlain end midst.old.part.items }
    ensures honest { seen.new.honest ≡ seen.old.honest }
    ensures plain { OnOk result (IsPlain end midst.new.part.items) }
    ensures did { OnOk result (Did seen.old.honest end bytes.now (state (known_of end seen.old) midst.old.part.items midst.old.count) (state (known_of end seen.new) midst.new.part.items midst.new.count) midst.old.out.items midst.new.out.items) }
    ensures stopped { IfErr result (λ why. Stopped longest (Refuses O.unmade O.unreached seen.old.honest) seen.old.honest end bytes.now (state (known_of end seen.old) midst.old.part.items midst.old.count) midst.new.count why midst.old.out.items midst.new.out.items) }
{
    let mut rest = bytes;
    while let Some(i) = memchr(end, rest) {
        match take_end(seen, end, longest, &rest[..i], midst) {
            Ok(()) => {}
            Err(why) => return Err(why),
        }
        rest = &rest[i + 1..];
    }
    match keep(&mut midst.part, longest, rest) {
        Ok(()) => Ok(()),
        Err(why) => Err(Why::Refused(why)),
    }
}
