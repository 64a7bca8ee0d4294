//! The limits of replies.

ghost use Rattle.std.specs.Prelude.{◌≡◌};
ghost use Rattle.far_reply.specs.declared.reply.TheConstants.{LONGEST_REPLY};

use crate::output::Output;

/// The buffer has room for a reply of 16,384 bytes, and up to 65,536 bytes of replies wait.
pub fn reply_limits_are()
    ensures reply { LONGEST_REPLY ≡ 16384 }
    ensures room { Output.CAPACITY ≡ 65536 }
{}
