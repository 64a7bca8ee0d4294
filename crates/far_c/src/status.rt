//! What calls answer.

ghost use Rattle.std.specs.Prelude.{◌≡◌, ◌≢◌, pos};
ghost use Rattle.far_word.specs.Refused.{refusal_number};
ghost use Rattle.far_word.specs.declared.refused.Refused.TheVariants.{NoRoom};

use far_word::Refused;

/// The call was done.
pub const FAR_OK: i32 = 0;

/// Memory is refused.
pub const FAR_MEMORY: i32 = 1;

/// Nothing near can leave: memory is refused, or the far side is full.
pub const FAR_NO_ROOM: i32 = 2;

/// Each heap has its 2,048 objects, or there are as many heaps as may be.
pub const FAR_NO_POINTER: i32 = 3;

/// A length is none that an object has: 1 to 4,088.
pub const FAR_LENGTH: i32 = 4;

/// The worker has no such object.
pub const FAR_NOT_HELD: i32 = 7;

/// The worker isn't open.
pub const FAR_CLOSED: i32 = 20;

/// The worker is open.
pub const FAR_OPEN: i32 = 21;

/// A worker has at most 2^32 objects.
pub const FAR_OBJECTS: i32 = 22;

/// There is no room near for so many objects.
pub const FAR_NEAR: i32 = 23;

/// The map has no such key.
pub const FAR_NO_KEY: i32 = 24;

/// There is no room for so many bytes where they were to go.
pub const FAR_SHORT: i32 = 25;

/// No entry is left to be told.
pub const FAR_END: i32 = 26;

// The status of a refusal.
#[tactic(auto, using(crate::proofs::Statuses::is_refused, crate::proofs::Statuses::is_below, crate::proofs::Statuses::is_no_room))]
pub(crate) fn status_of(why: Refused) -> i32
    ensures number { result ≡ pos (refusal_number why) }
    ensures refused { result ≢ FAR_OK }
    ensures there { result ≢ FAR_NO_KEY }
    ensures roomy { result ≢ FAR_SHORT }
    ensures more { result ≢ FAR_END }
    ensures no_room { result ≡ FAR_NO_ROOM → why ≡ NoRoom }
{
    why.number() as i32
}
