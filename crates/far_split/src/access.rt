//! What is asked for, looked at before the heap is asked.

ghost use Rattle.std.specs.Prelude.{◌≡◌, ◌<◌, IfErr, IfOk, IfNone, IfSome};
ghost use Rattle.far_split.specs.Slots.{AreNoSizes, AreSizes, IsReached, IsUnreached};
ghost use Rattle.far_word.specs.declared.refused.Refused.{Refused as any_refusal};

use far_heap::{HeapName, Scope};
use far_replay::FarSide;
use far_word::{LONGEST, Refused};

/// Some bytes of an object that its mutator uses: its pointer, and the range.
#[derive(Clone, Copy)]
pub(crate) struct Access {
    pub pointer: u16,
    pub from: u16,
    pub count: u16,
}

/// The pointer that a number is, if any mutator may have it.
pub(crate) fn pointer_of(number: u64) -> Option<u16>
    ensures some { IfSome result (λ p. p ≡ number) }
    ensures none { IfNone result (65535 < number) }
{
    if number > u64::from(u16::MAX) {
        return None;
    }
    Some(number as u16)
}

/// The range of an object's bytes that a line names, if the mutator uses the pointer and the object has them.
#[tactic(auto, using(crate::proofs::Owns::unused_beyond))]
pub(crate) fn reach<K: HeapName>(
    scope: &Scope<K, FarSide>,
    pointer: u64,
    from: u64,
    count: u64,
) -> Result<Access, Refused>
    ensures reached { IfOk result (λ access. IsReached scope.now pointer from count access) }
    ensures unreached { IfErr result (λ why. IsUnreached scope.now pointer from count why) }
{
    scope.keeps_law();
    let Some(p) = pointer_of(pointer) else {
        return Err(Refused::NotHeld);
    };
    let Some(len) = scope.len_of(p) else {
        return Err(Refused::NotHeld);
    };
    let len = u64::from(len);
    if count == 0 || from > len || count > len - from {
        return Err(Refused::Range);
    }
    Ok(Access {
        pointer: p,
        from: from as u16,
        count: count as u16,
    })
}

/// The length and the data structure of a new object, if an object may have them.
pub(crate) fn sizes_of(len: u64, structure: u64) -> Result<(u16, u8), Refused>
    ensures sizes { IfOk result (λ sizes. AreSizes len structure sizes) }
    ensures refused { IfErr result (λ why. AreNoSizes len structure why) }
{
    if structure >= 256 {
        return Err(Refused::Range);
    }
    if len == 0 || len > u64::from(LONGEST) {
        return Err(Refused::Length);
    }
    Ok((len as u16, structure as u8))
}
