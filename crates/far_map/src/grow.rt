//! More homes: the index is made anew from its own tags, with no far read.

ghost use Rattle.std.specs.Prelude.{◌≡◌, ◌<◌, true, IfOk, OnErr};
ghost use Rattle.far_objects.specs.Far.{Far};
ghost use Rattle.far_map.specs.Plain.{Sound, plain, table_of};

use crate::near::Near;
use far_index::grown;
use std::alloc::{AllocError, Global};

/// How many homes an index gets that is full of entries and of slots that were left.
fn homes(buckets: usize, count: usize) -> usize
    requires { 0 < buckets }
    ensures { 0 < result }
{
    if count < buckets / 2 {
        buckets
    } else {
        buckets.saturating_add(buckets / 2)
    }
}

/// Makes the index anew, with so many homes.
pub fn rebuild(alloc: Global, near: &mut Near, buckets: usize) -> Result<(), AllocError>
    requires { 0 < buckets }
    ensures sound { (f : Far) → Sound (plain f near.old) → Sound (plain f near.new) }
    ensures same { (f : Far) → Sound (plain f near.old) → f.honest ≡ true → table_of (plain f near.new) ≡ table_of (plain f near.old) }
    ensures seed { near.new.seed ≡ near.old.seed }
    ensures refused { OnErr result (near.new ≡ near.old) }
{
    let slots = grown(alloc, &near.slots, buckets)?;
    near.slots = slots;
    near.buckets = buckets;
    near.used = near.count;
    Ok(())
}

/// Makes the index anew where seven eighths of its homes are taken: half as large again, if by entries. If there is no
/// memory for it, the old one goes on.
pub fn make_roomy(alloc: Global, near: &mut Near)
    ensures sound { (f : Far) → Sound (plain f near.old) → Sound (plain f near.new) }
    ensures same { (f : Far) → Sound (plain f near.old) → f.honest ≡ true → table_of (plain f near.new) ≡ table_of (plain f near.old) }
    ensures seed { near.new.seed ≡ near.old.seed }
{
    let buckets = near.buckets;
    if buckets == 0 || near.used < buckets - buckets / 8 {
        return;
    }
    let more = homes(buckets, near.count);
    let _ = rebuild(alloc, near, more);
}
