//! The tag of a key, and where the search for it begins.

ghost use Rattle.std.specs.Prelude.{◌≡◌, ◌<◌, ◌%◌};
ghost use Rattle.std.specs.Hash.DefaultHasher as sip;
ghost use Rattle.far_index.specs.Slots.{home, IsTag};
ghost use Rattle.far_index.specs.Tags.{tag_of};

use std::hash::{DefaultHasher, Hasher};

/// SipHash-1-3, begun with a seed: who doesn't know it can't choose keys whose tags are near each other.
pub fn seeded(seed: [u8; 16]) -> DefaultHasher
    ensures { result ≡ sip.write sip.initial seed }
{
    let mut hasher = DefaultHasher::new();
    hasher.write(&seed);
    hasher
}

/// The tag of a key, of 48 bits.
pub fn tag_of_key(seeded: &DefaultHasher, key: &[u8]) -> u64
    ensures is { result ≡ tag_of seeded.now key.now }
    ensures tag { IsTag result }
{
    let mut hasher = *seeded;
    hasher.write(key);
    (hasher.finish() % 281_474_976_710_656).max(65_536)
}

/// The home of a tag: homes are in the order of tags.
pub fn home_of(buckets: usize, tag: u64) -> usize
    requires some { 0 < buckets }
    requires tag { IsTag tag }
    ensures is { result ≡ home buckets tag }
    ensures within { result < buckets }
{
    (tag as u128 * buckets as u128 / 281_474_976_710_656) as usize
}
