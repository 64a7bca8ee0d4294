//! How an entry stands in an object.

ghost use Rattle.std.specs.Prelude.{◌≡◌, ◌≤◌, true, false, Some, None, IfOk, OnOk, MatchOption, length};
ghost use Rattle.far_objects.specs.Far.{is_length};
ghost use Rattle.far_map.specs.Causes.{is_entry};
ghost use Rattle.far_map.specs.Entries.{encoded, decoded, Entry};

use far_objects::MOST;
use std::alloc::{AllocError, Global};

/// The key and the value of an object's bytes.
pub fn split_entry(bytes: &[u8]) -> Option<(&[u8], &[u8])>
    ensures { MatchOption result (decoded bytes.now ≡ None) (λ e. decoded bytes.now ≡ Some (e.0.now, e.1.now)) }
{
    if bytes.len() < 2 {
        return None;
    }
    let low = bytes[0] as usize;
    let high = bytes[1] as usize;
    let rest = &bytes[2..];
    let len = (low + 256 * high).min(rest.len());
    Some((&rest[..len], &rest[len..]))
}

/// Whether an object has room for the entry.
pub fn fits(key: &[u8], value: &[u8]) -> bool
    ensures { result ≡ is_entry key.now value.now }
{
    key.len() <= MOST && value.len() <= MOST && 2 + key.len() + value.len() <= MOST
}

/// The bytes of an object for a key and a value.
pub fn join_entry(alloc: Global, key: &[u8], value: &[u8]) -> Result<Vec<u8>, AllocError>
    requires { is_entry key.now value.now ≡ true }
    ensures made { IfOk result (λ v. v.items ≡ encoded key.now value.now) }
    ensures fits { IfOk result (λ v. is_length (length v.items) ≡ true) }
{
    let head = [(key.len() % 256) as u8, (key.len() / 256) as u8];
    let mut bytes = Vec::with_capacity(alloc, 2 + key.len() + value.len())?;
    bytes.extend_from_slice(&head)?;
    bytes.extend_from_slice(key)?;
    bytes.extend_from_slice(value)?;
    Ok(bytes)
}

/// The value of an entry's bytes.
pub fn value_of(bytes: &[u8]) -> &[u8]
    ensures { (e : Entry) → decoded bytes.now ≡ Some e → result.now ≡ e.1 }
{
    let Some((_, value)) = split_entry(bytes) else {
        return bytes;
    };
    value
}

/// Writes the value of an entry's bytes to `out`.
pub fn value_to(bytes: &[u8], out: &mut Vec<u8>) -> Result<(), AllocError>
    ensures { OnOk result ((e : Entry) → decoded bytes.now ≡ Some e → out.new.items ≡ e.1) }
{
    out.clear();
    if let Some((_, value)) = split_entry(bytes) {
        out.extend_from_slice(value)?;
    }
    Ok(())
}
