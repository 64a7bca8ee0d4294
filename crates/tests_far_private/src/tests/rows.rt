//! Rows of bytes: each is by a step greater than the one before.

/// Puts a row in place of bytes.
pub(super) fn fill(bytes: &mut [u8], first: u8, step: u8) {
    let mut next = first;
    for byte in bytes {
        *byte = next;
        next = next.wrapping_add(step);
    }
}

/// Whether bytes are a row.
pub(super) fn is_row(bytes: &[u8], first: u8, step: u8) -> bool {
    let mut next = first;
    for byte in bytes {
        if *byte != next {
            return false;
        }
        next = next.wrapping_add(step);
    }
    true
}

/// Adds a number to each byte.
pub(super) fn add(bytes: &mut [u8], more: u8) {
    for byte in bytes {
        *byte = byte.wrapping_add(more);
    }
}
