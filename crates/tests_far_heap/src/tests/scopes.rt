//! What a mutator does in its scope, each with the answer that is wanted.

use far_device::Device;
use far_heap::{HeapName, Scope, Tried, View};
use std::sync::Wait;

/// A view of an object, if one step gives it.
pub(super) fn viewed<K: HeapName, D: Device + Drop>(
    scope: &mut Scope<K, D>,
    pointer: u16,
) -> Option<View> {
    match scope.try_view(pointer) {
        Ok(Tried::View(view)) => Some(view),
        _ => None,
    }
}

/// Whether one step doesn't give a view of an object.
pub(super) fn is_slow<K: HeapName, D: Device + Drop>(
    scope: &mut Scope<K, D>,
    pointer: u16,
) -> bool {
    matches!(scope.try_view(pointer), Ok(Tried::Slow(_)))
}

/// Whether an object's first bytes are these, by a view.
pub(super) fn has<K: HeapName, D: Device + Drop>(
    scope: &mut Scope<K, D>,
    view: &View,
    want: [u8; 8],
) -> bool {
    let mut found = [0; 8];
    scope.read(view, 0, &mut found).is_ok() && found == want
}

/// Whether an object is viewed in one step, and its first bytes are these.
pub(super) fn reads<K: HeapName, D: Device + Drop>(
    scope: &mut Scope<K, D>,
    pointer: u16,
    want: [u8; 8],
) -> bool {
    match viewed(scope, pointer) {
        Some(view) => has(scope, &view, want),
        None => false,
    }
}

/// Whether an object is viewed, whatever that takes, and its first bytes are these.
pub(super) fn reads_slowly<K: HeapName, D: Device + Drop, R: Wait>(
    rt: &R,
    scope: &mut Scope<K, D>,
    pointer: u16,
    want: [u8; 8],
) -> bool {
    match scope.view(rt, pointer) {
        Ok(view) => has(scope, &view, want),
        Err(_) => false,
    }
}

/// Whether an object is viewed in one step, and its first bytes are these from then on.
pub(super) fn writes<K: HeapName, D: Device + Drop>(
    scope: &mut Scope<K, D>,
    pointer: u16,
    bytes: [u8; 8],
) -> bool {
    match viewed(scope, pointer) {
        Some(view) => scope.write(&view, 0, &bytes).is_ok(),
        None => false,
    }
}

/// Whether each of so many objects, of the pointers from 0 on, is viewed in one step, and has its pointer in its bytes from then on.
pub(super) fn numbers<K: HeapName, D: Device + Drop>(
    scope: &mut Scope<K, D>,
    objects: u16,
) -> bool {
    for pointer in 0..objects {
        if !writes(scope, pointer, (pointer as u64).to_le_bytes()) {
            return false;
        }
    }
    true
}

/// Whether each of so many is viewed, whatever that takes, and has its pointer in its bytes.
pub(super) fn has_numbers<K: HeapName, D: Device + Drop, R: Wait>(
    rt: &R,
    scope: &mut Scope<K, D>,
    objects: u16,
) -> bool {
    for pointer in 0..objects {
        if !reads_slowly(rt, scope, pointer, (pointer as u64).to_le_bytes()) {
            return false;
        }
    }
    true
}
