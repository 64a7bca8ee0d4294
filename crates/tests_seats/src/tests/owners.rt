//! The acts of an owner.

use crate::tests::acts::Act;
use far_core::Reply;
use far_device::Device;
use tests_owner::Owner;

/// Whether an act comes out as it should; `None` if it is none of an owner.
pub(super) fn owner_does<D: Device>(owner: &mut Owner<D>, act: Act) -> Option<bool> {
    match act {
        Act::ReadsEpoch(epoch) => Some(owner.read_epoch() == Some(epoch)),
        Act::Opens => Some(owner.open()),
        Act::Closes => Some(owner.close()),
        Act::Pins(pointer) => Some(matches!(owner.pin(pointer), Reply::Held(_))),
        Act::PinsAt(pointer, place) => Some(owner.pin(pointer) == Reply::Held(place)),
        Act::Finds(pointer, word) => Some(owner.pin(pointer) == Reply::Word(word)),
        Act::Stores(pointer, word) => Some(owner.store(pointer, 0, word)),
        Act::Loads(pointer, word) => Some(owner.load(pointer, 0) == Some(word)),
        Act::Asks(pointer, mark, word) => Some(owner.ask(pointer, mark) == Some(word)),
        _ => None,
    }
}
