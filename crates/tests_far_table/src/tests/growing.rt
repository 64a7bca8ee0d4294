//! Memory that is refused. `rt try --test --fail-alloc 1..` refuses each growth in turn.

use crate::tests::owner::Owner;
use crate::tests::{made, shared};
use far_core::Shape;
use far_word::Refused;
use std::alloc::Global;

const TWO: Shape = Shape {
    logs: 2,
    mutators: 2,
    epoch: 0,
};

fn owners_of(alloc: Global) -> Result<Vec<Owner>, Refused> {
    let core = made(alloc, TWO, &[])?;
    shared(alloc, core)
}

// Whether there are all owners, or memory was refused.
fn ends_lawfully(alloc: Global) -> bool {
    match owners_of(alloc) {
        Ok(owners) => owners.len() == 2,
        Err(why) => why == Refused::Memory,
    }
}

// Both endings are lawful.
#[test]
fn owners_are_made_or_memory_is_refused(rt: HostRuntime) {
    assert!(rt; ends_lawfully(rt.alloc()));
}
