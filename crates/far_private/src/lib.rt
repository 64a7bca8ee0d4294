//! A heap that one thread wholly owns: plain words, no lock, no name.
#![tactic(auto)]

mod access;
mod bringing;
mod budget;
mod cells;
mod changing;
mod counting;
mod free_pointers;
mod freeing;
mod glances;
mod heap;
mod last;
mod laws;
mod looking;
mod making;
mod nearby;
mod objects;
mod places;
mod ranges;
mod rooms;
mod staying;

pub use counting::Statistics;
pub use heap::PrivateHeap;
pub use laws::{
    no_room_is_full, objects_come_and_go, objects_stay_apart, ranges_are_so,
    reads_give_last_writes, steps_keep_objects,
};
