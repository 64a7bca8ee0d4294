// The book's seat.
ghost use Rattle.std.specs.Arc.{arc_value};
ghost use Rattle.far_table.specs.Stands.{BookOk, Stands, book_of};

use crate::rule::FarTable;
use crate::view::View;
use atomic_table::Seat;
use far_device::Device;
use std::alloc::Global;
use std::sync::Arc;

/// The book's seat on the shared words. There is one for each table.
#[derive(Drop)]
pub struct BookSeat<D: Device> {
    pub(crate) table: Arc<FarTable<D>, Global>,
    pub(crate) seat: Seat<u64, View>,
    // What the heap's shape is, and its epoch now.
    pub(crate) logs: u8,
    pub(crate) mutators: u8,
    pub(crate) epoch: u64,
    ghost fits: { BookOk seat.table_id (arc_value table).shared.table_id seat.me.0 logs mutators epoch },
    ghost stands: { ∥ Stands (book_of seat.me.0) ∥₁ },
}
