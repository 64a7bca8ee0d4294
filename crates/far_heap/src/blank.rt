// A heap before it is begun.
ghost use Rattle.std.specs.Prelude.{◌≡◌, ◌↔◌, [], false, cond, Err, IfOk, IfErr};
ghost use Rattle.far_events.specs.state.Shape.{is_shape};
ghost use Rattle.far_hand.specs.ShapeOf.{shape_of};
ghost use Rattle.far_table.specs.BookSeats.{seat_view};
ghost use Rattle.far_heap.specs.Blanks.{IsUnused};
ghost use Rattle.far_word.specs.declared.refused.Refused.{Refused as any_refusal};

use far_book::Book;
use far_core::{Core, Shape};
use far_device::Device;
use far_table::{BookSeat, CopySeat, MutSeat, share};
use far_word::Refused;
use std::alloc::Global;
use std::marker::Model;
use std::snapshot::Snapshot;

/// The parts of a heap that nobody has begun to use: the book, and the seats of the owners and of eight copiers, on the shared words of a new core.
#[derive(Drop)]
pub struct Blank<D: Device + Drop> {
    pub(crate) book: Book<BookSeat<D>, D>,
    pub(crate) seats: Vec<MutSeat<D>>,
    pub(crate) copiers: Vec<CopySeat<D>>,
}

impl<D: Device + Drop> Model for Blank<D> {
    ghost use Rattle.far_table.specs.BookSeats.{seat_view};
    ghost use Rattle.far_book.specs.book.Own.{HasNoJob};
    ghost use Rattle.far_heap.specs.Blanks.{BlankOf, NewSeats};
    ghost use Rattle.far_heap.specs.Copiers.{NewCopiers};
    ghost use Rattle.far_heap.specs.HeapId.{heap_of};
    ghost use Rattle.std.specs.Prelude.{false};

    ghost Value = { BlankOf D };

    ghost view = { λ b. record { heap = heap_of false b.book.near; book = b.book } };

    ghost invariant = { λ b. NewSeats (heap_of false b.book.near) b.seats.items × NewCopiers (heap_of false b.book.near) b.copiers.items × HasNoJob (seat_view b.book.near) };
}

impl<D: Device + Drop> Blank<D> {
    /// Makes the parts of a heap of 2 to 64 logs and 1 to 8 mutators, at the epoch of the shape, below 2^62, over a device, whatever that holds: all cells are free, and
    /// so are all logs but the first, which is open and empty. All room of the shared words, of the seats and of the book is taken here.
    ///
    /// Refused, in this order: [`Refused::Shape`] exactly where the shape is out of range, [`Refused::Memory`]. The device is dropped then.
    pub fn new(alloc: Global, shape: Shape, device: D) -> Result<Blank<D>, Refused>
        ensures size { IfOk result (λ blank. (blank.heap.logs ≡ shape.logs) × (blank.heap.mutators ≡ shape.mutators)) }
        ensures alone { IfOk result (λ blank. blank.heap.copying ≡ false) }
        ensures honest { IfOk result (λ blank. blank.heap.honest ≡ D.honest device) }
        ensures core { IfOk result (λ blank. shape_of (seat_view blank.book.near) ≡ shape) }
        ensures unused { IfOk result (λ blank. IsUnused (seat_view blank.book.near)) }
        ensures order { IfOk result (λ blank. blank.book.order ≡ []) }
        ensures device { IfOk result (λ blank. blank.book.device ≡ device) }
        ensures shape { (result ≡ Err Refused.Shape) ↔ (is_shape shape ≡ false) }
        ensures refused { IfErr result (λ why. why ≡ cond (is_shape shape) Refused.Memory Refused.Shape) }
    {
        let core = match Core::without_stored(alloc, shape, false) {
            Ok(core) => core,
            Err(why) => return Err(why),
        };
        let Ok((seat, seats, copiers)) = share(alloc, core, Snapshot::of(&device)) else {
            return Err(Refused::Memory);
        };
        let Ok(book) = Book::new(alloc, seat, device) else {
            return Err(Refused::Memory);
        };
        Ok(Blank {
            book,
            seats,
            copiers,
        })
    }
}
