//! A heap whose words are shared from the start.

ghost use Rattle.std.specs.Prelude.{IfOk};
ghost use Rattle.far_book.specs.book.Own.{HasNoJob};
ghost use Rattle.far_table.specs.BookSeats.{seat_view};
ghost use Rattle.tests_owner.specs.Fits.{Fresh};

use crate::owner::Owner;
use far_book::Book;
use far_core::{Core, Shape};
use far_device::MemDevice;
use far_table::{BookSeat, MutSeat, share};
use far_word::Refused;
use std::alloc::{AllocError, Global};
use std::snapshot::Snapshot;

/// The book of a new heap over its seat, and its owners, the last first.
pub type Shared = (Book<BookSeat<MemDevice>, MemDevice>, Vec<Owner<MemDevice>>);

// The owner of the last of the seats that are left.
fn last_of(
    alloc: Global,
    seats: &mut Vec<MutSeat<MemDevice>>,
) -> Result<Option<Owner<MemDevice>>, AllocError>
    requires { Fresh seats.old.items }
    ensures { Fresh seats.new.items }
{
    let Some(seat) = seats.pop() else {
        return Ok(None);
    };
    let number = seats.len() as u8;
    let owner = Owner::new(alloc, seat, number)?;
    Ok(Some(owner))
}

// The owners of these seats.
fn owners_of(
    alloc: Global,
    mut seats: Vec<MutSeat<MemDevice>>,
) -> Result<Vec<Owner<MemDevice>>, AllocError>
    requires { Fresh seats.items }
{
    let mut owners = Vec::new(alloc);
    for _ in 0..seats.len() {
        if let Some(owner) = last_of(alloc, &mut seats)? {
            owners.push(owner)?;
        }
    }
    Ok(owners)
}

/// Makes a new heap on shared words, with no job. Refused [`Refused::Shape`], and [`Refused::Memory`].
pub fn shared(alloc: Global, shape: Shape) -> Result<Shared, Refused>
    ensures alone { IfOk result (λ made. HasNoJob (seat_view made.0.near)) }
{
    let device = MemDevice::new(alloc);
    let core = Core::without_stored(alloc, shape, true)?;
    let (seat, seats, _copiers) = share(alloc, core, Snapshot::of(&device))?;
    let Ok(owners) = owners_of(alloc, seats) else {
        return Err(Refused::Memory);
    };
    let book = Book::new(alloc, seat, device)?;
    Ok((book, owners))
}
