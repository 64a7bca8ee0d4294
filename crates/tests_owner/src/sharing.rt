//! The seats of a core that is shared.

ghost use Rattle.std.specs.Prelude.{◌≡◌, ℕ, true, false, None, IfOk, IfSome, map};
ghost use Rattle.std.specs.List.{range_with_len};
ghost use Rattle.far_word.specs.Job.{job_of};
ghost use Rattle.far_word.specs.declared.sizes.TheConstants.{CELLS};
ghost use Rattle.far_core.specs.state.CoreState.{core_state};
ghost use Rattle.far_table.specs.BookSeats.{book_in};
ghost use Rattle.far_table.specs.Stands.{Starts};
ghost use Rattle.tests_owner.specs.Used.{is_taken, used_len};
ghost use Rattle.tests_owner.specs.Works.{AllIdle};

use crate::copier::Copier;
use crate::owner::{Owner, len_in};
use far_core::Core;
use far_device::MemDevice;
use far_table::{BookSeat, CopySeat, share};
use far_word::{CELLS, JOBS, JobWord, Refused};
use std::alloc::{AllocError, Global};
use std::snapshot::Snapshot;

/// The book's seat, that of the one owner, and those of the copiers, the last first.
#[derive(Drop)]
pub struct Seats {
    pub book: BookSeat<MemDevice>,
    pub owner: Owner<MemDevice>,
    pub copiers: Vec<Copier<MemDevice>>,
}

// How long a pointer's object is, if it is used.
fn used_len(core: &Core, pointer: u16) -> Option<u16>
    ensures { result ≡ used_len (core_state core.now) pointer }
{
    if core.is_used(pointer) {
        Some(len_in(core.cell(pointer)))
    } else {
        None
    }
}

// How long the objects of the first owner are that it uses, by its pointers.
fn lens_of(alloc: Global, core: &Core) -> Result<Vec<Option<u16>>, AllocError>
    ensures { IfOk result (λ lens. lens.items ≡ map (used_len (core_state core.now)) (range_with_len 0 CELLS)) }
{
    let mut lens = Vec::with_capacity(alloc, CELLS as usize)?;
    for pointer in 0..CELLS {
        lens.push_reserved(used_len(core, pointer));
    }
    Ok(lens)
}

// Whether a copier has a job, by the job's word.
fn is_taken(word: u64) -> bool
    ensures { result ≡ is_taken (job_of word) }
{
    matches!(JobWord::read(word), Some(JobWord::Taken { .. }))
}

// Whether no copier of a core has a job.
fn are_idle(core: &Core) -> bool
    ensures { result ≡ true → (c : ℕ) → (core_state core.now).copying.task c ≡ None }
{
    core.keeps_law();
    for job in 0..JOBS {
        if is_taken(core.see_job(job)) {
            return false;
        }
    }
    core.keeps_law();
    true
}

// The copier of the last of the seats that are left.
fn last_of(seats: &mut Vec<CopySeat<MemDevice>>) -> Option<Copier<MemDevice>>
    requires { AllIdle seats.old.items }
    ensures { AllIdle seats.new.items }
{
    let Some(seat) = seats.pop() else {
        return None;
    };
    Some(Copier::new(seat))
}

// The copiers of these seats.
fn copiers_of(
    alloc: Global,
    mut seats: Vec<CopySeat<MemDevice>>,
) -> Result<Vec<Copier<MemDevice>>, AllocError>
    requires { AllIdle seats.items }
{
    let mut copiers = Vec::new(alloc);
    for _ in 0..seats.len() {
        if let Some(copier) = last_of(&mut seats) {
            copiers.push(copier)?;
        }
    }
    Ok(copiers)
}

// Whether a core has one owner, whose scope is closed and who remembers no epoch, and no copier has a job.
fn is_at_rest(core: &Core) -> bool
    ensures honest { result ≡ true → (core_state core.now).honest ≡ true }
    ensures one { result ≡ true → (core_state core.now).mutators ≡ 1 }
    ensures closed { result ≡ true → (core_state core.now).scope 0 ≡ 0 }
    ensures forgot { result ≡ true → (core_state core.now).remembered 0 ≡ None }
    ensures idle { result ≡ true → (c : ℕ) → (core_state core.now).copying.task c ≡ None }
    ensures copiers { result ≡ true → (core_state core.now).copying.has_copiers ≡ true }
{
    core.is_honest()
        && core.mutators() == 1
        && core.scope(0) == 0
        && core.remembered(0).is_none()
        && are_idle(core)
        && core.has_copiers()
}

/// Shares a core of an honest far side with one owner, whose scope is closed and who remembers no epoch, and of which no copier has a
/// job. `None` for any other core. Refused [`Refused::Memory`] alone.
pub fn seated(alloc: Global, core: Core) -> Result<Option<Seats>, Refused>
    ensures { IfOk result (λ found. IfSome found (λ seats. Starts (core_state core) true (book_in seats.book))) }
{
    if !is_at_rest(&core) {
        return Ok(None);
    }
    core.keeps_law();
    let Ok(lens) = lens_of(alloc, &core) else {
        return Err(Refused::Memory);
    };
    let Ok(held) = vec![in alloc; false; CELLS as usize] else {
        return Err(Refused::Memory);
    };
    let device = MemDevice::new(alloc);
    let (book, mut seats, idle) = share(alloc, core, Snapshot::of(&device))?;
    let Ok(copiers) = copiers_of(alloc, idle) else {
        return Err(Refused::Memory);
    };
    let Some(seat) = seats.pop() else {
        return Ok(None);
    };
    let owner = Owner::knowing(seat, lens, held);
    Ok(Some(Seats {
        book,
        owner,
        copiers,
    }))
}
