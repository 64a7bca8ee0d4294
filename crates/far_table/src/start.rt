// The table of a core, with its seats.
ghost use Rattle.std.specs.Prelude.{◌≡◌, ◌≢◌, ◌+◌, ◌-◌, ◌*◌, ◌<◌, ℕ, Bool, true, map, IfOk, IfErr, OnOk};
ghost use Rattle.std.specs.Arc.{arc_value};
ghost use Rattle.std.specs.List.{range_with_len};
ghost use Rattle.far_core.specs.state.CoreState.{core_state};
ghost use Rattle.far_events.specs.state.State.{State};
ghost use Rattle.far_table.specs.BookSeats.{table_of, book_in};
ghost use Rattle.far_table.specs.First.{first_copier, first_owner, unseated, waiting};
ghost use Rattle.far_table.specs.Layout.{table_words};
ghost use Rattle.far_table.specs.Stands.{CopierSeats, IsDealer, Seats, Stands, Starts, book_of};
ghost use Rattle.far_table.specs.Tells.{CopierStands, HasState};
ghost use Rattle.far_table.specs.Tabled.{table_word};
ghost use Rattle.far_table.specs.View.{Book};
ghost use Rattle.far_word.specs.declared.refused.Refused.{Refused as any_refusal};
ghost use Rattle.far_word.specs.declared.sizes.TheConstants.{LOG_WORDS, MOST_COPIERS, MOST_LOGS};

use crate::book::BookSeat;
use crate::copy_seat::CopySeat;
use crate::layout::{CELLS, EPOCH, JOBS_AT, LINE, LOGS, SCOPES};
use crate::rule::{Deal, FarTable, Plan};
use crate::seat::MutSeat;
use crate::view::View;
use atomic_table::{Seat, Table};
use far_core::Core;
use far_device::Device;
use far_word::{LOG_WORDS, MOST_COPIERS, Refused};
use std::alloc::{AllocError, Global};
use std::snapshot::Snapshot;
use std::sync::Arc;

// Word `a` of the logs, counted from word 0 of log 0; 0 past the last log.
fn log_word(core: &Core, a: usize) -> u64
    requires { a < MOST_LOGS * LOG_WORDS }
    ensures { result ≡ (core_state core.now).word a }
{
    core.nothing_is_past();
    let log = (a / LOG_WORDS as usize) as u8;
    if log < core.logs() {
        core.word(log, (a % LOG_WORDS as usize) as u16)
    } else {
        0
    }
}

// Word `i` of a core's table.
fn word_of(core: &Core, i: usize) -> u64
    requires { i < table_words MOST_LOGS }
    ensures { result ≡ table_word (core_state core.now) i }
{
    if i < SCOPES {
        if i == EPOCH { core.epoch() } else { 0 }
    } else if i < CELLS {
        let past = i - SCOPES;
        if past % LINE == 0 {
            core.scope((past / LINE) as u8)
        } else {
            0
        }
    } else if i < JOBS_AT {
        core.cell((i - CELLS) as u16)
    } else if i < LOGS {
        core.see_job((i - JOBS_AT) as u8)
    } else {
        log_word(core, i - LOGS)
    }
}

// The words of a core's table.
fn words_of(alloc: Global, core: &Core) -> Result<Vec<u64>, AllocError>
    ensures { IfOk result (λ words. words.items ≡ map (table_word (core_state core.now)) (range_with_len 0 (table_words (core_state core.now).logs))) }
{
    core.keeps_law();
    let logs = core.logs();
    let count = LOGS + logs as usize * LOG_WORDS as usize;
    let mut words = Vec::with_capacity(alloc, count)?;
    for i in 0..count {
        words.push_reserved(word_of(core, i));
    }
    Ok(words)
}

// The seat of the first owner that has none.
fn deal_one<D: Device>(
    alloc: Global,
    table: &Arc<FarTable<D>, Global>,
    seat: &mut Seat<u64, View>,
    plan: &Plan<D>,
    number: u8,
) -> Result<MutSeat<D>, AllocError>
    requires dealer { IsDealer seat.old (arc_value table.now).shared.table_id (core_state plan.now.core).logs }
    requires next { seat.old.me.0 ≡ Book (waiting (core_state plan.now.core) (D.honest plan.now.device.value) number ((core_state plan.now.core).mutators - number)) }
    requires some { number < (core_state plan.now.core).mutators }
    requires there { HasState (first_owner (core_state plan.now.core) (D.honest plan.now.device.value) number) }
    ensures dealer { OnOk result (IsDealer seat.new (arc_value table.now).shared.table_id (core_state plan.now.core).logs) }
    ensures left { OnOk result (seat.new.me.0 ≡ Book (waiting (core_state plan.now.core) (D.honest plan.now.device.value) (number + 1) ((core_state plan.now.core).mutators - (number + 1)))) }
    ensures dealt { IfOk result (λ s. s ≡ record { table = (arc_value table.now).shared.table_id; view = first_owner (core_state plan.now.core) (D.honest plan.now.device.value) number }) }
{
    let table = Arc::try_clone(table)?;
    let dealt = table.shared.split_seat::<Deal>(seat);
    MutSeat::new(alloc, table, dealt, &plan.core, number)
}

// The seats of all owners, in their order.
fn deal_all<D: Device>(
    alloc: Global,
    table: &Arc<FarTable<D>, Global>,
    seat: &mut Seat<u64, View>,
    plan: &Plan<D>,
) -> Result<Vec<MutSeat<D>>, AllocError>
    requires dealer { IsDealer seat.old (arc_value table.now).shared.table_id (core_state plan.now.core).logs }
    requires first { seat.old.me.0 ≡ Book (waiting (core_state plan.now.core) (D.honest plan.now.device.value) 0 (core_state plan.now.core).mutators) }
    requires there { (m : ℕ) → m < (core_state plan.now.core).mutators → HasState (first_owner (core_state plan.now.core) (D.honest plan.now.device.value) m) }
    ensures dealer { OnOk result (IsDealer seat.new (arc_value table.now).shared.table_id (core_state plan.now.core).logs) }
    ensures left { OnOk result (seat.new.me.0 ≡ Book (waiting (core_state plan.now.core) (D.honest plan.now.device.value) (core_state plan.now.core).mutators 0)) }
    ensures dealt { IfOk result (λ v. v.items ≡ Seats (arc_value table.now).shared.table_id (first_owner (core_state plan.now.core) (D.honest plan.now.device.value)) (core_state plan.now.core).mutators) }
{
    let mutators = plan.core.mutators();
    let mut owners = Vec::with_capacity(alloc, mutators as usize)?;
    for number in 0..mutators {
        let owner = deal_one(alloc, table, seat, plan, number)?;
        owners.push_reserved(owner);
    }
    Ok(owners)
}

// The seat of the first copier that has none.
fn deal_copier<D: Device>(
    table: &Arc<FarTable<D>, Global>,
    seat: &mut Seat<u64, View>,
    plan: &Plan<D>,
    number: u8,
) -> Result<CopySeat<D>, AllocError>
    requires dealer { IsDealer seat.old (arc_value table.now).shared.table_id (core_state plan.now.core).logs }
    requires next { seat.old.me.0 ≡ Book (unseated (core_state plan.now.core) (D.honest plan.now.device.value) number (MOST_COPIERS - number)) }
    requires some { number < MOST_COPIERS }
    requires there { CopierStands (first_copier (core_state plan.now.core) number) }
    ensures dealer { OnOk result (IsDealer seat.new (arc_value table.now).shared.table_id (core_state plan.now.core).logs) }
    ensures left { OnOk result (seat.new.me.0 ≡ Book (unseated (core_state plan.now.core) (D.honest plan.now.device.value) (number + 1) (MOST_COPIERS - (number + 1)))) }
    ensures dealt { IfOk result (λ s. s ≡ record { table = (arc_value table.now).shared.table_id; view = first_copier (core_state plan.now.core) number }) }
{
    let _plan = plan;
    let table = Arc::try_clone(table)?;
    let copier = table.shared.split_seat::<Deal>(seat);
    Ok(CopySeat::new(table, copier, number))
}

// The seats of all copiers, in their order. They come before the owners'.
fn deal_copiers<D: Device>(
    alloc: Global,
    table: &Arc<FarTable<D>, Global>,
    seat: &mut Seat<u64, View>,
    plan: &Plan<D>,
) -> Result<Vec<CopySeat<D>>, AllocError>
    requires dealer { IsDealer seat.old (arc_value table.now).shared.table_id (core_state plan.now.core).logs }
    requires first { seat.old.me.0 ≡ Book (unseated (core_state plan.now.core) (D.honest plan.now.device.value) 0 MOST_COPIERS) }
    requires there { (c : ℕ) → c < MOST_COPIERS → CopierStands (first_copier (core_state plan.now.core) c) }
    ensures dealer { OnOk result (IsDealer seat.new (arc_value table.now).shared.table_id (core_state plan.now.core).logs) }
    ensures left { OnOk result (seat.new.me.0 ≡ Book (unseated (core_state plan.now.core) (D.honest plan.now.device.value) MOST_COPIERS 0)) }
    ensures dealt { IfOk result (λ v. v.items ≡ CopierSeats (arc_value table.now).shared.table_id (first_copier (core_state plan.now.core)) MOST_COPIERS) }
{
    let mut copiers = Vec::with_capacity(alloc, MOST_COPIERS as usize)?;
    for number in 0..MOST_COPIERS {
        let copier = deal_copier(table, seat, plan, number)?;
        copiers.push_reserved(copier);
    }
    Ok(copiers)
}

impl<D: Device> BookSeat<D> {
    // The book's seat, once all others have theirs.
    fn new(table: Arc<FarTable<D>, Global>, seat: Seat<u64, View>, core: &Core) -> BookSeat<D>
        requires dealer { IsDealer seat (arc_value table).shared.table_id (core_state core.now).logs }
        requires view { (honest : Bool) × (book_of seat.me.0 ≡ waiting (core_state core.now) honest (core_state core.now).mutators 0) }
        requires stands { ∥ Stands (book_of seat.me.0) ∥₁ }
        ensures table { table_of result ≡ seat.table_id }
        ensures book { book_in result ≡ book_of seat.me.0 }
    {
        core.keeps_law();
        let logs = core.logs();
        let mutators = core.mutators();
        let epoch = core.epoch();
        BookSeat {
            table,
            seat,
            logs,
            mutators,
            epoch,
        }
    }
}

// The table of a core's words, and the book's seat, from which no other is split yet.
fn table_of_core<D: Device>(
    alloc: Global,
    plan: &Plan<D>,
) -> Result<(Arc<FarTable<D>, Global>, Seat<u64, View>), AllocError>
    requires copiers { (core_state plan.now.core).copying.has_copiers ≡ true }
    requires honest { (p : ℕ) → (core_state plan.now.core).cell p ≢ 0 → D.honest plan.now.device.value ≡ (core_state plan.now.core).honest }
    ensures dealer { IfOk result (λ r. IsDealer r.1 (arc_value r.0).shared.table_id (core_state plan.now.core).logs) }
    ensures first { IfOk result (λ r. r.1.me.0 ≡ Book (unseated (core_state plan.now.core) (D.honest plan.now.device.value) 0 MOST_COPIERS)) }
{
    plan.core.keeps_law();
    plan.core.nothing_is_past();
    let words = words_of(alloc, &plan.core)?;
    let (table, seat) = Table::of_words(alloc, words.as_slice(), plan)?;
    let table = Arc::new(alloc, table)?;
    Ok((table, seat))
}

// The table and its seats.
fn seats_of<D: Device>(
    alloc: Global,
    plan: &Plan<D>,
) -> Result<(BookSeat<D>, Vec<MutSeat<D>>, Vec<CopySeat<D>>), AllocError>
    requires copiers { (core_state plan.now.core).copying.has_copiers ≡ true }
    requires honest { (p : ℕ) → (core_state plan.now.core).cell p ≢ 0 → D.honest plan.now.device.value ≡ (core_state plan.now.core).honest }
    ensures book { IfOk result (λ r. book_in r.0 ≡ waiting (core_state plan.now.core) (D.honest plan.now.device.value) (core_state plan.now.core).mutators 0) }
    ensures owners { IfOk result (λ r. r.1.items ≡ Seats (table_of r.0) (first_owner (core_state plan.now.core) (D.honest plan.now.device.value)) (core_state plan.now.core).mutators) }
    ensures copiers { IfOk result (λ r. r.2.items ≡ CopierSeats (table_of r.0) (first_copier (core_state plan.now.core)) MOST_COPIERS) }
    ensures starts { IfOk result (λ r. Starts (core_state plan.now.core) (D.honest plan.now.device.value) (book_in r.0)) }
{
    plan.core.keeps_law();
    plan.core.nothing_is_past();
    let (table, mut seat) = table_of_core(alloc, plan)?;
    let copiers = deal_copiers(alloc, &table, &mut seat, plan)?;
    let owners = deal_all(alloc, &table, &mut seat, plan)?;
    Ok((BookSeat::new(table, seat, &plan.core), owners, copiers))
}

/// Makes the shared table of a core's words, with the core's views as the seats': scopes that are open, places that are held,
/// objects that are used, near or far, the round under way, jobs and what copiers have of them (but a job that a copier has taken nobody can finish). The book's seat, the owners' by
/// number, and the eight copiers' by number, so copiers may have jobs in the core. The table is as large as the core's logs ask. All room that a seat ever needs is taken here. The rule is honest where the device
/// is; where some cell is in use that has to be the core's own honesty.
///
/// Refused [`Refused::Memory`] alone; then nothing was made, and the core is dropped.
pub fn share<D: Device>(
    alloc: Global,
    core: Core,
    device: Snapshot<D>,
) -> Result<(BookSeat<D>, Vec<MutSeat<D>>, Vec<CopySeat<D>>), Refused>
    requires copiers { (core_state core).copying.has_copiers ≡ true }
    requires honest { (p : ℕ) → (core_state core).cell p ≢ 0 → D.honest device.value ≡ (core_state core).honest }
    ensures refused { IfErr result (λ why. why ≡ Refused.Memory) }
    ensures book { IfOk result (λ r. book_in r.0 ≡ waiting (core_state core) (D.honest device.value) (core_state core).mutators 0) }
    ensures owners { IfOk result (λ r. r.1.items ≡ Seats (table_of r.0) (first_owner (core_state core) (D.honest device.value)) (core_state core).mutators) }
    ensures copiers { IfOk result (λ r. r.2.items ≡ CopierSeats (table_of r.0) (first_copier (core_state core)) MOST_COPIERS) }
    ensures starts { IfOk result (λ r. Starts (core_state core) (D.honest device.value) (book_in r.0)) }
{
    let plan = Plan { core, device };
    let Ok(seats) = seats_of(alloc, &plan) else {
        return Err(Refused::Memory);
    };
    Ok(seats)
}
