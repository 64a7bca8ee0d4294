//! How an owner opens its scope and views an object.

ghost use Rattle.std.specs.Prelude.{◌≡◌, ◌/◌, true, false, None, IsSome, IfOk, IfErr};
ghost use Rattle.far_word.specs.declared.sizes.TheConstants.{CELLS};
ghost use Rattle.far_events.specs.events.Step.{is_opened};
ghost use Rattle.far_word.specs.Pointer.{read_of};
ghost use Rattle.far_replay.specs.Commanded.{KeepsFar, Outside};
ghost use Rattle.far_alone.specs.Dereference.{RefusesView, says_near};
ghost use Rattle.far_replay.specs.NotCome.{IsWhyNot, as_refused, why_of};
ghost use Rattle.far_alone.specs.Effects.{is_slow, with_view};
ghost use Rattle.far_events.specs.events.Ranges.{after_events};
ghost use Rattle.far_alone.specs.Events.{open_events};
ghost use Rattle.far_replay.specs.Far.{HoldsSame};
ghost use Rattle.far_replay.specs.Interpreter.{Brings, BringsToView, Dereferences, refuser};
ghost use Rattle.far_replay.specs.Moment.{KeepsRound, state_in};
ghost use Rattle.far_replay.specs.Spent.{SpentBy};

use crate::owners::{FarSide, core_of, make_event};
use far_book::Plain;
use far_core::Event;
use far_evac::Evac;
use far_word::{Mark, PtrWord, Refused};

/// Opens an owner's scope, at the epoch that it reads unless it has read one already.
pub fn open(evac: &mut Evac<Plain, FarSide>, owner: u8)
    ensures state { state_in evac.new ≡ after_events (state_in evac.old) (open_events (state_in evac.old) owner) }
    ensures order { evac.new.book.order ≡ evac.old.book.order }
    ensures round { KeepsRound evac.old evac.new }
    ensures device { evac.new.book.device ≡ evac.old.book.device }
{
    if !core_of(evac).has_epoch(owner) {
        make_event(evac, Event::ReadEpoch { owner });
    }
    make_event(evac, Event::Open { owner });
}

/// Pins an owner's object, unless it is held already. `Err` with the cell as it was, where the pin gave no view.
#[inline]
pub fn try_view(evac: &mut Evac<Plain, FarSide>, owner: u8, pointer: u16) -> Result<(), u64>
    requires opened { is_opened (state_in evac.old) owner ≡ true }
    requires own { pointer / CELLS ≡ owner }
    requires used { (state_in evac.old).used pointer ≡ true }
    ensures state { state_in evac.new ≡ with_view (state_in evac.old) pointer }
    ensures viewed { IfOk result (λ _. is_slow (state_in evac.old) pointer ≡ false) }
    ensures word { IfErr result (λ word. (is_slow (state_in evac.old) pointer ≡ true) × (word ≡ (state_in evac.old).cell pointer)) }
    ensures order { evac.new.book.order ≡ evac.old.book.order }
    ensures round { KeepsRound evac.old evac.new }
    ensures device { evac.new.book.device ≡ evac.old.book.device }
{
    if core_of(evac).is_held(pointer) {
        return Ok(());
    }
    pin(evac, owner, pointer)
}

// Pins an owner's object that isn't held. `Err` with the cell as it was, where the pin gave no view.
#[inline(always)]
fn pin(evac: &mut Evac<Plain, FarSide>, owner: u8, pointer: u16) -> Result<(), u64>
    // the owner's scope is open, and the object is its own, in use, and not viewed yet
    requires opened { is_opened (state_in evac.old) owner ≡ true }
    requires own { pointer / CELLS ≡ owner }
    requires used { (state_in evac.old).used pointer ≡ true }
    requires unheld { (state_in evac.old).held pointer ≡ None }

    // HOT is set; done: a view may rest on the object, and does; else the answer is its cell's word
    ensures state { state_in evac.new ≡ with_view (state_in evac.old) pointer }
    ensures viewed { IfOk result (λ _. is_slow (state_in evac.old) pointer ≡ false) }
    ensures word { IfErr result (λ word. (is_slow (state_in evac.old) pointer ≡ true) × (word ≡ (state_in evac.old).cell pointer)) }

    // the order of logs, the round and the device stay
    ensures order { evac.new.book.order ≡ evac.old.book.order }
    ensures round { KeepsRound evac.old evac.new }
    ensures device { evac.new.book.device ≡ evac.old.book.device }
{
    match evac.pin(owner, pointer) {
        Ok(_) => Ok(()),
        Err(word) => Err(word),
    }
}

/// Dereferences an owner's object: pins it, and where that gives no view, has it brought to where one may rest, and pins it
/// again. What is viewed already stays so. A far object comes with the bytes that the device gives, whatever was stored.
///
/// Refused [`Refused::NoRoom`] where there is no place for it: HOT is left then, and, where the object is near, MOVE. Refused
/// [`Refused::Device`] where the device failed, or [`Refused::Damaged`] where what it gave isn't as long as the object: the object is far still, and HOT
/// is left. A fetch takes no memory.
#[inline]
pub fn dereference(evac: &mut Evac<Plain, FarSide>, owner: u8, pointer: u16) -> Result<(), Refused>
    // the owner's scope is open, and the object is its own and in use
    requires opened { is_opened (state_in evac.old) owner ≡ true }
    requires own { pointer / CELLS ≡ owner }
    requires used { (state_in evac.old).used pointer ≡ true }

    // done: it's viewed, as the law of a dereference says, by the bytes that the device gave
    ensures done { IfOk result (λ _. (o : Outside) × Dereferences evac.old evac.new owner pointer o) }

    // refused: nothing has changed but the marks that this refusal leaves, and the order stays
    ensures refused { IfErr result (λ why. RefusesView (state_in evac.old) owner pointer why (state_in evac.new)) }
    ensures shut { IfErr result (λ _. evac.new.book.order ≡ evac.old.book.order) }

    // the round stays, and the device is to hold what it was to hold, and has used up what the refusal says; it refuses no object but a far one
    ensures round { KeepsRound evac.old evac.new }
    ensures spent { IfErr result (λ why. SpentBy (refuser why) evac.old evac.new) }
    ensures same { HoldsSame evac.old evac.new }
    ensures far { IfErr result (λ why. KeepsFar why → says_near (read_of ((state_in evac.old).cell pointer)) ≡ false) }
{
    let Err(_) = try_view(evac, owner, pointer) else {
        return Ok(());
    };
    bring_and_view(evac, owner, pointer)
}

// Why an object doesn't come to where a view may rest. It is a byte: [`Refused`] would go through memory at each fetch.
#[derive(Clone, Copy)]
enum NotCome {
    NoRoom,
    Device,
    Damaged,
}

impl NotCome {
    #[inline(always)]
    fn of(why: Refused) -> NotCome
        requires { IsWhyNot why }
        ensures { why_of result ≡ why }
    {
        match why {
            Refused::Device => NotCome::Device,
            Refused::Damaged => NotCome::Damaged,
            _ => NotCome::NoRoom,
        }
    }

    #[inline(always)]
    fn why(self) -> Refused
        ensures { result ≡ why_of self }
    {
        match self {
            NotCome::NoRoom => Refused::NoRoom,
            NotCome::Device => Refused::Device,
            NotCome::Damaged => Refused::Damaged,
        }
    }
}

// Brings an object to where a view may rest, and pins it there.
#[inline(always)]
fn bring_and_view(evac: &mut Evac<Plain, FarSide>, owner: u8, pointer: u16) -> Result<(), Refused>
    requires opened { is_opened (state_in evac.old) owner ≡ true }
    requires own { pointer / CELLS ≡ owner }
    requires used { (state_in evac.old).used pointer ≡ true }
    requires unheld { (state_in evac.old).held pointer ≡ None }
    ensures viewed { BringsToView evac.old evac.new owner pointer result }
{
    match bring_apart(evac, owner, pointer) {
        Ok(()) => Ok(()),
        Err(why) => Err(why.why()),
    }
}

// The same. It stands apart from the common case, which is made in place.
#[inline(never)]
fn bring_apart(evac: &mut Evac<Plain, FarSide>, owner: u8, pointer: u16) -> Result<(), NotCome>
    requires opened { is_opened (state_in evac.old) owner ≡ true }
    requires own { pointer / CELLS ≡ owner }
    requires used { (state_in evac.old).used pointer ≡ true }
    requires unheld { (state_in evac.old).held pointer ≡ None }
    ensures viewed { BringsToView evac.old evac.new owner pointer (as_refused result) }
{
    match bring_and_pin(evac, owner, pointer) {
        Ok(()) => Ok(()),
        Err(why) => Err(NotCome::of(why)),
    }
}

// The same, told by any refusal.
#[inline(always)]
fn bring_and_pin(evac: &mut Evac<Plain, FarSide>, owner: u8, pointer: u16) -> Result<(), Refused>
    requires opened { is_opened (state_in evac.old) owner ≡ true }
    requires own { pointer / CELLS ≡ owner }
    requires used { (state_in evac.old).used pointer ≡ true }
    requires unheld { (state_in evac.old).held pointer ≡ None }
    ensures viewed { BringsToView evac.old evac.new owner pointer result }
{
    match bring(evac, owner, pointer) {
        Ok(()) => {
            let _ = pin(evac, owner, pointer);
            Ok(())
        }
        Err(why) => Err(why),
    }
}

// Whether a cell says near.
fn is_near(word: u64) -> bool
    requires { IsSome (read_of word) }
    ensures { result ≡ says_near (read_of word) }
{
    match PtrWord::known(word) {
        PtrWord::Near { .. } => true,
        _ => false,
    }
}

// Brings an object to where a view may rest.
fn bring(evac: &mut Evac<Plain, FarSide>, owner: u8, pointer: u16) -> Result<(), Refused>
    requires opened { is_opened (state_in evac.old) owner ≡ true }
    requires own { pointer / CELLS ≡ owner }
    requires used { (state_in evac.old).used pointer ≡ true }
    requires unheld { (state_in evac.old).held pointer ≡ None }
    ensures brought { Brings evac.old evac.new owner pointer result }
    ensures far { IfErr result (λ why. KeepsFar why → says_near (read_of ((state_in evac.old).cell pointer)) ≡ false) }
{
    let core = core_of(evac);
    core.keeps_law();
    if is_near(core.cell(pointer)) {
        move_near(evac, owner, pointer)
    } else {
        fetch_far(evac, owner, pointer)
    }
}

// Has a near object moved, or its marks taken where it lies.
fn move_near(evac: &mut Evac<Plain, FarSide>, owner: u8, pointer: u16) -> Result<(), Refused>
    requires opened { is_opened (state_in evac.old) owner ≡ true }
    requires own { pointer / CELLS ≡ owner }
    requires used { (state_in evac.old).used pointer ≡ true }
    requires unheld { (state_in evac.old).held pointer ≡ None }
    requires near { says_near (read_of ((state_in evac.old).cell pointer)) ≡ true }
    ensures brought { Brings evac.old evac.new owner pointer result }
    ensures far { IfErr result (λ why. KeepsFar why → says_near (read_of ((state_in evac.old).cell pointer)) ≡ false) }
{
    make_event(
        evac,
        Event::Ask {
            owner,
            pointer,
            mark: Mark::Moved,
        },
    );
    match evac.move_now(pointer) {
        Ok(Some(_)) => Ok(()),
        Ok(None) => unreachable!(),
        Err(why) => Err(why),
    }
}

// Has a far object fetched.
fn fetch_far(evac: &mut Evac<Plain, FarSide>, owner: u8, pointer: u16) -> Result<(), Refused>
    requires used { (state_in evac.old).used pointer ≡ true }
    requires far { says_near (read_of ((state_in evac.old).cell pointer)) ≡ false }
    ensures brought { Brings evac.old evac.new owner pointer result }
    ensures far { IfErr result (λ why. KeepsFar why → says_near (read_of ((state_in evac.old).cell pointer)) ≡ false) }
{
    let _ = owner;
    evac.book().keeps_law();
    match evac.fetch(pointer) {
        Ok(Some(_)) => Ok(()),
        Ok(None) => unreachable!(),
        Err(why) => Err(why),
    }
}
