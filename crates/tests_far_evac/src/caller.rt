//! A worked caller, proved: the word that an owner loads after a round is the word that it stored before, wherever the object went
//! meanwhile.

ghost use Rattle.std.specs.Prelude.{◌≡◌, ◌*◌, ◌<◌, ℕ, true, IfSome};
ghost use Rattle.far_word.specs.declared.sizes.TheConstants.{CELLS};
ghost use Rattle.far_events.specs.declared.event.Event.{Event};
ghost use Rattle.far_events.specs.events.Legal.{Legal};
ghost use Rattle.far_core.specs.state.CoreState.{core_state};
ghost use Rattle.far_core.specs.world.WorldOf.{world_of};
ghost use Rattle.tests_far_evac.specs.Kept.{HasWord, KeepsWords, is_of_scope};

use far_book::{Home, Plain, fetching_is_legal};
use far_core::{Core, Event, Reply, steps_keep_views};
use far_device::MemDevice;
use far_evac::{Evac, rounds_keep_objects};
use far_policy::Oldest;
use far_word::packed_bytes;

/// Stores a word, has a round of the oldest sealed log made, brings the object back if it went far, and loads the word: `None` where one of
/// these is refused.
pub fn load_after_round(
    evac: &mut Evac<Plain, MemDevice>,
    owner: u8,
    pointer: u16,
    index: u16,
    word: u64,
) -> Option<u64>
    requires pointer { pointer < CELLS * (core_state evac.old.book.near.core).mutators }
    requires honest { (world_of (core_state evac.old.book.near.core)).honest ≡ true }
    requires legal { Legal (core_state evac.old.book.near.core) (Event.Store owner pointer index word) }
    ensures { IfSome result (λ loaded. loaded ≡ word) }
{
    store(evac, owner, pointer, index, word);
    make(evac, Event::Close { owner });
    make_round(evac)?;
    bring_near(evac, pointer)?;
    make(evac, Event::ReadEpoch { owner });
    make(evac, Event::Open { owner });
    make(evac, Event::Pin { owner, pointer });
    load(evac, owner, pointer, index)
}

// The core of the evacuator's book.
fn core_of(evac: &Evac<Plain, MemDevice>) -> &Core
    ensures { result.now ≡ evac.now.book.near.core }
{
    evac.book().core()
}

// Stores a word.
fn store(evac: &mut Evac<Plain, MemDevice>, owner: u8, pointer: u16, index: u16, word: u64)
    requires legal { Legal (core_state evac.old.book.near.core) (Event.Store owner pointer index word) }
    ensures has { HasWord (core_state evac.new.book.near.core) pointer index word }
    ensures honest { (world_of (core_state evac.new.book.near.core)).honest ≡ (world_of (core_state evac.old.book.near.core)).honest }
    ensures mutators { (core_state evac.new.book.near.core).mutators ≡ (core_state evac.old.book.near.core).mutators }
{
    core_of(evac).objects_have_one_place();
    evac.owner(Event::Store {
        owner,
        pointer,
        index,
        word,
    });
    steps_keep_views();
    packed_bytes();
}

// An owner opens or closes its scope, or views an object, where that is legal.
fn make(evac: &mut Evac<Plain, MemDevice>, event: Event)
    requires scope { is_of_scope event ≡ true }
    requires honest { (world_of (core_state evac.old.book.near.core)).honest ≡ true }
    ensures kept { KeepsWords (core_state evac.old.book.near.core) (core_state evac.new.book.near.core) }
    ensures mutators { (core_state evac.new.book.near.core).mutators ≡ (core_state evac.old.book.near.core).mutators }
{
    evac.owner(event);
    steps_keep_views();
}

// Makes a round of the oldest sealed log.
fn make_round(evac: &mut Evac<Plain, MemDevice>) -> Option<()>
    ensures kept { IfSome result (λ _. KeepsWords (core_state evac.old.book.near.core) (core_state evac.new.book.near.core)) }
    ensures mutators { IfSome result (λ _. (core_state evac.new.book.near.core).mutators ≡ (core_state evac.old.book.near.core).mutators) }
{
    evac.keeps_law();
    core_of(evac).keeps_law();
    rounds_keep_objects();
    match evac.run_round(&mut Oldest, 1, 9) {
        Ok(_) => Some(()),
        Err(_) => None,
    }
}

// Brings an object near, if it is far.
fn bring_near(evac: &mut Evac<Plain, MemDevice>, pointer: u16) -> Option<()>
    requires pointer { pointer < CELLS * (core_state evac.old.book.near.core).mutators }
    requires honest { (world_of (core_state evac.old.book.near.core)).honest ≡ true }
    ensures kept { IfSome result (λ _. KeepsWords (core_state evac.old.book.near.core) (core_state evac.new.book.near.core)) }
{
    core_of(evac).keeps_law();
    fetching_is_legal();
    steps_keep_views();
    if let Some(Home::Far { .. }) = evac.locate(pointer) {
        let Ok(Some(_)) = evac.fetch(pointer) else {
            return None;
        };
    }
    Some(())
}

// Loads a word.
fn load(evac: &mut Evac<Plain, MemDevice>, owner: u8, pointer: u16, index: u16) -> Option<u64>
    ensures { IfSome result (λ loaded. (x : ℕ) → HasWord (core_state evac.old.book.near.core) pointer index x → loaded ≡ x) }
{
    steps_keep_views();
    match evac.owner(Event::Load {
        owner,
        pointer,
        index,
    }) {
        Reply::Word(word) => Some(word),
        _ => None,
    }
}
