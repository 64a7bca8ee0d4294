//! The calls of a hand, over a plain core and over one beside which owners and copiers are at work.

ghost use Rattle.std.specs.Prelude.{◌≡◌, ◌≢◌, ◌*◌, ◌<◌, ℕ, IfOk, true, false};
ghost use Rattle.std.specs.Vec.{vec_len};
ghost use Rattle.far_word.specs.declared.mark.Marks.{Marks};
ghost use Rattle.far_word.specs.declared.pointer.Place.{Place};
ghost use Rattle.far_word.specs.declared.pointer.PtrWord.TheVariants as near;
ghost use Rattle.far_word.specs.declared.sizes.TheConstants.{CELLS};
ghost use Rattle.far_word.specs.Pointer.{read_of};
ghost use Rattle.far_core.specs.state.CoreState.{core_state};
ghost use Rattle.far_events.specs.state.Opening.{opening};
ghost use Rattle.far_hand.specs.BesetView.{beset_view};
ghost use Rattle.far_hand.specs.Masked.{masked, word_at};

use crate::tests::acts::{ADOPT, CLOSE, DROP, HOT, MOVE, NEAR, OPEN, READ, SMALL, SOIL, WAS_HOT};
use crate::tests::owners::answers_all;
use far_book::{Beset, Near, Plain};
use far_core::{Core, Event, Kind, Reply};
use far_word::{JobWord, Place, PtrWord, Refused};
use std::alloc::Global;

/// The header of pointer 0, an object of 8 bytes of data structure 1; and its cell at the start of log 0 with HOT and MOVE, and with DROP too.
const HEADER: u64 = 0xa200_0000_0100_0008;

const MOVED: u64 = 0xd600_0000_0001_0008;

const DROPPED: u64 = 0xde00_0000_0001_0008;

/// The header of pointer 0 where its object fills log 0, and its cell there with DROP.
const FILLING: u64 = 0xa200_0000_0100_0ff8;

const GONE: u64 = 0x8e00_0000_0001_0ff8;

/// What is done by a hand on the shared words of [`SMALL`], or looked at, each with what is to come of it.
#[derive(Clone, Copy)]
enum Touch {
    /// The cell of pointer 0 is seen with this word.
    Sees(u64),
    /// A word of log 0 is read so.
    Gets(u16, u64),
    /// EVAC is taken from pointer 0, which had this word, if it is seen to be near.
    Clears(Option<u64>),
    /// Pointer 0 is seen to be dropped, and its cell is free again.
    Retires,
    /// The first word of log 0 is read so, and with it the log is given back.
    GivesBack(u64),
    /// The core has this word in the cell of pointer 0.
    Cell(u64),
    /// The hand has found this one there.
    Found(u64),
    /// Whether the first two words of log 0 are counted on, beside headers.
    Counts(bool, bool),
    /// An owner's event, with its answer.
    Owns(Event, Reply),
    /// Job 0 has this word.
    Job(u64),
    /// Job 0 is emptied, or isn't, and this word is found; `None` if it was last found empty or taken.
    Collects(Option<Result<(), u64>>),
}

/// Pointer 0 gets the first two words of log 0.
fn place_first<N: Near>(near: &mut N) -> Result<(), u64>
    requires log { ((N.view near.old).kind 0 ≡ Kind.Open) × ((N.view near.old).tail 0 ≡ 0) × (0 < (N.view near.old).logs) }
    requires cell { ((N.view near.old).cell 0 ≡ 0) × (0 < CELLS * (N.view near.old).mutators) }
    ensures shape { IfOk result (λ _. (0 < CELLS * (N.view near.new).mutators) × (0 < (N.view near.new).logs)) }
{
    near.put(0, 0, HEADER);
    near.put(0, 1, 0);
    near.name(0, 0, NEAR)
}

/// The cell of pointer 0 is free again, if it is seen to be dropped.
fn retire_first<N: Near>(near: &mut N) -> Option<Result<(), u64>>
    requires { 0 < CELLS * (N.view near.old).mutators }
{
    let cell = near.see(0);
    match PtrWord::read(cell) {
        Some(PtrWord::Near { marks, .. }) if marks.dropped => Some(near.name(0, cell, 0)),
        _ => None,
    }
}

/// EVAC is taken from pointer 0, if it is seen to be near.
fn clear_first<N: Near>(near: &mut N) -> Option<u64>
    requires { 0 < CELLS * (N.view near.old).mutators }
{
    let cell = near.see(0);
    match PtrWord::read(cell) {
        Some(PtrWord::Near { .. }) => Some(near.clear(0)),
        _ => None,
    }
}

/// Job 0 is empty from then on, if it was last found offered or finished, and is so still.
fn collect_first(hand: &mut Beset) -> Option<Result<(), u64>> {
    let word = hand.jobs[0];
    match JobWord::read(word) {
        Some(JobWord::Offered { .. } | JobWord::Finished { .. }) => Some(hand.collect(0, word)),
        _ => None,
    }
}

/// A plain hand on a core at the start.
fn plain_hand(alloc: Global) -> Result<Plain, Refused>
    ensures { IfOk result (λ hand. core_state hand.core ≡ opening SMALL true) }
{
    let core = Core::new(alloc, SMALL, true)?;
    Ok(Plain { core })
}

/// A hand on a core at the start, whose owners make these events.
fn beset_hand(alloc: Global, events: Vec<Event>) -> Result<Beset, Refused>
    ensures { IfOk result (λ hand. beset_view hand ≡ masked (opening SMALL true) (λ _. 0) (λ _. false) (λ _. 0)) }
{
    let core = Core::new(alloc, SMALL, true)?;
    Beset::new(alloc, core, events)
}

// Whether a call of a hand comes out as it should.
fn touches<N: Near>(hand: &mut N, touch: Touch) -> bool {
    let shape = hand.shape();
    if shape.logs != SMALL.logs || shape.mutators != SMALL.mutators {
        return false;
    }
    match touch {
        Touch::Sees(word) => hand.see(0) == word,
        Touch::Gets(at, word) => at < 2 && hand.get(0, at, false) == word,
        Touch::Clears(word) => clear_first(hand) == word,
        Touch::Retires => retire_first(hand) == Some(Ok(())),
        Touch::Job(word) => hand.see_job(0) == word,
        _ => false,
    }
}

// The same of one on a core that nobody else steps.
fn plain_touches(hand: &mut Plain, touch: Touch) -> bool {
    match touch {
        Touch::Cell(word) => hand.core.cell(0) == word,
        Touch::Owns(event, reply) => hand.core.step(event) == reply,
        _ => touches(hand, touch),
    }
}

// The same of one beside whose calls owners are at work.
fn beset_touches(hand: &mut Beset, touch: Touch) -> bool {
    match touch {
        Touch::Cell(word) => hand.core.cell(0) == word,
        Touch::Found(word) => hand.found.get(0).copied() == Some(word),
        Touch::Counts(first, second) => {
            hand.counted.get(0).copied() == Some(first)
                && hand.counted.get(1).copied() == Some(second)
        }
        Touch::GivesBack(word) => gives_back(hand, word),
        Touch::Collects(done) => collect_first(hand) == done,
        _ => touches(hand, touch),
    }
}

/// Whether a cell names a place in a log.
fn lies_in(cell: u64, log: u8) -> bool
    ensures { result ≡ false → (len ds : ℕ) (place : Place) (marks : Marks) → read_of cell ≡ Some (near.Near len ds place marks) → place.log ≢ log }
{
    match PtrWord::read(cell) {
        Some(PtrWord::Near { place, .. }) => place.log == log,
        _ => false,
    }
}

/// The word last found in a pointer's cell.
fn found_in(found: &Vec<u64>, pointer: usize) -> u64
    requires { pointer < vec_len found.now }
    ensures { result ≡ word_at found.now.items pointer }
{
    found[pointer]
}

/// Whether no cell names a place in a log.
fn is_vacant(found: &Vec<u64>, log: u8) -> bool
    ensures { result ≡ true → (p len ds : ℕ) (place : Place) (marks : Marks) → read_of (word_at found.now.items p) ≡ Some (near.Near len ds place marks) → place.log ≢ log }
{
    for pointer in 0..found.len() {
        if lies_in(found_in(found, pointer), log) {
            return false;
        }
    }
    true
}

// Whether the first word of log 0 is read so, and with it the log is given back.
fn gives_back(hand: &mut Beset, word: u64) -> bool {
    hand.core.logs() == 4
        && hand.core.may_get(0, 0, true)
        && is_vacant(&hand.found, 0)
        && hand.get(0, 0, true) == word
        && hand.core.logs() == 4
        && hand.core.kind(0) == Kind::Free
        && hand.core.tail(0) == 0
}

fn plain_does_all(hand: &mut Plain, touches: &[Touch]) -> bool {
    for touch in touches {
        if !plain_touches(hand, *touch) {
            return false;
        }
    }
    true
}

fn beset_does_all(hand: &mut Beset, touches: &[Touch]) -> bool {
    for touch in touches {
        if !beset_touches(hand, *touch) {
            return false;
        }
    }
    true
}

// Whether each comes out as it should once pointer 0 was placed.
fn plays_plain(alloc: Global, touches: &[Touch]) -> bool {
    match plain_hand(alloc) {
        Ok(mut hand) => place_first(&mut hand) == Ok(()) && plain_does_all(&mut hand, touches),
        Err(_) => false,
    }
}

// The same beside owners that make these events, one before each call.
fn plays_beset(alloc: Global, events: &[Event], touches: &[Touch]) -> bool {
    let mut all = Vec::new(alloc);
    if all.extend_from_slice(events).is_err() {
        return false;
    }
    match beset_hand(alloc, all) {
        Ok(mut hand) => place_first(&mut hand) == Ok(()) && beset_does_all(&mut hand, touches),
        Err(_) => false,
    }
}

// The same on this core.
fn plays_over(alloc: Global, core: Core, events: &[Event], touches: &[Touch]) -> bool {
    let mut all = Vec::new(alloc);
    if all.extend_from_slice(events).is_err() {
        return false;
    }
    match Beset::new(alloc, core, all) {
        Ok(mut hand) => beset_does_all(&mut hand, touches),
        Err(_) => false,
    }
}

// The same on a core that answers these events so.
fn plays_after(
    alloc: Global,
    answers: &[(Event, Reply)],
    events: &[Event],
    touches: &[Touch],
) -> bool {
    match Core::new(alloc, SMALL, true) {
        Ok(mut core) => {
            answers_all(&mut core, answers) && plays_over(alloc, core, events, touches)
        }
        Err(_) => false,
    }
}

// Pointer 0 and its two words are seen as they were written.
const SHOWN: &[Touch] = &[
    Touch::Cell(NEAR),
    Touch::Sees(NEAR),
    Touch::Gets(0, HEADER),
    Touch::Gets(1, 0),
    Touch::Owns(ADOPT, Reply::Word(NEAR)),
    Touch::Owns(DROP, Reply::Word(NEAR)),
    Touch::Retires,
    Touch::Cell(0),
];

#[test]
fn plain_words_stay(rt: HostRuntime) {
    assert!(rt; plays_plain(rt.alloc(), SHOWN));
}

const SEE: Event = Event::See { pointer: 0 };

const STORE_7: Event = Event::Store {
    owner: 0,
    pointer: 0,
    index: 0,
    word: 7,
};

const STORE_8: Event = Event::Store {
    owner: 0,
    pointer: 0,
    index: 0,
    word: 8,
};

// The third event isn't legal, since the cell is free; the book's is passed over.
const AT_WORK: &[Event] = &[
    READ, OPEN, ADOPT, ADOPT, HOT, SOIL, STORE_7, STORE_8, SEE, CLOSE, MOVE, DROP,
];

// Pointer 0's owner stores into the object, so that what is read isn't counted on. Its second word is once it has MOVE, and then it is quiet, until it is
// retired.
const BESIDE_THEM: &[Touch] = &[
    Touch::Counts(false, false),
    Touch::Sees(NEAR),
    Touch::Sees(WAS_HOT),
    Touch::Sees(WAS_HOT),
    Touch::Gets(1, 7),
    Touch::Gets(1, 8),
    Touch::Counts(false, false),
    Touch::Sees(WAS_HOT),
    Touch::Sees(WAS_HOT),
    Touch::Sees(MOVED),
    Touch::Gets(1, 8),
    Touch::Counts(false, true),
    Touch::Cell(DROPPED),
    Touch::Retires,
    Touch::Cell(0),
    Touch::Counts(false, false),
];

#[test]
fn owners_are_at_work(rt: HostRuntime) {
    assert!(rt; plays_beset(rt.alloc(), AT_WORK, BESIDE_THEM));
}

const PUT_FULL: Event = Event::Put {
    log: 0,
    at: 0,
    word: FILLING,
};

const NAME_FULL: Event = Event::Name {
    pointer: 0,
    old: 0,
    new: 0x8600_0000_0001_0ff8,
};

const PUT_NEXT: Event = Event::Put {
    log: 1,
    at: 0,
    word: 0xa200_0001_0100_0008,
};

const NAME_NEXT: Event = Event::Name {
    pointer: 1,
    old: 0,
    new: 0x8600_0004_0001_0008,
};

const MARK: Event = Event::Mark { pointer: 0 };

// Pointer 0 is dropped, and its object fills log 0, which is sealed; and it has EVAC.
const DROPS_FULL: &[(Event, Reply)] = &[
    (PUT_FULL, Reply::Done),
    (NAME_FULL, Reply::Done),
    (PUT_NEXT, Reply::Done),
    (NAME_NEXT, Reply::Done),
    (ADOPT, Reply::Word(0x8600_0000_0001_0ff8)),
    (DROP, Reply::Word(0x8600_0000_0001_0ff8)),
];

const MARKS_FULL: &[(Event, Reply)] = &[
    (PUT_FULL, Reply::Done),
    (NAME_FULL, Reply::Done),
    (PUT_NEXT, Reply::Done),
    (NAME_NEXT, Reply::Done),
    (ADOPT, Reply::Word(0x8600_0000_0001_0ff8)),
    (DROP, Reply::Word(0x8600_0000_0001_0ff8)),
    (MARK, Reply::Word(GONE)),
];

// EVAC is taken from pointer 0, and the hand has found its cell so.
const TAKES_EVAC_BACK: &[Touch] = &[
    Touch::Clears(Some(0xae00_0000_0001_0ff8)),
    Touch::Cell(GONE),
    Touch::Found(GONE),
];

// There is no object any more from which it is taken.
const TAKES_NOTHING_BACK: &[Touch] = &[
    Touch::Owns(ADOPT, Reply::Word(NEAR)),
    Touch::Owns(DROP, Reply::Word(NEAR)),
    Touch::Retires,
    Touch::Clears(None),
];

#[test]
fn evac_is_taken_back(rt: HostRuntime) {
    assert!(rt; plays_after(rt.alloc(), MARKS_FULL, &[], TAKES_EVAC_BACK));
    assert!(rt; plays_plain(rt.alloc(), TAKES_NOTHING_BACK));
}

const ADOPT_NEXT: Event = Event::Adopt {
    owner: 0,
    pointer: 1,
};

const PIN_NEXT: Event = Event::Pin {
    owner: 0,
    pointer: 1,
};

const GIVES_BACK: &[Touch] = &[Touch::Retires, Touch::Cell(0), Touch::GivesBack(FILLING)];

#[test]
fn beset_log_is_given_back(rt: HostRuntime) {
    let events = [READ, OPEN, ADOPT_NEXT, PIN_NEXT];
    assert!(rt; plays_after(rt.alloc(), DROPS_FULL, &events, GIVES_BACK));
}

/// Job 0, the copy of pointer 0 to log 2: offered, taken by copier 0, and finished.
const OFFERED: u64 = 0x4000_2000_0000_0000;

const TAKEN: u64 = 0x8000_2000_0000_0000;

const FINISHED: u64 = 0xc000_2000_0000_0000;

// Pointer 0 lies in log 0, which another object seals. In a round of that log its owner is seen clear, and its copy is offered.
const OFFERS_FIRST: &[(Event, Reply)] = &[
    (
        Event::Put {
            log: 0,
            at: 0,
            word: HEADER,
        },
        Reply::Done,
    ),
    (
        Event::Name {
            pointer: 0,
            old: 0,
            new: NEAR,
        },
        Reply::Done,
    ),
    (
        Event::Put {
            log: 1,
            at: 0,
            word: 0xa200_0001_0100_0ff8,
        },
        Reply::Done,
    ),
    (
        Event::Name {
            pointer: 1,
            old: 0,
            new: 0x8600_0004_0001_0ff8,
        },
        Reply::Done,
    ),
    (MARK, Reply::Word(NEAR)),
    (Event::Advance { logs: 1 }, Reply::Epoch(1)),
    (Event::Look { owner: 0 }, Reply::Word(0)),
    (
        Event::Put {
            log: 2,
            at: 0,
            word: HEADER,
        },
        Reply::Done,
    ),
    (
        Event::Offer {
            job: 0,
            pointer: 0,
            to: Place { log: 2, at: 0 },
        },
        Reply::Done,
    ),
];

const COPIES: &[Event] = &[
    Event::PeekJob { copier: 0, job: 0 },
    Event::Claim {
        copier: 0,
        job: 0,
        old: OFFERED,
    },
    Event::ReadLength { copier: 0 },
    Event::Read {
        copier: 0,
        index: 0,
    },
    Event::Write {
        copier: 0,
        index: 0,
    },
    Event::Finish { copier: 0 },
];

// A copier takes the job before it is emptied, which it isn't then, and finishes it while the book looks elsewhere.
const BESIDE_A_COPIER: &[Touch] = &[
    Touch::Job(OFFERED),
    Touch::Collects(Some(Err(TAKEN))),
    Touch::Collects(None),
    Touch::Gets(1, 0),
    Touch::Job(TAKEN),
    Touch::Gets(1, 0),
    Touch::Job(FINISHED),
    Touch::Collects(Some(Ok(()))),
    Touch::Job(0),
];

#[test]
fn a_copier_is_at_work(rt: HostRuntime) {
    assert!(rt; plays_after(rt.alloc(), OFFERS_FIRST, COPIES, BESIDE_A_COPIER));
}
