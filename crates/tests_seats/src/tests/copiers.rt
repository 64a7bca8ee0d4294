//! Copiers on shared words: what they do beside a book's hand, in one thread and in threads of their own.

ghost use Rattle.std.specs.Prelude.{◌≡◌, true, Some};
ghost use Rattle.far_core.specs.state.CoreState.{core_state};
ghost use Rattle.tests_seats.specs.Offers.{HasRoom, HasRound};

use crate::tests::acts::Act;
use crate::tests::acts::Act::*;
use crate::tests::jobs::{CHOSEN, JobBook};
use crate::tests::owners::owner_does;
use crate::tests::pairs::SMALL;
use far_core::{Core, Event, Kind, Reply};
use far_device::MemDevice;
use far_hand::Near;
use far_table::BookSeat;
use far_word::{LONGEST, Mark, Place, Refused, words_for};
use std::alloc::Global;
use std::sync::atomic::{AtomicU64, Ordering};
use std::thread;
use std::thread::{Threads, join};
use tests_owner::Went::*;
use tests_owner::{Copier, Owner, Seats, seated};

/// How many turns a thread takes at most.
const TURNS: u64 = 20_000_000;

/// The objects that are copied, by pointers: how long each is, and where. All lie in the round.
const OBJECTS: [(u16, Place); 7] = [
    (1, Place { log: 0, at: 0 }),
    (7, Place { log: 0, at: 2 }),
    (8, Place { log: 0, at: 4 }),
    (9, Place { log: 0, at: 6 }),
    (64, Place { log: 0, at: 9 }),
    (127, Place { log: 0, at: 18 }),
    (LONGEST, Place { log: 1, at: 0 }),
];

/// Where the next copy goes: after an object that isn't copied. And a log that is free.
const NEXT: Place = Place { log: 2, at: 2 };

const SPARE: u8 = 3;

const OPENS: &[Event] = &[Event::ReadEpoch { owner: 0 }, Event::Open { owner: 0 }];

// The object after which copies go seals the log of the longest one. The owner closes its scope, and a round of the first two logs begins, in which it is
// seen clear.
const BEGINS: &[Event] = &[
    Event::Put {
        log: 2,
        at: 0,
        word: 0xa200_0007_0100_0008,
    },
    Event::Name {
        pointer: 7,
        old: 0,
        new: 0x8600_0008_0001_0008,
    },
    Event::Close { owner: 0 },
    Event::Mark { pointer: 0 },
    Event::Mark { pointer: 1 },
    Event::Mark { pointer: 2 },
    Event::Mark { pointer: 3 },
    Event::Mark { pointer: 4 },
    Event::Mark { pointer: 5 },
    Event::Mark { pointer: 6 },
    Event::Advance { logs: 3 },
    Event::Look { owner: 0 },
];

// Whether none of these events is refused.
fn happens(core: &mut Core, events: &[Event]) -> bool {
    for event in events {
        if core.step(*event) == Reply::Refused {
            return false;
        }
    }
    true
}

// What an object of a length has in a word: bytes of its own, and zeros past its end.
fn word_of(len: u16, index: u16) -> u64 {
    let word = 0x0101_0101_0101_0101u64.wrapping_mul(len as u64 ^ index as u64 ^ 0x85);
    match (len as u64).checked_sub(8 * index as u64) {
        Some(left) if left < 8 => word & !(u64::MAX << 8 * left),
        _ => word,
    }
}

// Whether the owner takes over a new object at a place, and views it.
fn places(core: &mut Core, pointer: u16, len: u16, place: Place) -> bool {
    let Place { log, at } = place;
    let word = 0xa200_0000_0100_0000 | len as u64 | (pointer as u64) << 32;
    let new = 0x8600_0000_0001_0000 | len as u64 | (at as u64) << 24 | (log as u64) << 34;
    let put = Event::Put { log, at, word };
    let name = Event::Name {
        pointer,
        old: 0,
        new,
    };
    let adopt = Event::Adopt { owner: 0, pointer };
    let pin = Event::Pin { owner: 0, pointer };
    happens(core, &[put, name, adopt, pin])
}

// Whether the owner stores its words into an object.
fn fills(core: &mut Core, pointer: u16, len: u16) -> bool {
    core.step(Event::Soil { owner: 0, pointer });
    for index in 0..words_for(len) {
        let store = Event::Store {
            owner: 0,
            pointer,
            index,
            word: word_of(len, index),
        };
        if core.step(store) != Reply::Done {
            return false;
        }
    }
    true
}

// Whether all objects are placed and have their words.
fn places_all(core: &mut Core) -> bool {
    for pointer in 0..OBJECTS.len() {
        let (len, place) = OBJECTS[pointer];
        if !places(core, pointer as u16, len, place) || !fills(core, pointer as u16, len) {
            return false;
        }
    }
    true
}

// Whether a round of the first two logs stands, in which the first owner was seen clear.
fn has_begun(core: &Core) -> bool
    ensures { result ≡ true → HasRound (core_state core.now) }
{
    core.keeps_law();
    core.is_in_round(0) && core.is_in_round(1) && core.is_clear(0)
}

// Whether the open log ends and a log is free where copies are to go.
fn has_room(core: &Core) -> bool
    ensures { result ≡ true → HasRoom (core_state core.now) NEXT (Some SPARE) }
{
    core.keeps_law();
    NEXT.log < core.logs()
        && core.kind(NEXT.log) == Kind::Open
        && core.tail(NEXT.log) == NEXT.at
        && SPARE < core.logs()
        && core.kind(SPARE) == Kind::Free
}

// A core with all objects, of whose logs a round has begun.
fn core_of(alloc: Global) -> Option<Core> {
    let Ok(mut core) = Core::new(alloc, SMALL, true) else {
        return None;
    };
    if happens(&mut core, OPENS) && places_all(&mut core) && happens(&mut core, BEGINS) {
        Some(core)
    } else {
        None
    }
}

/// A book's hand, its one owner and two copiers.
#[derive(Drop)]
struct Stage {
    book: JobBook<BookSeat<MemDevice>>,
    owner: Owner<MemDevice>,
    first: Copier<MemDevice>,
    second: Copier<MemDevice>,
}

// The seats of a core with all objects, in which a round has begun, if there is room for copies.
fn stage_of(alloc: Global) -> Option<Stage> {
    let core = core_of(alloc)?;
    if !has_begun(&core) || !has_room(&core) {
        return None;
    }
    core.keeps_law();
    let Ok(found) = seated(alloc, core) else {
        return None;
    };
    let Some(seats) = found else {
        return None;
    };
    let Seats {
        book,
        owner,
        mut copiers,
    } = seats;
    let (Some(first), Some(second)) = (copiers.pop(), copiers.pop()) else {
        return None;
    };
    Some(Stage {
        book: JobBook::new(book, NEXT, SPARE),
        owner,
        first,
        second,
    })
}

// Whether an act of a book's hand comes out as it should.
fn book_does<N: Near + Drop>(book: &mut JobBook<N>, act: Act) -> bool {
    match act {
        Offers(pointer) => book.offers(pointer),
        Moves(pointer) => book.moves(pointer),
        Job(job, word) => book.looks(job) && book.word() == word,
        IsCopied => book.is_copied(),
        Names => book.names(),
        NamesNothing => !book.names(),
        Collects => book.collects() == Ok(()),
        CollectsNothing(word) => book.collects() == Err(word),
        _ => false,
    }
}

// Whether an act comes out as it should.
fn does(stage: &mut Stage, act: Act) -> bool {
    match act {
        First(went) => stage.first.goes_on() == went,
        Second(went) => stage.second.goes_on() == went,
        _ => match owner_does(&mut stage.owner, act) {
            Some(done) => done,
            None => book_does(&mut stage.book, act),
        },
    }
}

// Whether each act comes out as it should.
fn does_all(stage: &mut Stage, acts: &[Act]) -> bool {
    for act in acts {
        if !does(stage, *act) {
            return false;
        }
    }
    true
}

fn plays(rt: &HostRuntime, acts: &[Act]) -> bool {
    match stage_of(rt.alloc()) {
        Some(mut stage) => does_all(&mut stage, acts),
        None => false,
    }
}

/// The words of job 0, the copy of pointer 2, once copier 0 has it, and once it is finished.
const TAKEN: u64 = 0x8000_2008_0004_0002;

const FINISHED: u64 = 0xc000_2008_0004_0002;

// A job that one copier has is no other's. It is copied, named and emptied, and the owner reads what was copied.
const ONE_COPIES: &[Act] = &[
    First(Nowhere),
    Offers(2),
    First(Claimed),
    Second(Nowhere),
    First(Copied),
    First(Finished),
    Job(0, FINISHED),
    IsCopied,
    Names,
    Collects,
    Job(0, 0),
    First(Nowhere),
    ReadsEpoch(1),
    Opens,
    PinsAt(2, NEXT),
    Loads(2, 0x8d8d_8d8d_8d8d_8d8d),
];

#[test]
fn a_job_is_one_copiers(rt: HostRuntime) {
    assert!(rt; plays(&rt, ONE_COPIES));
}

// What is offered is taken back; and it isn't, once a copier was faster.
const TAKEN_BACK: &[Act] = &[Offers(3), Collects, Job(0, 0), First(Nowhere)];

const TAKEN_MEANWHILE: &[Act] = &[
    Offers(2),
    First(Claimed),
    CollectsNothing(TAKEN),
    CollectsNothing(TAKEN),
    First(Copied),
    First(Finished),
    CollectsNothing(TAKEN),
    Job(0, FINISHED),
    Collects,
];

#[test]
fn a_job_is_taken_back(rt: HostRuntime) {
    assert!(rt; plays(&rt, TAKEN_BACK));
    assert!(rt; plays(&rt, TAKEN_MEANWHILE));
}

/// The cell of pointer 2 before it was moved.
const MARKED: u64 = 0xe600_0000_0401_0008;

// The owner has an object moved before a copier claims its job, or before the book empties it: the job is emptied, and no pointer is named to the copy.
const OWNER_FIRST: &[Act] = &[
    Offers(2),
    ReadsEpoch(1),
    Opens,
    Finds(2, MARKED),
    Asks(2, Mark::Moved, MARKED),
    Moves(2),
    First(Claimed),
    First(Copied),
    First(Finished),
    Job(0, FINISHED),
    NamesNothing,
    Collects,
    PinsAt(2, Place { log: 2, at: 4 }),
    Loads(2, 0x8d8d_8d8d_8d8d_8d8d),
];

const OWNER_LATER: &[Act] = &[
    Offers(2),
    First(Claimed),
    First(Copied),
    First(Finished),
    ReadsEpoch(1),
    Opens,
    Finds(2, MARKED),
    Asks(2, Mark::Moved, MARKED),
    Moves(2),
    Job(0, FINISHED),
    NamesNothing,
    Collects,
    PinsAt(2, Place { log: 2, at: 4 }),
    Loads(2, 0x8d8d_8d8d_8d8d_8d8d),
];

#[test]
fn an_object_moves_while_it_is_copied(rt: HostRuntime) {
    assert!(rt; plays(&rt, OWNER_FIRST));
    assert!(rt; plays(&rt, OWNER_LATER));
}

// Whether the copies of all objects are offered, the first job first.
fn offers_all<N: Near + Drop>(book: &mut JobBook<N>) -> bool {
    for pointer in 0..OBJECTS.len() {
        if !book.offers(pointer as u16) {
            return false;
        }
    }
    true
}

// Waits until a job is finished; `false` where that didn't come.
fn waits<N: Near + Drop>(book: &mut JobBook<N>, job: u8) -> bool {
    for _ in 0..TURNS {
        if !book.looks(job) {
            return false;
        }
        if book.is_finished() {
            return true;
        }
        thread::yield_now();
    }
    false
}

// Whether each job is finished with equal words at both places, its pointer is named to the copy, and the job emptied.
fn names_all<N: Near + Drop>(book: &mut JobBook<N>) -> bool {
    for job in 0..OBJECTS.len() {
        if !waits(book, job as u8)
            || !book.is_copied()
            || !book.names()
            || book.collects() != Ok(())
        {
            return false;
        }
    }
    true
}

// What the book's thread does; and tells the copiers that all is over.
fn copies_all<N: Near + Drop>(mut book: JobBook<N>, over: &AtomicU64) -> bool {
    let done = offers_all(&mut book) && names_all(&mut book);
    over.store(1, Ordering::SeqCst);
    done
}

// What a copier's thread does: it goes on until all is over; `false` where that didn't come.
fn keeps_on(mut copier: Copier<MemDevice>, over: &AtomicU64) -> bool {
    for _ in 0..TURNS {
        if over.load(Ordering::SeqCst) > 0 {
            return true;
        }
        if copier.goes_on() == Nowhere {
            thread::yield_now();
        }
    }
    false
}

// Both copiers' threads.
fn both_keep_on<R: Threads>(
    rt: &R,
    first: Copier<MemDevice>,
    second: Copier<MemDevice>,
    over: &AtomicU64,
) -> bool {
    let (a, b) = join(
        rt,
        move || keeps_on(first, over),
        move || keeps_on(second, over),
    );
    a && b
}

// All three threads; then the owner.
fn all_copy<R: Threads + Sync>(rt: &R, stage: Stage, over: &AtomicU64) -> bool {
    let Stage {
        book,
        mut owner,
        first,
        second,
    } = stage;
    let (done, ended) = join(
        rt,
        move || copies_all(book, over),
        move || both_keep_on(rt, first, second, over),
    );
    done && ended && reads_all(&mut owner)
}

// Whether an object lies at a place outside the round, and has its words.
fn reads(owner: &mut Owner<MemDevice>, pointer: u16, len: u16) -> bool {
    match owner.pin(pointer) {
        Reply::Held(place) if place.log >= CHOSEN => has_words(owner, pointer, len),
        _ => false,
    }
}

fn has_words(owner: &mut Owner<MemDevice>, pointer: u16, len: u16) -> bool {
    for index in 0..words_for(len) {
        if owner.load(pointer, index) != Some(word_of(len, index)) {
            return false;
        }
    }
    true
}

// Whether the owner reads the words of all objects outside the round.
fn reads_all(owner: &mut Owner<MemDevice>) -> bool {
    if owner.read_epoch() != Some(1) || !owner.open() {
        return false;
    }
    for pointer in 0..OBJECTS.len() {
        if !reads(owner, pointer as u16, OBJECTS[pointer].0) {
            return false;
        }
    }
    true
}

#[test]
fn copiers_side_by_side(rt: HostRuntime) {
    let over = AtomicU64::new(0);
    let Some(stage) = stage_of(rt.alloc()) else {
        panic!(rt; "no stage is made");
    };
    assert!(rt; all_copy(&rt, stage, &over));
}
