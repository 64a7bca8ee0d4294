//! A book on which a test is played, act by act.

ghost use Rattle.std.specs.Prelude.{◌≡◌};

use crate::tests::acts::{ADOPT, Act, IDLE, MOVE, OPEN, READ, SMALL};
use crate::tests::calls::{
    begins_none, clears, evicts, fetches, finds_from, has_live, has_rows, has_spans, home, is_log,
    looks, marks, moves, place_next, places_many, releases, retires,
};
use crate::tests::devices::{Flaw, Flawed, Sight};
use crate::tests::jobs::{has_job, marks_many, offers_in_round, takes_back, waits};
use crate::tests::owning::{
    asks, begins, is_first, loads, makes_all, store_word, stores, words_of,
};
use far_book::{Beset, Book, Home, Near, Plain};
use far_core::{Core, Event, Shape};
use far_device::{Device, MemDevice};
use far_word::{Marks, Place, Refused};

/// A row of a test beside owners: so many turns after they asked for pointer 0 to move they make these events, one a turn; and these acts are to come out.
pub(super) type Beside = (u16, &'static [Event], &'static [Act]);

/// So many turns in which others do nothing, and then these events, one a turn.
pub(super) type Then = (u16, &'static [Event]);

/// A row of a test beside others: what they do, and these acts, which are to come out.
pub(super) type ByTurns = (&'static [Then], &'static [Act]);

// A book over a device with this flaw. The core is told whether it is honest.
#[tactic(auto, using(crate::proofs::Uses::at_start))]
fn opened<'s>(
    rt: &HostRuntime,
    shape: Shape,
    flaw: Flaw,
    sight: &'s Sight,
) -> Result<Book<Plain, Flawed<'s>>, Refused> {
    let honest = !matches!(flaw, Flaw::Lying(_));
    let core = Core::new(rt.alloc(), shape, honest)?;
    let device = Flawed {
        inner: MemDevice::new(rt.alloc()),
        flaw,
        honest,
        faults: 0,
        sight,
    };
    Book::new(rt.alloc(), Plain { core }, device)
}

// A book over a device without a flaw, beside whose calls owners make these events.
#[tactic(auto, using(crate::proofs::Uses::beset_start))]
fn beset<'s>(
    rt: &HostRuntime,
    events: Vec<Event>,
    sight: &'s Sight,
) -> Result<Book<Beset, Flawed<'s>>, Refused> {
    let core = Core::new(rt.alloc(), SMALL, true)?;
    let hand = Beset::new(rt.alloc(), core, events)?;
    let device = Flawed {
        inner: MemDevice::new(rt.alloc()),
        flaw: Flaw::Nothing,
        honest: true,
        faults: 0,
        sight,
    };
    Book::new(rt.alloc(), hand, device)
}

// Whether a call answers what it should.
fn same<T: PartialEq + Copy>(found: T, wanted: T) -> bool {
    found == wanted
}

// Whether a call of the book comes out as it should.
fn book_does<N: Near + Drop, D: Device + Drop>(book: &mut Book<N, D>, act: Act) -> bool {
    match act {
        Act::Makes(len, pointer, (log, at)) => {
            same(place_next(book, len, 1), Ok((pointer, Place { log, at })))
        }
        Act::MakesMany(objects, len, ds) => places_many(book, objects, len, ds),
        Act::MakesNone(why) => same(place_next(book, 8, 1), Err(why)),
        Act::Retires(pointer, done) => retires(book, pointer) == done,
        Act::Moves(pointer, placed) => same(moves(book, pointer), placed),
        Act::Evicts(pointer, far) => same(evicts(book, pointer), far),
        Act::Fetches(pointer, placed) => same(fetches(book, pointer), placed),
        _ => round_does(book, act),
    }
}

// The same of a call of a round.
fn round_does<N: Near + Drop, D: Device + Drop>(book: &mut Book<N, D>, act: Act) -> bool {
    match act {
        Act::Marks(pointer, word) => same(marks(book, pointer), word),
        Act::Clears(pointer, word) => same(clears(book, pointer), word),
        Act::Releases(log, given) => same(releases(book, log), given),
        Act::BeginsNone(epoch) => same(begins_none(book), epoch),
        Act::Looks(owner, scope) => same(looks(book, owner), scope),
        Act::Live(log, spans) => has_live(book, log, spans),
        Act::From(number, span) => finds_from(book, number, span),
        _ => jobs_do(book, act),
    }
}

// The same of a call on jobs.
fn jobs_do<N: Near + Drop, D: Device + Drop>(book: &mut Book<N, D>, act: Act) -> bool {
    match act {
        Act::MarksMany(pointers) => marks_many(book, pointers),
        Act::Offers(wanted) => offers_in_round(book, wanted),
        Act::Collects(named) => book.collect() == named,
        Act::TakesBack => takes_back(book),
        Act::HasJob(pointer, has) => same(has_job(book, pointer), has),
        Act::Waits(turns) => waits(book, turns),
        _ => shows(book, act),
    }
}

// Whether an object is near, at a place of a log and with these marks.
fn is_near<N: Near + Drop, D: Device + Drop>(
    book: &mut Book<N, D>,
    pointer: u16,
    lies: (u8, u16),
    marks: Marks,
) -> bool {
    let (log, at) = lies;
    let place = Place { log, at };
    same(home(book, pointer), Some(Home::Near { place, marks }))
}

// The same of a look at the book.
fn shows<N: Near + Drop, D: Device + Drop>(book: &mut Book<N, D>, act: Act) -> bool {
    match act {
        Act::Near(pointer, at, marks) => is_near(
            book,
            pointer,
            at,
            Marks {
                dirty: true,
                ..marks
            },
        ),
        Act::Clean(pointer, at, marks) => is_near(book, pointer, at, marks),
        Act::Far(pointer, marks) => same(home(book, pointer), Some(Home::Far { marks })),
        Act::Gone(pointer) => home(book, pointer).is_none(),
        Act::Log(log, kind, bytes) => is_log(book, log, kind, bytes),
        Act::Rows(rows) => has_rows(book, rows),
        Act::Spans(spans) => has_spans(book, spans),
        Act::Is(shape) => book.shape() == shape,
        _ => false,
    }
}

// Whether an act of the first owner comes out as it should, or one of the book.
fn owner_does<D: Device + Drop>(book: &mut Book<Plain, D>, act: Act) -> bool {
    match act {
        Act::Owns(event, reply) => same(book.owner(event), reply),
        Act::Does(events) => makes_all(book, events),
        Act::Asks(pointer, mark) => asks(book, pointer, mark),
        Act::Stores(pointer, len) => stores(book, pointer, len),
        Act::Loads(pointer, len) => loads(book, pointer, len),
        Act::Leaves(len) => leaves(book, len),
        Act::StoresOne(index, word, done) => store_word(book, 0, index, word) == done,
        Act::Words(words) => same(words_of(book, 0), words),
        _ => core_shows(book, act),
    }
}

// The same of a look at the core, or of the book.
fn core_shows<D: Device + Drop>(book: &mut Book<Plain, D>, act: Act) -> bool {
    match act {
        Act::FirstLog(kind, bytes) => is_first(book, kind, bytes),
        Act::Cell(pointer, word) => book.core().cell(pointer) == word,
        Act::InRound(log, is_in) => book.core().is_in_round(log) == is_in,
        Act::IsClear(owner, is_clear) => book.core().is_clear(owner) == is_clear,
        Act::Begins(logs, epoch) => same(begins(book, logs), epoch),
        _ => book_does(book, act),
    }
}

// Whether pointer 0 is an object of so many counted bytes in log 0, which is sealed, and has HOT, EVAC and MOVE.
fn leaves<D: Device + Drop>(book: &mut Book<Plain, D>, len: u16) -> bool {
    place_next(book, len, 1).is_ok()
        && stores(book, 0, len)
        && place_next(book, 4088, 1).is_ok()
        && marks(book, 0).is_some()
        && makes_all(book, &[MOVE])
}

// Whether a look at the device shows what it should; `None` for any other act.
fn is_seen(sight: &Sight, act: Act) -> Option<bool> {
    match act {
        Act::Holds(holds) => Some(sight.holds.get() == holds),
        Act::Lent(room) => Some(sight.least.get() == room),
        _ => None,
    }
}

// Whether each of these acts comes out as it should.
fn does_all<D: Device + Drop>(book: &mut Book<Plain, D>, sight: &Sight, acts: &[Act]) -> bool {
    for act in acts {
        let done = match is_seen(sight, *act) {
            Some(seen) => seen,
            None => owner_does(book, *act),
        };
        if !done {
            return false;
        }
    }
    true
}

// The same beside owners at work.
fn does_beside<D: Device + Drop>(book: &mut Book<Beset, D>, sight: &Sight, acts: &[Act]) -> bool {
    for act in acts {
        let done = match is_seen(sight, *act) {
            Some(seen) => seen,
            None => book_does(book, *act),
        };
        if !done {
            return false;
        }
    }
    true
}

// The same of each part.
fn does_parts<D: Device + Drop>(
    book: &mut Book<Plain, D>,
    sight: &Sight,
    parts: &[&[Act]],
) -> bool {
    for part in parts {
        if !does_all(book, sight, part) {
            return false;
        }
    }
    true
}

/// Whether each act, part by part, comes out as it should on a new book of this shape over a device with this flaw.
pub(super) fn plays_over(rt: &HostRuntime, shape: Shape, flaw: Flaw, parts: &[&[Act]]) -> bool {
    let sight = Sight::new();
    match opened(rt, shape, flaw, &sight) {
        Ok(mut book) => does_parts(&mut book, &sight, parts),
        Err(_) => false,
    }
}

/// The same of four logs and a device without a flaw.
pub(super) fn plays_parts(rt: &HostRuntime, parts: &[&[Act]]) -> bool {
    plays_over(rt, SMALL, Flaw::Nothing, parts)
}

/// The same of one part.
pub(super) fn plays(rt: &HostRuntime, acts: &[Act]) -> bool {
    plays_parts(rt, &[acts])
}

// The same beside owners that make these events.
fn plays_with(rt: &HostRuntime, events: Vec<Event>, first: &[Act], acts: &[Act]) -> bool {
    let sight = Sight::new();
    match beset(rt, events, &sight) {
        Ok(mut book) => {
            does_beside(&mut book, &sight, first) && does_beside(&mut book, &sight, acts)
        }
        Err(_) => false,
    }
}

/// The same where owners make these events, one before each step of the book.
pub(super) fn plays_beside(rt: &HostRuntime, events: &[Event], acts: &[Act]) -> bool {
    let mut all = Vec::new(rt.alloc());
    if all.extend_from_slice(events).is_err() {
        return false;
    }
    plays_with(rt, all, acts, &[])
}

// The first owner opens its scope, takes pointer 0 over once it is placed, and asks for it to move; so many turns later it makes these events.
fn fills(events: &mut Vec<Event>, turns: u16, then: &[Event]) -> bool {
    events
        .extend_from_slice(&[READ, OPEN, IDLE, ADOPT, MOVE])
        .is_ok()
        && events.resize(5 + turns as usize, IDLE).is_ok()
        && events.extend_from_slice(then).is_ok()
}

// Pointer 0 is an object of 8 bytes in log 0, which another one seals, and is marked, with MOVE.
const MARKED_FIRST: &[Act] = &[
    Act::Makes(8, 0, (0, 0)),
    Act::Makes(4088, 1, (1, 0)),
    Act::Marks(0, Some(0x9600_0000_0001_0008)),
];

// Whether one row comes out, where so many turns pass before its first.
fn plays_row(rt: &HostRuntime, turns: u16, row: Beside) -> bool {
    let (step, then, acts) = row;
    let mut all = Vec::new(rt.alloc());
    if !fills(&mut all, turns.saturating_add(step), then) {
        return false;
    }
    plays_with(rt, all, MARKED_FIRST, acts)
}

/// Whether each row does, where so many turns pass before its first. Pointer 0 has been placed and marked, in 517 of them; the second object takes 513
/// steps, the marking two.
pub(super) fn plays_rows(rt: &HostRuntime, turns: u16, rows: &[Beside]) -> bool {
    for row in rows {
        if !plays_row(rt, turns, *row) {
            return false;
        }
    }
    true
}

// So many turns pass, and then others make these events; and so on, for each of the list.
fn fills_by(events: &mut Vec<Event>, turns: &[Then]) -> bool {
    for (count, then) in turns {
        let all = events.len().saturating_add(*count as usize);
        if events.resize(all, IDLE).is_err() || events.extend_from_slice(then).is_err() {
            return false;
        }
    }
    true
}

// Whether one row comes out, where so many turns pass before its first.
fn plays_turns(rt: &HostRuntime, first: &[Act], turns: u16, row: ByTurns) -> bool {
    let (then, acts) = row;
    let mut all = Vec::new(rt.alloc());
    fills_by(&mut all, &[(turns, &[])])
        && fills_by(&mut all, then)
        && plays_with(rt, all, first, acts)
}

/// Whether each row does, each on a book of its own, of which these acts come first, in so many turns.
pub(super) fn plays_by_turns(
    rt: &HostRuntime,
    first: &[Act],
    turns: u16,
    rows: &[ByTurns],
) -> bool {
    for row in rows {
        if !plays_turns(rt, first, turns, *row) {
            return false;
        }
    }
    true
}
