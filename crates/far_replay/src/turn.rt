//! Commands, each made by calls of the evacuator and events of owners.

ghost use Rattle.std.specs.Prelude.{◌≡◌, ◌+◌, ◌<◌, ◌≤◌, true, Some, length, slice_range, IfOk, IfErr, IsSome};
ghost use Rattle.far_word.specs.Sizes.{size_of};
ghost use Rattle.far_word.specs.Pointer.{read_of};
ghost use Rattle.far_events.specs.state.Law.{Law};
ghost use Rattle.far_core.specs.state.Room.{room};
ghost use Rattle.far_events.specs.events.Soil.{after_soil};
ghost use Rattle.far_events.specs.declared.event.Event.{Event};
ghost use Rattle.far_book.specs.book.Fetching.{order_fetched};
ghost use Rattle.far_text.specs.Command.{as_command, as_request, Mutator, Book, New, Open, On, Reads, Writes, Close, Where, Drop, Try, Logs, Log, Audit};
ghost use Rattle.far_replay.specs.Interpreter.{refused_in, IsAccess, IsViewed, StandsFor};
ghost use Rattle.hex.specs.Hex.{IsBytes};
ghost use Rattle.far_text.specs.Written.{WritesBytes};
ghost use Rattle.far_events.specs.events.Ranges.{after_events};
ghost use Rattle.far_reply.specs.Reply.{Data};
ghost use Rattle.far_replay.specs.Spent.{Makes};
ghost use Rattle.far_replay.specs.Outcome.{reply_by, IsInScratch};
ghost use Rattle.far_alone.specs.Between.{Between};
ghost use Rattle.far_replay.specs.Events.{events_for};
ghost use Rattle.far_alone.specs.Events.{first_word, store_events, words_touched};
ghost use Rattle.far_alone.specs.Objects.{data_of, lowest_cell, named_len, with_range};
ghost use Rattle.far_replay.specs.Moment.{KeepsRound, moment_in, state_in};
ghost use Rattle.far_replay.specs.Turn.{effect, access_causes, first_cause, reply_to, refusal, with_new};

use crate::dereferencing::{dereference, open};
use crate::dropping::drop_object;
use crate::epochs::read_epoch;
use crate::inquiries::{audit, find_object, tell_log, tell_logs};
use crate::outcome::{Outcome, Scratch};
use crate::owners::{FarSide, core_of, free_cell, make_event, own_pointer, owner_of};
use crate::rounds::make_step;
use crate::viewing::{try_object, view_object};
use far_book::Plain;
use far_core::Event;
use far_evac::Evac;
use far_text::{Command, Inquiry, Request};
use far_word::{LONGEST, Refused, pointer_len};

/// Some bytes of an object that its owner may reach: the numbers of the owner and the pointer, and the range.
#[derive(Clone, Copy)]
pub struct Access {
    owner: u8,
    pointer: u16,
    from: u16,
    count: u16,
}

// The length of the object that a cell names, near or far.
fn object_len(cell: u64) -> u16
    requires { IsSome (read_of cell) }
    ensures value { result ≡ named_len (read_of cell) }
    ensures most { result ≤ LONGEST }
{
    pointer_len(cell)
}

// The range of a pointer's object that an owner asks for, or why the owner may not reach it.
fn reach(
    evac: &Evac<Plain, FarSide>,
    owner: u8,
    pointer: u64,
    from: u64,
    count: u64,
) -> Result<Access, Refused>
    requires law { Law (state_in evac.now) }
    requires owner { owner < (state_in evac.now).mutators }
    ensures refusal { refused_in result ≡ first_cause (access_causes (moment_in evac.now) owner pointer from count) }
    ensures access { IfOk result (λ a. IsAccess (state_in evac.now) owner pointer from count a) }
{
    if !core_of(evac).is_open(owner) {
        return Err(Refused::Closed);
    }
    let Some(pointer) = own_pointer(evac, owner, pointer) else {
        return Err(Refused::NotHeld);
    };
    let len = u64::from(object_len(core_of(evac).cell(pointer)));
    if count == 0 || from > len || count > len - from {
        return Err(Refused::Range);
    }
    Ok(Access {
        owner,
        pointer,
        from: from as u16,
        count: count as u16,
    })
}

// Reads a range of bytes of an object that is viewed.
fn read_viewed(evac: &Evac<Plain, FarSide>, scratch: &mut Scratch, access: Access) -> Outcome
    requires viewed { IsViewed (state_in evac.now) access }
    ensures reply { reply_by scratch.new result ≡ Data (slice_range (data_of (state_in evac.now) access.pointer) access.from (access.from + access.count)) }
    ensures fits { IsInScratch result }
{
    let count = access.count as usize;
    core_of(evac).load_bytes(
        access.owner,
        access.pointer,
        access.from,
        &mut scratch.bytes[..count],
    );
    Outcome::Data {
        from: 0,
        count: access.count,
    }
}

// Reads a range of bytes.
fn read(evac: &mut Evac<Plain, FarSide>, scratch: &mut Scratch, access: Access) -> Outcome
    requires access { IsAccess (state_in evac.old) access.owner access.pointer access.from access.count access }
    ensures made { Makes evac.old (Mutator access.owner (On access.pointer (Reads access.from access.count))) (reply_by scratch.new result) evac.new }
    ensures fits { IsInScratch result }
{
    match dereference(evac, access.owner, access.pointer) {
        Ok(()) => read_viewed(evac, scratch, access),
        Err(why) => Outcome::Refused(why),
    }
}

// Soils an object that is viewed, unless its owner has soiled it since its scope was opened.
fn soil(evac: &mut Evac<Plain, FarSide>, access: Access)
    requires viewed { IsViewed (state_in evac.old) access }
    ensures state { state_in evac.new ≡ after_soil (state_in evac.old) access.pointer }
    ensures order { evac.new.book.order ≡ evac.old.book.order }
    ensures round { KeepsRound evac.old evac.new }
    ensures device { evac.new.book.device ≡ evac.old.book.device }
{
    if !core_of(evac).is_soiled(access.pointer) {
        evac.soil(access.owner, access.pointer);
    }
}

// Writes bytes over a range of an object that is viewed, and soiled.
fn write_viewed(evac: &mut Evac<Plain, FarSide>, access: Access, bytes: &[u8])
    requires viewed { IsViewed (state_in evac.old) access }
    requires soiled { (state_in evac.old).soiled access.pointer ≡ true }
    requires law { Law (state_in evac.old) }
    requires bytes { length bytes.now ≡ access.count }
    requires small { IsBytes bytes.now }
    ensures state { state_in evac.new ≡ after_events (state_in evac.old) (store_events access.owner access.pointer (first_word access.from) (words_touched access.from access.count) (with_range (data_of (state_in evac.old) access.pointer) access.from bytes.now)) }
    ensures order { evac.new.book.order ≡ evac.old.book.order }
    ensures round { KeepsRound evac.old evac.new }
    ensures device { evac.new.book.device ≡ evac.old.book.device }
{
    evac.store_bytes(access.owner, access.pointer, access.from, bytes);
}

// Writes bytes over a range.
fn write(
    evac: &mut Evac<Plain, FarSide>,
    scratch: &mut Scratch,
    access: Access,
    bytes: &[u8],
) -> Outcome
    requires access { IsAccess (state_in evac.old) access.owner access.pointer access.from access.count access }
    requires bytes { length bytes.now ≡ access.count }
    requires small { IsBytes bytes.now }
    ensures made { Makes evac.old (Mutator access.owner (On access.pointer (Writes access.from bytes.now))) (reply_by scratch.new result) evac.new }
    ensures fits { IsInScratch result }
{
    match dereference(evac, access.owner, access.pointer) {
        Ok(()) => {
            soil(evac, access);
            write_viewed(evac, access, bytes);
            Outcome::Done
        }
        Err(why) => Outcome::Refused(why),
    }
}

// Makes a new object: its pointer, or why there is none.
fn place_new(evac: &mut Evac<Plain, FarSide>, owner: u8, len: u64, ds: u64) -> Result<u16, Refused>
    requires known { owner < (state_in evac.old).mutators }
    ensures refusal { refused_in result ≡ refusal (moment_in evac.old) (Mutator owner (New len ds)) }
    ensures cell { IfOk result (λ pointer. lowest_cell (state_in evac.old) owner ≡ Some pointer) }
    ensures made { IfOk result (λ pointer. state_in evac.new ≡ with_new (state_in evac.old) owner len ds (Some pointer) (room (state_in evac.old) (size_of len) true)) }
    ensures unchanged { IfErr result (λ _. state_in evac.new ≡ state_in evac.old) }
    ensures order { IfOk result (λ _. evac.new.book.order ≡ order_fetched (state_in evac.old) evac.old.book.order (room (state_in evac.old) (size_of len) true)) }
    ensures shut { IfErr result (λ _. evac.new.book.order ≡ evac.old.book.order) }
    ensures round { KeepsRound evac.old evac.new }
    ensures device { evac.new.book.device ≡ evac.old.book.device }
{
    if ds >= 256 {
        return Err(Refused::Range);
    }
    if len == 0 || len > u64::from(LONGEST) {
        return Err(Refused::Length);
    }
    let Some(pointer) = free_cell(evac, owner) else {
        return Err(Refused::NoPointer);
    };
    let Ok(_) = evac.place(pointer, len as u16, ds as u8) else {
        return Err(Refused::NoRoom);
    };
    make_event(evac, Event::Adopt { owner, pointer });
    Ok(pointer)
}

// Makes a new object.
fn make_object(evac: &mut Evac<Plain, FarSide>, owner: u8, len: u64, ds: u64) -> Outcome
    requires known { owner < (state_in evac.old).mutators }
    requires between { Between (state_in evac.old) }
    requires law { Law (state_in evac.old) }
    ensures state { state_in evac.new ≡ after_events (state_in evac.old) (events_for (moment_in evac.old) (Mutator owner (New len ds))) }
    ensures reply { StandsFor result (reply_to (moment_in evac.old) (Mutator owner (New len ds))) }
    ensures fits { IsInScratch result }
    ensures order { evac.new.book.order ≡ (effect (moment_in evac.old) (Mutator owner (New len ds))).order }
    ensures round { KeepsRound evac.old evac.new }
    ensures device { evac.new.book.device ≡ evac.old.book.device }
{
    match place_new(evac, owner, len, ds) {
        Ok(pointer) => Outcome::Pointer(pointer),
        Err(why) => Outcome::Refused(why),
    }
}

// Opens an owner's scope.
fn open_scope(evac: &mut Evac<Plain, FarSide>, owner: u8) -> Outcome
    requires known { owner < (state_in evac.old).mutators }
    ensures state { state_in evac.new ≡ after_events (state_in evac.old) (events_for (moment_in evac.old) (Mutator owner Open)) }
    ensures reply { StandsFor result (reply_to (moment_in evac.old) (Mutator owner Open)) }
    ensures fits { IsInScratch result }
    ensures order { evac.new.book.order ≡ evac.old.book.order }
    ensures round { KeepsRound evac.old evac.new }
    ensures device { evac.new.book.device ≡ evac.old.book.device }
{
    if core_of(evac).is_open(owner) {
        return Outcome::Refused(Refused::AlreadyOpen);
    }
    open(evac, owner);
    Outcome::Done
}

// Closes an owner's scope.
fn close_scope(evac: &mut Evac<Plain, FarSide>, owner: u8) -> Outcome
    requires known { owner < (state_in evac.old).mutators }
    ensures state { state_in evac.new ≡ after_events (state_in evac.old) (events_for (moment_in evac.old) (Mutator owner Close)) }
    ensures reply { StandsFor result (reply_to (moment_in evac.old) (Mutator owner Close)) }
    ensures fits { IsInScratch result }
    ensures order { evac.new.book.order ≡ evac.old.book.order }
    ensures round { KeepsRound evac.old evac.new }
    ensures device { evac.new.book.device ≡ evac.old.book.device }
{
    if !core_of(evac).is_open(owner) {
        return Outcome::Refused(Refused::Closed);
    }
    make_event(evac, Event::Close { owner });
    Outcome::Done
}

// Reads a range of an owner's object.
fn read_range(
    evac: &mut Evac<Plain, FarSide>,
    scratch: &mut Scratch,
    owner: u8,
    pointer: u64,
    from: u64,
    len: u64,
) -> Outcome
    requires known { owner < (state_in evac.old).mutators }
    requires law { Law (state_in evac.old) }
    ensures made { Makes evac.old (Mutator owner (On pointer (Reads from len))) (reply_by scratch.new result) evac.new }
    ensures fits { IsInScratch result }
{
    match reach(evac, owner, pointer, from, len) {
        Ok(access) => read(evac, scratch, access),
        Err(why) => Outcome::Refused(why),
    }
}

// Writes bytes over a range of an owner's object.
fn write_range(
    evac: &mut Evac<Plain, FarSide>,
    scratch: &mut Scratch,
    owner: u8,
    pointer: u64,
    from: u64,
    bytes: &[u8],
) -> Outcome
    requires known { owner < (state_in evac.old).mutators }
    requires law { Law (state_in evac.old) }
    requires small { IsBytes bytes.now }
    ensures made { Makes evac.old (Mutator owner (On pointer (Writes from bytes.now))) (reply_by scratch.new result) evac.new }
    ensures fits { IsInScratch result }
{
    match reach(evac, owner, pointer, from, bytes.len() as u64) {
        Ok(access) => write(evac, scratch, access, bytes),
        Err(why) => Outcome::Refused(why),
    }
}

// Makes the events of an owner's request, and answers what it comes to.
fn make_request(
    evac: &mut Evac<Plain, FarSide>,
    scratch: &mut Scratch,
    owner: u8,
    request: Request,
) -> Outcome
    requires known { owner < (state_in evac.old).mutators }
    requires between { Between (state_in evac.old) }
    requires law { Law (state_in evac.old) }
    requires small { WritesBytes (Mutator owner (as_request request)) }
    ensures made { Makes evac.old (Mutator owner (as_request request.entry)) (reply_by scratch.new result) evac.new }
    ensures fits { IsInScratch result }
{
    match request {
        Request::New { len, structure } => make_object(evac, owner, len, structure),
        Request::Open => open_scope(evac, owner),
        Request::Write {
            pointer,
            from,
            bytes,
        } => write_range(evac, scratch, owner, pointer, from, bytes),
        Request::Read { pointer, from, len } => {
            read_range(evac, scratch, owner, pointer, from, len)
        }
        Request::Close => close_scope(evac, owner),
        Request::Where { pointer } => find_object(evac, scratch, owner, pointer),
        Request::Drop { pointer } => drop_object(evac, owner, pointer),
        Request::View { pointer } => view_object(evac, owner, pointer),
        Request::Try { pointer } => try_object(evac, owner, pointer),
        Request::Epoch => read_epoch(evac, owner),
    }
}

/// Makes one command, and answers what it comes to, also where memory is refused, or the device fails or lies, in its midst.
pub fn turn(evac: &mut Evac<Plain, FarSide>, scratch: &mut Scratch, command: &Command) -> Outcome
    requires between { Between (state_in evac.old) }
    requires law { Law (state_in evac.old) }
    requires small { WritesBytes (as_command command.now) }
    ensures made { Makes evac.old (as_command command.now) (reply_by scratch.new result) evac.new }
    ensures fits { IsInScratch result }
{
    match *command {
        Command::Mutator { mutator, request } => {
            let Some(owner) = owner_of(evac, mutator) else {
                return Outcome::Refused(Refused::Range);
            };
            make_request(evac, scratch, owner, request)
        }
        Command::Book(Inquiry::Logs) => {
            tell_logs(evac, &mut scratch.lines);
            Outcome::Logs(core_of(evac).logs())
        }
        Command::Book(Inquiry::Log { log }) => tell_log(evac, scratch, log),
        Command::Book(Inquiry::Audit) => audit(evac, scratch),
        Command::Evacuator(step) => {
            make_step(evac, scratch, step);
            Outcome::Stepped
        }
    }
}
