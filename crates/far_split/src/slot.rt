//! A mutator between two of its lines, and how its requests are made by the heap's calls.

ghost use Rattle.std.specs.Prelude.{◌≡◌, true, false, IfOk};
ghost use Rattle.far_text.specs.Command.{as_request, Drop, New, Open, On, Reads, Writes, Views, Try};
ghost use Rattle.far_text.specs.Threads.{is_own};
ghost use Rattle.far_split.specs.Slots.{Answers, mine_in, needs_scope};
ghost use Rattle.far_split.specs.Told.{as_reply};

use crate::access::{pointer_of, reach, sizes_of};
use crate::told::Answer;
use far_heap::{HeapName, Mutator, Scope, Tried};
use far_replay::FarSide;
use far_text::Request;
use far_word::Refused;
use std::alloc::{AllocError, Global};
use std::sync::Wait;

/// A mutator whose scope is closed or open.
#[derive(Drop)]
pub(crate) enum Slot<K: HeapName> {
    Closed(Mutator<K, FarSide>),
    Open(Scope<K, FarSide>),
}

// Makes a new object.
fn make_closed<K: HeapName, R: Wait>(
    rt: &R,
    mutator: &mut Mutator<K, FarSide>,
    len: u64,
    structure: u64,
) -> Answer
    ensures { Answers K.heap mutator.old (New len structure) (as_reply result) mutator.new }
{
    let (len, structure) = match sizes_of(len, structure) {
        Ok(sizes) => sizes,
        Err(why) => return Answer::Refused(why),
    };
    mutator.keeps_law();
    match mutator.alloc(rt, len, structure) {
        Ok(pointer) => Answer::Pointer(pointer),
        Err(why) => Answer::Refused(why),
    }
}

// Makes a new object, which the open scope doesn't view yet.
fn make_open<K: HeapName, R: Wait>(
    rt: &R,
    scope: &mut Scope<K, FarSide>,
    len: u64,
    structure: u64,
) -> Answer
    ensures { Answers K.heap scope.old (New len structure) (as_reply result) scope.new }
{
    let (len, structure) = match sizes_of(len, structure) {
        Ok(sizes) => sizes,
        Err(why) => return Answer::Refused(why),
    };
    scope.keeps_law();
    match scope.alloc(rt, len, structure) {
        Ok(pointer) => Answer::Pointer(pointer),
        Err(why) => Answer::Refused(why),
    }
}

// Drops an object.
fn drop_closed<K: HeapName, R: Wait>(
    rt: &R,
    mutator: &mut Mutator<K, FarSide>,
    pointer: u64,
) -> Answer
    ensures { Answers K.heap mutator.old (Drop pointer) (as_reply result) mutator.new }
{
    mutator.keeps_law();
    let Some(pointer) = pointer_of(pointer) else {
        return Answer::Refused(Refused::NotHeld);
    };
    match mutator.drop_object(rt, pointer) {
        Ok(()) => Answer::Done,
        Err(why) => Answer::Refused(why),
    }
}

// Drops an object that the open scope doesn't view.
fn drop_open<K: HeapName, R: Wait>(rt: &R, scope: &mut Scope<K, FarSide>, pointer: u64) -> Answer
    ensures { Answers K.heap scope.old (Drop pointer) (as_reply result) scope.new }
{
    scope.keeps_law();
    let Some(pointer) = pointer_of(pointer) else {
        return Answer::Refused(Refused::NotHeld);
    };
    match scope.drop_object(rt, pointer) {
        Ok(()) => Answer::Done,
        Err(why) => Answer::Refused(why),
    }
}

// Views an object, wherever it is.
fn view<K: HeapName, R: Wait>(rt: &R, scope: &mut Scope<K, FarSide>, pointer: u64) -> Answer
    ensures { Answers K.heap scope.old (On pointer Views) (as_reply result) scope.new }
{
    scope.keeps_law();
    let Some(pointer) = pointer_of(pointer) else {
        return Answer::Refused(Refused::NotHeld);
    };
    match scope.view(rt, pointer) {
        Ok(_) => Answer::Done,
        Err(why) => Answer::Refused(why),
    }
}

// Views an object, if no mark and no way from the far side hinders it.
fn try_view<K: HeapName>(scope: &mut Scope<K, FarSide>, pointer: u64) -> Answer
    ensures { Answers K.heap scope.old (Try pointer) (as_reply result) scope.new }
{
    scope.keeps_law();
    let Some(pointer) = pointer_of(pointer) else {
        return Answer::Refused(Refused::NotHeld);
    };
    match scope.try_view(pointer) {
        Ok(Tried::View(_)) => Answer::Done,
        Ok(Tried::Slow(word)) => Answer::Refused(Refused::Marked(word)),
        Err(why) => Answer::Refused(why),
    }
}

// Reads some bytes of an object. The room for them is taken first; where that is refused, nothing is done.
fn read<K: HeapName, R: Wait>(
    alloc: Global,
    rt: &R,
    scope: &mut Scope<K, FarSide>,
    pointer: u64,
    from: u64,
    len: u64,
) -> Result<Answer, AllocError>
    ensures { IfOk result (λ told. Answers K.heap scope.old (On pointer (Reads from len)) (as_reply told) scope.new) }
{
    scope.keeps_law();
    let access = match reach(scope, pointer, from, len) {
        Ok(access) => access,
        Err(why) => return Ok(Answer::Refused(why)),
    };
    let mut bytes = vec![in alloc; 0; access.count as usize]?;
    let view = match scope.view(rt, access.pointer) {
        Ok(view) => view,
        Err(why) => return Ok(Answer::Refused(why)),
    };
    let Ok(()) = scope.read(&view, access.from, &mut bytes) else {
        unreachable!()
    };
    Ok(Answer::Data(bytes))
}

// Writes bytes over some of an object's.
fn write<K: HeapName, R: Wait>(
    rt: &R,
    scope: &mut Scope<K, FarSide>,
    pointer: u64,
    from: u64,
    bytes: &[u8],
) -> Answer
    ensures { Answers K.heap scope.old (On pointer (Writes from bytes.now)) (as_reply result) scope.new }
{
    scope.keeps_law();
    let access = match reach(scope, pointer, from, bytes.len() as u64) {
        Ok(access) => access,
        Err(why) => return Answer::Refused(why),
    };
    let view = match scope.view(rt, access.pointer) {
        Ok(view) => view,
        Err(why) => return Answer::Refused(why),
    };
    let Ok(()) = scope.write(&view, access.from, bytes) else {
        unreachable!()
    };
    Answer::Done
}

// A request that wants an open scope is refused while it is closed.
fn refuse_closed<K: HeapName>(mutator: &Mutator<K, FarSide>, request: Request<'_>) -> Answer
    requires wants { needs_scope (as_request request) ≡ true }
    ensures { Answers K.heap mutator.now (as_request request.entry) (as_reply result) mutator.now }
{
    mutator.keeps_law();
    let _ = request;
    Answer::Refused(Refused::Closed)
}

// A scope that is open isn't opened again.
fn refuse_open<K: HeapName>(scope: &Scope<K, FarSide>) -> Answer
    ensures { Answers K.heap scope.now Open (as_reply result) scope.now }
{
    scope.keeps_law();
    Answer::Refused(Refused::AlreadyOpen)
}

// Answers a mutator's request while its scope is closed.
fn answer_closed<K: HeapName, R: Wait>(
    rt: &R,
    mut mutator: Mutator<K, FarSide>,
    request: Request<'_>,
) -> (Slot<K>, Answer)
    requires own { is_own (as_request request) ≡ true }
    ensures { Answers K.heap mutator (as_request request.entry) (as_reply result.1) (mine_in result.0) }
{
    mutator.keeps_law();
    let told = match request {
        Request::Open => return (Slot::Open(mutator.open()), Answer::Done),
        Request::New { len, structure } => make_closed(rt, &mut mutator, len, structure),
        Request::Drop { pointer } => drop_closed(rt, &mut mutator, pointer),
        Request::Close
        | Request::Read { .. }
        | Request::Write { .. }
        | Request::View { .. }
        | Request::Try { .. } => refuse_closed(&mutator, request),
        Request::Where { .. } | Request::Epoch => unreachable!(),
    };
    (Slot::Closed(mutator), told)
}

// Answers a mutator's request while its scope is open.
fn answer_open<K: HeapName, R: Wait>(
    alloc: Global,
    rt: &R,
    mut scope: Scope<K, FarSide>,
    request: Request<'_>,
) -> Result<(Slot<K>, Answer), AllocError>
    requires own { is_own (as_request request) ≡ true }
    ensures { IfOk result (λ made. Answers K.heap scope (as_request request.entry) (as_reply made.1) (mine_in made.0)) }
{
    scope.keeps_law();
    let told = match request {
        Request::Close => return Ok((Slot::Closed(scope.close()), Answer::Done)),
        Request::Open => refuse_open(&scope),
        Request::New { len, structure } => make_open(rt, &mut scope, len, structure),
        Request::Drop { pointer } => drop_open(rt, &mut scope, pointer),
        Request::View { pointer } => view(rt, &mut scope, pointer),
        Request::Try { pointer } => try_view(&mut scope, pointer),
        Request::Read { pointer, from, len } => { read(alloc, rt, &mut scope, pointer, from, len)? }
        Request::Write {
            pointer,
            from,
            bytes,
        } => write(rt, &mut scope, pointer, from, bytes),
        Request::Where { .. } | Request::Epoch => unreachable!(),
    };
    Ok((Slot::Open(scope), told))
}

impl<K: HeapName> Slot<K> {
    /// Makes one of the requests that a mutator may have in a thread of its own: what it is answered. `Err` where there is no room for the bytes of a read: then nothing was done.
    pub(crate) fn answer<R: Wait>(
        self,
        alloc: Global,
        rt: &R,
        request: Request<'_>,
    ) -> Result<(Slot<K>, Answer), AllocError>
        requires own { is_own (as_request request) ≡ true }
        ensures { IfOk result (λ made. Answers K.heap (mine_in self) (as_request request.entry) (as_reply made.1) (mine_in made.0)) }
    {
        match self {
            Slot::Closed(mutator) => Ok(answer_closed(rt, mutator, request)),
            Slot::Open(scope) => answer_open(alloc, rt, scope, request),
        }
    }
}
