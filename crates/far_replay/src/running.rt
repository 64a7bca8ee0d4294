//! A whole run: a text in, replies out.

ghost use Rattle.std.specs.Prelude.{◌≡◌, ◌≢◌, ◌<◌, ◌∷◌, ◌++◌, ℕ, Option, true, false, cond, List, length, slice_index, take, Ok, Err, IfOk, IfErr, IfSome, OnOk};
ghost use Rattle.far_reply.specs.Reply.{refusal_text, Reply as Answer, reply_text};
ghost use Rattle.far_replay.specs.Outcome.{reply_by, told_by, IsInScratch};
ghost use Rattle.far_reply.specs.Stream.{Holds, Writes};
ghost use Rattle.std.specs.List.{flat_map};
ghost use Rattle.far_events.specs.state.Opening.{opening};
ghost use Rattle.far_events.specs.state.Shape.{is_shape};
ghost use Rattle.far_replay.specs.Moment.{Moment, moment_in, moment_of, state_in};
ghost use Rattle.std.specs.Option.{option_map};
ghost use Rattle.far_text.specs.Command.{as_device, Heap};
ghost use Rattle.far_replay.specs.Flawed.{IsFlawed};
ghost use Rattle.far_replay.specs.Answers.{AnsweredBy, ByDevice, opened, flaws, is_true, lie_of, Outside, MayMakeHeap, WritesOutput, WritesAnswer, LeavesBehind, Leaves, end_of};
ghost use Rattle.far_text.specs.declared.text.TheConstants.{LONGEST_TEXT};
ghost use Rattle.far_text.specs.Grammar.{trace_of};
ghost use Rattle.far_text.specs.Parsed.{as_trace};
ghost use Rattle.far_alone.specs.Between.{Between};
ghost use Rattle.far_evac.specs.MomentLaw.{MomentLaw};
ghost use Rattle.far_evac.specs.Strays.{NoneStrays};

use crate::far_side::far_side_of;
use crate::outcome::{Outcome, Scratch};
use crate::owners::FarSide;
use crate::turn::turn;
use far_book::{Book, Plain};
use far_core::{Core, Shape};
use far_evac::Evac;
use far_reply::{Reply, ReplyWriter, WriteFault, read_text};
use far_text::{Commands, Device, Flaw, LONGEST_TEXT, ParseError, Trace, parse};
use far_word::Refused;
use std::alloc::{AllocError, Global};
use std::io::{Read, Write};
use thiserror::Error;

/// How a run ended.
#[derive(Clone, Copy, Debug, PartialEq, Eq)]
pub enum End {
    /// Each command was answered, if only by a refusal; or the text says nothing.
    Ran,
    /// The text or the heap's shape was refused, and nothing ran.
    Refused,
}

/// Why a run did not end.
#[derive(Clone, Copy, Debug, PartialEq, Eq, Error)]
pub enum RunFault {
    #[error("read fault")]
    Read,
    #[error("write fault")]
    Write,
    #[error("memory")]
    Memory,
}

impl From<WriteFault> for RunFault {
    ghost use Rattle.std.specs.Prelude.{◌≡◌};
    ghost use Rattle.far_replay.specs.declared.running.RunFault.TheVariants.{Write};

    ghost from_gives = { λ _ e. e ≡ Write };

    fn from(_e: WriteFault) -> RunFault {
        RunFault::Write
    }
}

impl From<AllocError> for RunFault {
    ghost use Rattle.std.specs.Prelude.{◌≡◌};
    ghost use Rattle.far_replay.specs.declared.running.RunFault.TheVariants.{Memory};

    ghost from_gives = { λ _ e. e ≡ Memory };

    fn from(_e: AllocError) -> RunFault {
        RunFault::Memory
    }
}

/// All that the reader has, as far as `most` bytes. All memory is taken before the first read.
///
/// Faults: [`RunFault::Memory`] where memory is refused, and [`RunFault::Read`] where the reader fails, any error of it.
pub fn read_whole<R: Read>(alloc: Global, reader: &mut R, most: usize) -> Result<Vec<u8>, RunFault>
    ensures read { IfOk result (λ v. IfSome (R.remaining reader.old) (λ text. v.items ≡ take most text)) }
    ensures fault { result ≢ Err RunFault.Write }
{
    let mut buffer = Vec::with_capacity(alloc, most)?;
    read_text(reader, &mut buffer, most).map_err(|_| RunFault::Read)?;
    Ok(buffer)
}

// Writes one refusal, and nothing else.
fn refuse<W: Write>(
    writer: &mut W,
    replies: &mut ReplyWriter,
    why: Refused,
) -> Result<(), WriteFault>
    ensures { Writes (W.contents writer.old) (W.contents writer.new) result (refusal_text why) }
{
    replies.clear();
    replies.add(writer, &Reply::Refused(why));
    replies.finish(writer)
}

// Adds the reply to a step of the evacuator to those that wait. It stands apart: made in place, it would have each other reply put
// together in memory.
#[inline(never)]
fn answer_step<W: Write>(writer: &mut W, replies: &mut ReplyWriter, scratch: &Scratch)
    ensures { (start : Option (List ℕ)) (bytes : List ℕ) → Holds start (W.contents writer.old) replies.old.waiting replies.old.written bytes
        → Holds start (W.contents writer.new) replies.new.waiting replies.new.written (bytes ++ reply_text (told_by scratch.now scratch.now.stepped)) }
{
    replies.add(writer, &scratch.step_reply());
}

// Adds the reply to a command to those that wait.
#[inline(always)]
fn answer_one<W: Write>(
    writer: &mut W,
    replies: &mut ReplyWriter,
    scratch: &Scratch,
    outcome: Outcome,
)
    requires { IsInScratch outcome }
    ensures { (start : Option (List ℕ)) (bytes : List ℕ) → Holds start (W.contents writer.old) replies.old.waiting replies.old.written bytes
        → Holds start (W.contents writer.new) replies.new.waiting replies.new.written (bytes ++ reply_text (reply_by scratch.now outcome)) }
{
    match outcome {
        Outcome::Stepped => answer_step(writer, replies, scratch),
        outcome => replies.add(writer, &scratch.reply(outcome)),
    }
}

// Begins the replies with that to the heap, and that to its device if it was said.
fn answer_opening<W: Write>(writer: &mut W, replies: &mut ReplyWriter, device: Option<Device>)
    ensures { Holds (W.contents writer.old) (W.contents writer.new) replies.new.waiting replies.new.written (flat_map reply_text (opened (option_map as_device device))) }
{
    replies.clear();
    replies.add(writer, &Reply::Done);
    if let Some(_) = device {
        replies.add(writer, &Reply::Done);
    }
}

// Makes the commands after the heap, and writes their replies. Once a write has failed it makes them without writing.
fn answer_commands<W: Write>(
    writer: &mut W,
    replies: &mut ReplyWriter,
    evac: Evac<Plain, FarSide>,
    scratch: &mut Scratch,
    device: Option<Device>,
    commands: &Commands,
) -> Result<(), WriteFault>
    requires between { Between (state_in evac) }
    requires round { MomentLaw (moment_in evac) }
    requires alone { evac.copying ≡ false }
    requires strays { NoneStrays (moment_in evac) }
    requires flawed { IsFlawed (option_map as_device device) evac.book.device }
    ensures { (outside : List Outside) × (replies : List Answer) × (moments : List Moment) × ByDevice (lie_of (option_map as_device device)) (flaws (option_map as_device device)) outside (moment_in evac) commands.now moments × AnsweredBy outside (moment_in evac) commands.now replies moments
        × Writes (W.contents writer.old) (W.contents writer.new) result (flat_map reply_text (opened (option_map as_device device) ++ replies)) }
{
    let mut evac = evac;
    answer_opening(writer, replies, device);
    for at in 0..commands.len() {
        let command = commands.at(at);
        let outcome = turn(&mut evac, scratch, &command);
        answer_one(writer, replies, scratch, outcome);
    }
    replies.finish(writer)
}

// Whether what is read of a heap's device is always what was written.
fn tells_truth(device: Option<Device>) -> bool
    ensures { result ≡ is_true (option_map as_device device) }
{
    match device {
        Some(device) => match device.flaw {
            Flaw::Fail => true,
            Flaw::Short | Flaw::Flip => device.call == 0,
        },
        None => true,
    }
}

// An evacuator over a new heap, whose far side has the flaw that its device is said to have.
fn new_heap(
    alloc: Global,
    shape: Shape,
    device: Option<Device>,
) -> Result<Evac<Plain, FarSide>, Refused>
    ensures flawed { IfOk result (λ evac. IsFlawed (option_map as_device device) evac.book.device) }
    ensures moment { IfOk result (λ evac. moment_in evac ≡ moment_of (opening shape (is_true (option_map as_device device)))) }
    ensures range { IfOk result (λ _. is_shape shape ≡ true) }
    ensures refused { IfErr result (λ why. why ≡ cond (is_shape shape) Refused.Memory Refused.Shape) }
{
    let core = Core::without_stored(alloc, shape, tells_truth(device))?;
    let book = Book::new(alloc, Plain { core }, far_side_of(alloc, device))?;
    Ok(Evac::new(book))
}

// Makes a heap and the commands after it, and writes their replies. Out of memory for the heap, it writes that line alone.
fn answer_heap<W: Write>(
    alloc: Global,
    writer: &mut W,
    replies: &mut ReplyWriter,
    shape: Shape,
    device: Option<Device>,
    commands: &Commands,
) -> Result<End, RunFault>
    ensures answered { OnOk result (WritesOutput (W.contents writer.old) (W.contents writer.new) (Ok (Heap shape.logs shape.mutators shape.epoch (option_map as_device device) commands.now))) }
    ensures end { IfOk result (λ end. end ≡ end_of (Ok (Heap shape.logs shape.mutators shape.epoch (option_map as_device device) commands.now))) }
    ensures fault { IfErr result (λ fault. LeavesBehind fault (W.contents writer.old) (W.contents writer.new) (Ok (Heap shape.logs shape.mutators shape.epoch (option_map as_device device) commands.now))) }
    ensures unread { result ≢ Err RunFault.Read }
    ensures memory { result ≡ Err RunFault.Memory → is_shape shape ≡ true }
{
    match new_heap(alloc, shape, device) {
        Ok(evac) => {
            let mut scratch = Scratch::new();
            answer_commands(writer, replies, evac, &mut scratch, device, commands)?;
            Ok(End::Ran)
        }
        Err(Refused::Memory) => {
            let _ = refuse(writer, replies, Refused::Memory);
            Err(RunFault::Memory)
        }
        Err(_) => {
            refuse(writer, replies, Refused::Shape)?;
            Ok(End::Refused)
        }
    }
}

// Answers what a text says: nothing, or a heap and commands.
fn answer<W: Write>(
    alloc: Global,
    writer: &mut W,
    replies: &mut ReplyWriter,
    trace: &Trace,
) -> Result<End, RunFault>
    ensures answered { OnOk result (WritesOutput (W.contents writer.old) (W.contents writer.new) (Ok (as_trace trace.now))) }
    ensures end { IfOk result (λ end. end ≡ end_of (Ok (as_trace trace.now))) }
    ensures fault { IfErr result (λ fault. LeavesBehind fault (W.contents writer.old) (W.contents writer.new) (Ok (as_trace trace.now))) }
    ensures unread { result ≢ Err RunFault.Read }
    ensures memory { result ≡ Err RunFault.Memory → MayMakeHeap (Ok (as_trace trace.now)) }
{
    match trace {
        Trace::Nothing => Ok(End::Ran),
        Trace::Heap {
            logs,
            mutators,
            epoch,
            device,
            commands,
        } => {
            let shape = Shape {
                logs: *logs,
                mutators: *mutators,
                epoch: *epoch,
            };
            answer_heap(alloc, writer, replies, shape, *device, commands)
        }
    }
}

// Answers a text in memory.
fn answer_text<W: Write>(
    alloc: Global,
    writer: &mut W,
    replies: &mut ReplyWriter,
    text: &[u8],
) -> Result<End, RunFault>
    ensures answered { OnOk result (WritesOutput (W.contents writer.old) (W.contents writer.new) (trace_of text.now)) }
    ensures end { IfOk result (λ end. end ≡ end_of (trace_of text.now)) }
    ensures fault { IfErr result (λ fault. LeavesBehind fault (W.contents writer.old) (W.contents writer.new) (trace_of text.now)) }
    ensures unread { result ≢ Err RunFault.Read }
    ensures long { LONGEST_TEXT < length text.now → result ≢ Err RunFault.Memory }
{
    match parse(alloc, text) {
        Ok(trace) => answer(alloc, writer, replies, &trace),
        Err(ParseError::Syntax(line)) => {
            refuse(writer, replies, Refused::Syntax(line))?;
            Ok(End::Refused)
        }
        Err(ParseError::Memory) => Err(RunFault::Memory),
    }
}

/// Reads a text, runs its commands, and writes their replies.
///
/// All memory but the heap's, and that of the device where objects go far, is taken before the first command is made. A text that is off the
/// grammar, or whose heap's shape is out of range, is answered by that one refusal, and nothing else is run. An `evacuate` or a `round` that is refused memory in its midst is answered so,
/// and the run goes on.
///
/// Faults: [`RunFault::Read`] if the reader fails, any error of it; [`RunFault::Memory`] if memory is refused before the first command after the heap: then
/// nothing was written, but all or part of `refused 1` if it was the heap's; [`RunFault::Write`] if the writer fails or takes nothing: what was written is a proper prefix of the output.
pub fn run<R: Read, W: Write>(
    alloc: Global,
    reader: &mut R,
    writer: &mut W,
) -> Result<End, RunFault>
    ensures answered { OnOk result (IfSome (R.remaining reader.old) (WritesAnswer (W.contents writer.old) (W.contents writer.new))) }
    ensures end { IfOk result (λ end. IfSome (R.remaining reader.old) (λ text. end ≡ end_of (trace_of text))) }
    ensures fault { IfErr result (λ fault. IfSome (R.remaining reader.old) (Leaves fault (W.contents writer.old) (W.contents writer.new))) }
{
    let mut replies = ReplyWriter::new(alloc)?;
    let text = read_whole(alloc, reader, LONGEST_TEXT + 1)?;
    answer_text(alloc, writer, &mut replies, &text)
}
