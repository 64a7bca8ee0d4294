//! The commands of a text until they are made, each in little memory.

ghost use Rattle.std.specs.Prelude.{◌≡◌, ◌≢◌, ◌++◌, ◌∷◌, ℕ, List, [], length, take, drop, cond, true, Ok, Some, None, IfOk, IfErr, IfSome};
ghost use Rattle.std.specs.Option.{option_map};
ghost use Rattle.far_text.specs.Command.{Mutator, Book, Evacuator, On, Writes, as_command, as_inquiry};
ghost use Rattle.far_text.specs.Grammar.{bytes_in};
ghost use Rattle.far_text.specs.Spelled.{command_spelled, request_spelled, step_spelled};
ghost use Rattle.far_text.specs.Records.{command_in, IsWithin};

use crate::command::{Command, Inquiry, Request, Step};
use crate::hex_word::HexBytes;
use crate::number::Number;
use crate::steps::{StepRecord, step_record};
use std::alloc::{AllocError, Global};
use std::marker::Model;

/// A command: its numbers, in the order of its line. The last two of a write are where its bytes begin among those of all
/// writes and scripts, and how many they are.
#[derive(Clone, Copy)]
pub enum Record {
    New(Number, Number, Number),
    Open(Number),
    Write(Number, Number, Number, u32, u32),
    Read(Number, Number, Number, Number),
    Close(Number),
    Where(Number, Number),
    Drop(Number, Number),
    View(Number, Number),
    Try(Number, Number),
    Epoch(Number),
    Logs,
    Log(Number),
    Audit,
    Evacuator(StepRecord),
}

// The record of a write of what a word spells, if it is in hex. The bytes are added to those before.
#[inline(always)]
fn write_record(
    bytes: &mut HexBytes,
    mutator: u64,
    pointer: u64,
    from: u64,
    word: &[u8],
) -> Result<Option<Record>, AllocError>
    ensures value { IfOk result (λ found. option_map (command_in bytes.new) found ≡ option_map (λ read. Mutator mutator (On pointer (Writes from read))) (bytes_in word.now)) }
    ensures within { IfOk result (λ found. IfSome found (IsWithin (length bytes.new))) }
    ensures kept { take (length bytes.old) bytes.new ≡ bytes.old }
    ensures none { result ≡ Ok None → bytes.new ≡ bytes.old }
    ensures fault { IfErr result (λ _. bytes.new ≡ bytes.old) }
{
    let start = bytes.len() as u32;
    if !bytes.add(word)? {
        return Ok(None);
    }
    let count = bytes.len() as u32 - start;
    Ok(Some(Record::Write(
        Number::of(mutator),
        Number::of(pointer),
        Number::of(from),
        start,
        count,
    )))
}

// The record of a mutator's request. The bytes of a write are added to those before.
#[inline(always)]
fn request_record(
    bytes: &mut HexBytes,
    mutator: u64,
    request: Request,
) -> Result<Option<Record>, AllocError>
    ensures value { IfOk result (λ found. option_map (command_in bytes.new) found ≡ option_map (Mutator mutator) (request_spelled request.entry)) }
    ensures within { IfOk result (λ found. IfSome found (IsWithin (length bytes.new))) }
    ensures kept { take (length bytes.old) bytes.new ≡ bytes.old }
    ensures none { result ≡ Ok None → bytes.new ≡ bytes.old }
    ensures fault { IfErr result (λ _. bytes.new ≡ bytes.old) }
{
    let m = Number::of(mutator);
    Ok(Some(match request {
        Request::New { len, structure } => {
            Record::New(m, Number::of(len), Number::of(structure))
        }
        Request::Open => Record::Open(m),
        Request::Write {
            pointer,
            from,
            bytes: word,
        } => return write_record(bytes, mutator, pointer, from, word),
        Request::Read { pointer, from, len } => {
            let (pointer, from) = (Number::of(pointer), Number::of(from));
            Record::Read(m, pointer, from, Number::of(len))
        }
        Request::Close => Record::Close(m),
        Request::Where { pointer } => Record::Where(m, Number::of(pointer)),
        Request::Drop { pointer } => Record::Drop(m, Number::of(pointer)),
        Request::View { pointer } => Record::View(m, Number::of(pointer)),
        Request::Try { pointer } => Record::Try(m, Number::of(pointer)),
        Request::Epoch => Record::Epoch(m),
    }))
}

// The record of an inquiry.
fn inquiry_record(inquiry: Inquiry) -> Record
    ensures value { (bytes : List ℕ) → command_in bytes result ≡ Book (as_inquiry inquiry) }
    ensures within { (most : ℕ) → IsWithin most result }
{
    match inquiry {
        Inquiry::Logs => Record::Logs,
        Inquiry::Log { log } => Record::Log(Number::of(log)),
        Inquiry::Audit => Record::Audit,
    }
}

// The record of a step, unless it chooses more logs than may be chosen, or what is no log. The logs of a script are added to
// the bytes before.
fn evacuator_record(bytes: &mut HexBytes, step: Step) -> Result<Option<Record>, AllocError>
    ensures value { IfOk result (λ found. option_map (command_in bytes.new) found ≡ option_map Evacuator (step_spelled step.entry)) }
    ensures within { IfOk result (λ found. IfSome found (IsWithin (length bytes.new))) }
    ensures kept { take (length bytes.old) bytes.new ≡ bytes.old }
    ensures none { result ≡ Ok None → bytes.new ≡ bytes.old }
    ensures fault { IfErr result (λ _. bytes.new ≡ bytes.old) }
{
    match step_record(bytes, step) {
        Ok(Some(step)) => Ok(Some(Record::Evacuator(step))),
        Ok(None) => Ok(None),
        Err(AllocError) => Err(AllocError),
    }
}

// The record of a command that was read, unless it writes what is no word in hex, or chooses what can't be chosen. The bytes
// of a write or a script are added to those before.
#[inline(always)]
fn record_of(bytes: &mut HexBytes, command: Command) -> Result<Option<Record>, AllocError>
    ensures value { IfOk result (λ found. option_map (command_in bytes.new) found ≡ command_spelled command.entry) }
    ensures within { IfOk result (λ found. IfSome found (IsWithin (length bytes.new))) }
    ensures kept { take (length bytes.old) bytes.new ≡ bytes.old }
    ensures none { result ≡ Ok None → bytes.new ≡ bytes.old }
    ensures fault { IfErr result (λ _. bytes.new ≡ bytes.old) }
{
    match command {
        Command::Mutator { mutator, request } => request_record(bytes, mutator, request),
        Command::Book(inquiry) => Ok(Some(inquiry_record(inquiry))),
        Command::Evacuator(step) => evacuator_record(bytes, step),
    }
}

impl Record {
    ghost use Rattle.std.specs.Prelude.{◌≡◌, length};
    ghost use Rattle.far_text.specs.Command.{as_command};
    ghost use Rattle.far_text.specs.Records.{command_in, IsWithin};

    // The command that it keeps.
    #[inline(always)]
    fn command(self, bytes: &[u8]) -> Command<'_>
        requires { IsWithin (length bytes.now) self }
        ensures { as_command result ≡ command_in bytes.now self }
    {
        let (mutator, request) = match self {
            Record::New(mutator, len, structure) => {
                let (len, structure) = (len.value(), structure.value());
                (mutator, Request::New { len, structure })
            }
            Record::Open(mutator) => (mutator, Request::Open),
            Record::Write(mutator, pointer, from, start, count) => {
                let start = start as usize;
                let request = Request::Write {
                    pointer: pointer.value(),
                    from: from.value(),
                    bytes: &bytes[start..start + count as usize],
                };
                (mutator, request)
            }
            Record::Read(mutator, pointer, from, len) => {
                let (pointer, from, len) = (pointer.value(), from.value(), len.value());
                (mutator, Request::Read { pointer, from, len })
            }
            Record::Close(mutator) => (mutator, Request::Close),
            Record::Where(mutator, pointer) => {
                let pointer = pointer.value();
                (mutator, Request::Where { pointer })
            }
            Record::Drop(mutator, pointer) => {
                let pointer = pointer.value();
                (mutator, Request::Drop { pointer })
            }
            Record::View(mutator, pointer) => {
                let pointer = pointer.value();
                (mutator, Request::View { pointer })
            }
            Record::Try(mutator, pointer) => {
                let pointer = pointer.value();
                (mutator, Request::Try { pointer })
            }
            Record::Epoch(mutator) => (mutator, Request::Epoch),
            Record::Logs => return Command::Book(Inquiry::Logs),
            Record::Log(log) => return Command::Book(Inquiry::Log { log: log.value() }),
            Record::Audit => return Command::Book(Inquiry::Audit),
            Record::Evacuator(step) => return Command::Evacuator(step.step(bytes)),
        };
        let mutator = mutator.value();
        Command::Mutator { mutator, request }
    }
}

// How many commands memory is taken for at first. So much is not copied where more is taken.
const FIRST: usize = 4_096;

/// Commands, in order.
#[derive(Drop)]
pub struct Commands {
    records: Vec<Record>,
    bytes: HexBytes,
}

impl Model for Commands {
    ghost use Rattle.std.specs.Prelude.{List, length, map};
    ghost use Rattle.far_text.specs.Command.{Command};

    ghost Value = { List Command };

    ghost use Rattle.far_text.specs.Records.{command_in, AreWithin};

    ghost view = { λ c. map (command_in c.bytes) c.records.items };

    ghost invariant = { λ c. AreWithin (length c.bytes) c.records.items };
}

impl Commands {
    ghost use Rattle.std.specs.Prelude.{◌≡◌, ◌≢◌, ◌≤◌, ◌<◌, ◌+◌, ◌++◌, ◌∷◌, [], length, drop, true, cond, Ok, Some, None, IfOk};
    ghost use Rattle.std.specs.Option.{option_map};
    ghost use Rattle.far_text.specs.declared.text.TheConstants.{LONGEST_TEXT};
    ghost use Rattle.far_text.specs.Command.{as_command};
    ghost use Rattle.far_text.specs.Written.{WritesBytes};
    ghost use Rattle.far_text.specs.Spelled.{command_spelled};

    /// No command yet. Memory for the first of them is taken.
    pub fn new(alloc: Global) -> Result<Commands, AllocError>
        ensures { IfOk result (λ commands. commands ≡ []) }
    {
        Ok(Commands {
            records: Vec::with_capacity(alloc, FIRST)?,
            bytes: HexBytes::new(alloc),
        })
    }

    /// How many they are.
    pub fn len(&self) -> usize
        ensures { result ≡ length self.now }
    {
        self.records.len()
    }

    /// The command at a place.
    #[inline(always)]
    pub fn at(&self, at: usize) -> Command<'_>
        requires { at < length self.now }
        ensures value { drop at self.now ≡ as_command result ∷ drop (at + 1) self.now }
        ensures bytes { WritesBytes (as_command result) }
    {
        let record = self.records[at];
        record.command(self.bytes.as_slice())
    }

    // Adds a command that was read, unless it says what can't be kept. Whether it did; if not, nothing has changed. It stands
    // apart, so that the commands of mutators don't pay for the others.
    #[inline(never)]
    fn push_rarer(&mut self, command: Command<'_>) -> Result<bool, AllocError>
        requires { length self.old ≤ LONGEST_TEXT }
        ensures value { IfOk result (λ kept. option_map (λ c. self.old ++ c ∷ []) (command_spelled command.entry) ≡ cond kept (Some self.new) None) }
        ensures same { result ≢ Ok true → self.new ≡ self.old }
    {
        self.records.reserve(1)?;
        let Some(record) = record_of(&mut self.bytes, command)? else {
            return Ok(false);
        };
        self.records.push_reserved(record);
        Ok(true)
    }

    /// Adds a command that was read, unless it writes what is no word in hex, or chooses what can't be chosen. Whether it did;
    /// if not, nothing has changed. `Err` if there is no memory, or maybe if the bytes of all writes and scripts would reach
    /// 2^32 - 1,536. At most 1,048,576 commands may stand before this one.
    #[inline(always)]
    pub fn push(&mut self, command: Command<'_>) -> Result<bool, AllocError>
        requires { length self.old ≤ LONGEST_TEXT }
        ensures value { IfOk result (λ kept. option_map (λ c. self.old ++ c ∷ []) (command_spelled command.entry) ≡ cond kept (Some self.new) None) }
        ensures same { result ≢ Ok true → self.new ≡ self.old }
    {
        let Command::Mutator { mutator, request } = command else {
            return self.push_rarer(command);
        };
        self.records.reserve(1)?;
        let Some(record) = request_record(&mut self.bytes, mutator, request)? else {
            return Ok(false);
        };
        self.records.push_reserved(record);
        Ok(true)
    }
}
