//! Commands, the lines of the heap and of its device, and which words spell them.

ghost use Rattle.std.specs.Prelude.{◌≡◌, ◌<◌, ◌∷◌, IfSome, IfNone};
ghost use Rattle.std.specs.Str.{bytes_eq};
ghost use Rattle.std.specs.Option.{option_and_then, option_map};
ghost use Rattle.far_text.specs.Command.{HeapLine, CommandLine, Book, Logs, Audit, Evacuator, Wait, Abort, as_flaw, as_policy};
ghost use Rattle.far_text.specs.Spelled.{entry_spelled};
ghost use Rattle.far_text.specs.Grammar.{Numbers, NumbersAndBytes, NumbersAndOneOr, says_heap, asks_read, asks_write, asks_open, asks_close, asks_new, asks_where, asks_drop, asks_view, asks_try, asks_epoch, asks_log, asks_mark, asks_evacuate, asks_select, asks_round, asks_script, device_by, flaw_of, says_device, policy_of, select_by, round_by, perhaps, word_then, steps, entry_from, entry_of, entry_at_end, found_in, one_or};
ghost use Rattle.far_text.specs.Cursor.{words_in, words_left, lines_after_first, lines_after, lines_left};

use crate::cursor::{
    Rest, last_bytes_of, last_words_of, next_number_of, next_word_of, number_first, word_first,
};

/// The most logs that a step may choose.
pub const MOST_CHOSEN: u8 = 64;

/// How many numbers may name a log in a script: those below this, which a byte holds.
pub const LOG_NAMES: u64 = 256;

/// What a mutator asks for. The bytes of a write are still digits in hex in a request that was only read; in one that was kept,
/// as [`Commands`](crate::Commands) gives it, they are the bytes themselves.
#[derive(Clone, Copy)]
pub enum Request<'a> {
    New {
        len: u64,
        structure: u64,
    },
    Open,
    Write {
        pointer: u64,
        from: u64,
        bytes: &'a [u8],
    },
    Read {
        pointer: u64,
        from: u64,
        len: u64,
    },
    Close,
    Where {
        pointer: u64,
    },
    Drop {
        pointer: u64,
    },
    View {
        pointer: u64,
    },
    Try {
        pointer: u64,
    },
    Epoch,
}

/// What the book is asked.
#[derive(Clone, Copy)]
pub enum Inquiry {
    Logs,
    Log { log: u64 },
    Audit,
}

/// Which logs a round is to empty first.
#[derive(Clone, Copy)]
pub enum Policy {
    /// Those that were sealed first.
    Oldest,
    /// Those with the fewest live bytes.
    LeastLive,
}

/// How logs are chosen.
#[derive(Clone, Copy)]
pub enum Choice<'a> {
    By(Policy),
    /// These logs, one at least, a byte for each. In a step that was only read, and not yet kept, they are the words that print them.
    Script(&'a [u8]),
}

/// What the evacuator is asked for. A `most` is 0 to 64 logs, where the step is kept; a `count` is how many live objects are
/// marked or emptied at most, and `turns` how often a round goes on before it stops.
#[derive(Clone, Copy)]
pub enum Step<'a> {
    Select {
        choice: Choice<'a>,
        most: u8,
    },
    Mark {
        count: u64,
    },
    Wait,
    Evacuate {
        count: u64,
    },
    Abort,
    Round {
        policy: Policy,
        most: u8,
        turns: u64,
    },
}

/// One command of a trace.
#[derive(Clone, Copy)]
pub enum Command<'a> {
    Mutator { mutator: u64, request: Request<'a> },
    Book(Inquiry),
    Evacuator(Step<'a>),
}

/// What is wrong in one call of a heap's device.
#[derive(Clone, Copy)]
pub enum Flaw {
    /// The device fails, in a write or a read, counted together.
    Fail,
    /// A read gives a byte less than was written. Reads alone are counted.
    Short,
    /// A read gives each byte inverted. Reads alone are counted.
    Flip,
}

/// A heap's device: what is wrong, and in which of the calls that are counted for that flaw, from 1; 0 is none.
#[derive(Clone, Copy)]
pub struct Device {
    pub flaw: Flaw,
    pub call: u64,
}

/// What a line of a trace says: the heap's numbers, its device, or a command.
#[derive(Clone, Copy)]
pub enum Entry<'a> {
    Heap {
        logs: u64,
        mutators: u64,
        epoch: u64,
    },
    Device(Device),
    Command(Command<'a>),
}

/// An entry, and the lines after its line, if any.
pub type Spelled<'a> = (Entry<'a>, Option<&'a [u8]>);

// The entry, if its line ends here.
#[inline(always)]
fn at_end<'a>(entry: Entry<'a>, rest: Rest<'a>) -> Option<Spelled<'a>>
    ensures value { option_and_then (λ found. entry_spelled found.0) result ≡ option_and_then (entry_at_end (words_left rest.entry)) (entry_spelled entry.entry) }
    ensures lines { IfSome result (λ found. lines_left found.1 ≡ lines_after rest.entry) }
{
    match rest {
        Rest::Lines(lines) => Some((entry, lines)),
        Rest::Words(_) => None,
    }
}

// A heap's line, where its first epoch, if it is said, ends it.
fn heap_at_end(logs: u64, mutators: u64, rest: Rest<'_>) -> Option<Spelled<'_>>
    ensures value { option_and_then (λ found. entry_spelled found.0) result ≡ one_or 0 (says_heap logs mutators) (words_left rest.entry) }
    ensures lines { IfSome result (λ found. lines_left found.1 ≡ lines_after rest.entry) }
{
    match rest {
        Rest::Lines(lines) => {
            let epoch = 0;
            let entry = Entry::Heap {
                logs,
                mutators,
                epoch,
            };
            Some((entry, lines))
        }
        Rest::Words(text) => {
            let (epoch, rest) = number_first(text)?;
            let entry = Entry::Heap {
                logs,
                mutators,
                epoch,
            };
            at_end(entry, rest)
        }
    }
}

fn heap_spelled(rest: Rest<'_>) -> Option<Spelled<'_>>
    ensures value { option_and_then (λ found. entry_spelled found.0) result ≡ entry_from (NumbersAndOneOr 2 0 says_heap) (words_left rest.entry) }
    ensures lines { IfSome result (λ found. lines_left found.1 ≡ lines_after rest.entry) }
{
    let (logs, rest) = next_number_of(rest)?;
    let (mutators, rest) = next_number_of(rest)?;
    heap_at_end(logs, mutators, rest)
}

#[inline(always)]
pub fn new_spelled(rest: Rest<'_>) -> Option<Spelled<'_>>
    ensures value { option_and_then (λ found. entry_spelled found.0) result ≡ entry_from (Numbers 3 asks_new) (words_left rest.entry) }
    ensures lines { IfSome result (λ found. lines_left found.1 ≡ lines_after rest.entry) }
{
    let (mutator, rest) = next_number_of(rest)?;
    let (len, rest) = next_number_of(rest)?;
    let (structure, rest) = next_number_of(rest)?;
    let request = Request::New { len, structure };
    at_end(Entry::Command(Command::Mutator { mutator, request }), rest)
}

#[inline(always)]
pub fn open_spelled(rest: Rest<'_>) -> Option<Spelled<'_>>
    ensures value { option_and_then (λ found. entry_spelled found.0) result ≡ entry_from (Numbers 1 asks_open) (words_left rest.entry) }
    ensures lines { IfSome result (λ found. lines_left found.1 ≡ lines_after rest.entry) }
{
    let (mutator, rest) = next_number_of(rest)?;
    let request = Request::Open;
    at_end(Entry::Command(Command::Mutator { mutator, request }), rest)
}

#[inline(always)]
pub fn write_spelled(rest: Rest<'_>) -> Option<Spelled<'_>>
    ensures value { option_and_then (λ found. entry_spelled found.0) result ≡ entry_from (NumbersAndBytes 3 asks_write) (words_left rest.entry) }
    ensures lines { IfSome result (λ found. lines_left found.1 ≡ lines_after rest.entry) }
{
    let (mutator, rest) = next_number_of(rest)?;
    let (pointer, rest) = next_number_of(rest)?;
    let (from, rest) = next_number_of(rest)?;
    let (bytes, lines) = last_bytes_of(rest)?;
    let request = Request::Write {
        pointer,
        from,
        bytes,
    };
    let entry = Entry::Command(Command::Mutator { mutator, request });
    Some((entry, lines))
}

#[inline(always)]
pub fn read_spelled(rest: Rest<'_>) -> Option<Spelled<'_>>
    ensures value { option_and_then (λ found. entry_spelled found.0) result ≡ entry_from (Numbers 4 asks_read) (words_left rest.entry) }
    ensures lines { IfSome result (λ found. lines_left found.1 ≡ lines_after rest.entry) }
{
    let (mutator, rest) = next_number_of(rest)?;
    let (pointer, rest) = next_number_of(rest)?;
    let (from, rest) = next_number_of(rest)?;
    let (len, rest) = next_number_of(rest)?;
    let request = Request::Read { pointer, from, len };
    at_end(Entry::Command(Command::Mutator { mutator, request }), rest)
}

#[inline(always)]
pub fn close_spelled(rest: Rest<'_>) -> Option<Spelled<'_>>
    ensures value { option_and_then (λ found. entry_spelled found.0) result ≡ entry_from (Numbers 1 asks_close) (words_left rest.entry) }
    ensures lines { IfSome result (λ found. lines_left found.1 ≡ lines_after rest.entry) }
{
    let (mutator, rest) = next_number_of(rest)?;
    let request = Request::Close;
    at_end(Entry::Command(Command::Mutator { mutator, request }), rest)
}

fn where_spelled(rest: Rest<'_>) -> Option<Spelled<'_>>
    ensures value { option_and_then (λ found. entry_spelled found.0) result ≡ entry_from (Numbers 2 asks_where) (words_left rest.entry) }
    ensures lines { IfSome result (λ found. lines_left found.1 ≡ lines_after rest.entry) }
{
    let (mutator, rest) = next_number_of(rest)?;
    let (pointer, rest) = next_number_of(rest)?;
    let request = Request::Where { pointer };
    at_end(Entry::Command(Command::Mutator { mutator, request }), rest)
}

#[inline(always)]
pub fn drop_spelled(rest: Rest<'_>) -> Option<Spelled<'_>>
    ensures value { option_and_then (λ found. entry_spelled found.0) result ≡ entry_from (Numbers 2 asks_drop) (words_left rest.entry) }
    ensures lines { IfSome result (λ found. lines_left found.1 ≡ lines_after rest.entry) }
{
    let (mutator, rest) = next_number_of(rest)?;
    let (pointer, rest) = next_number_of(rest)?;
    let request = Request::Drop { pointer };
    at_end(Entry::Command(Command::Mutator { mutator, request }), rest)
}

fn try_spelled(rest: Rest<'_>) -> Option<Spelled<'_>>
    ensures value { option_and_then (λ found. entry_spelled found.0) result ≡ entry_from (Numbers 2 asks_try) (words_left rest.entry) }
    ensures lines { IfSome result (λ found. lines_left found.1 ≡ lines_after rest.entry) }
{
    let (mutator, rest) = next_number_of(rest)?;
    let (pointer, rest) = next_number_of(rest)?;
    let request = Request::Try { pointer };
    at_end(Entry::Command(Command::Mutator { mutator, request }), rest)
}

#[inline(always)]
pub fn view_spelled(rest: Rest<'_>) -> Option<Spelled<'_>>
    ensures value { option_and_then (λ found. entry_spelled found.0) result ≡ entry_from (Numbers 2 asks_view) (words_left rest.entry) }
    ensures lines { IfSome result (λ found. lines_left found.1 ≡ lines_after rest.entry) }
{
    let (mutator, rest) = next_number_of(rest)?;
    let (pointer, rest) = next_number_of(rest)?;
    let request = Request::View { pointer };
    at_end(Entry::Command(Command::Mutator { mutator, request }), rest)
}

fn epoch_spelled(rest: Rest<'_>) -> Option<Spelled<'_>>
    ensures value { option_and_then (λ found. entry_spelled found.0) result ≡ entry_from (Numbers 1 asks_epoch) (words_left rest.entry) }
    ensures lines { IfSome result (λ found. lines_left found.1 ≡ lines_after rest.entry) }
{
    let (mutator, rest) = next_number_of(rest)?;
    let request = Request::Epoch;
    at_end(Entry::Command(Command::Mutator { mutator, request }), rest)
}

fn log_spelled(rest: Rest<'_>) -> Option<Spelled<'_>>
    ensures value { option_and_then (λ found. entry_spelled found.0) result ≡ entry_from (Numbers 1 asks_log) (words_left rest.entry) }
    ensures lines { IfSome result (λ found. lines_left found.1 ≡ lines_after rest.entry) }
{
    let (log, rest) = next_number_of(rest)?;
    at_end(Entry::Command(Command::Book(Inquiry::Log { log })), rest)
}

fn is_name(word: &[u8], name: &[u8]) -> bool
    ensures { result ≡ bytes_eq word.now name.now }
{
    word == name
}

fn policy_named(word: &[u8]) -> Option<Policy>
    ensures { option_map as_policy result ≡ policy_of word.now }
{
    if is_name(word, b"oldest") {
        return Some(Policy::Oldest);
    }
    if is_name(word, b"leastlive") {
        return Some(Policy::LeastLive);
    }
    None
}

// A number as a byte, if it is one. Whether so many logs may be chosen is seen where the step is kept.
fn byte_of(n: u64) -> Option<u8>
    ensures value { IfSome result (λ byte. byte ≡ n) }
    ensures large { IfNone result (255 < n) }
{
    if n > 255 {
        return None;
    }
    Some(n as u8)
}

fn policy_selected(policy: Policy, rest: Rest<'_>) -> Option<Spelled<'_>>
    ensures value { option_and_then (λ found. entry_spelled found.0) result ≡ perhaps 1 (asks_select (as_policy policy)) (words_left rest.entry) }
    ensures lines { IfSome result (λ found. lines_left found.1 ≡ lines_after rest.entry) }
{
    let (most, rest) = next_number_of(rest)?;
    let most = byte_of(most)?;
    let choice = Choice::By(policy);
    let step = Step::Select { choice, most };
    at_end(Entry::Command(Command::Evacuator(step)), rest)
}

fn script_selected(rest: Rest<'_>) -> Option<Spelled<'_>>
    ensures value { option_and_then (λ found. entry_spelled found.0) result ≡ asks_script (words_left rest.entry) }
    ensures lines { IfSome result (λ found. lines_left found.1 ≡ lines_after rest.entry) }
{
    let (most, rest) = next_number_of(rest)?;
    let most = byte_of(most)?;
    let (words, lines) = last_words_of(rest)?;
    let choice = Choice::Script(words);
    let step = Step::Select { choice, most };
    Some((Entry::Command(Command::Evacuator(step)), lines))
}

fn select_spelled(rest: Rest<'_>) -> Option<Spelled<'_>>
    ensures value { option_and_then (λ found. entry_spelled found.0) result ≡ word_then select_by (words_left rest.entry) }
    ensures lines { IfSome result (λ found. lines_left found.1 ≡ lines_after rest.entry) }
{
    let (word, rest) = next_word_of(rest)?;
    if is_name(word, b"script") {
        return script_selected(rest);
    }
    policy_selected(policy_named(word)?, rest)
}

fn round_made(policy: Policy, rest: Rest<'_>) -> Option<Spelled<'_>>
    ensures value { option_and_then (λ found. entry_spelled found.0) result ≡ perhaps 2 (asks_round (as_policy policy)) (words_left rest.entry) }
    ensures lines { IfSome result (λ found. lines_left found.1 ≡ lines_after rest.entry) }
{
    let (most, rest) = next_number_of(rest)?;
    let (turns, rest) = next_number_of(rest)?;
    let most = byte_of(most)?;
    let step = Step::Round {
        policy,
        most,
        turns,
    };
    at_end(Entry::Command(Command::Evacuator(step)), rest)
}

fn round_spelled(rest: Rest<'_>) -> Option<Spelled<'_>>
    ensures value { option_and_then (λ found. entry_spelled found.0) result ≡ word_then round_by (words_left rest.entry) }
    ensures lines { IfSome result (λ found. lines_left found.1 ≡ lines_after rest.entry) }
{
    let (word, rest) = next_word_of(rest)?;
    round_made(policy_named(word)?, rest)
}

fn mark_spelled(rest: Rest<'_>) -> Option<Spelled<'_>>
    ensures value { option_and_then (λ found. entry_spelled found.0) result ≡ entry_from (Numbers 1 asks_mark) (words_left rest.entry) }
    ensures lines { IfSome result (λ found. lines_left found.1 ≡ lines_after rest.entry) }
{
    let (count, rest) = next_number_of(rest)?;
    at_end(
        Entry::Command(Command::Evacuator(Step::Mark { count })),
        rest,
    )
}

fn evacuate_spelled(rest: Rest<'_>) -> Option<Spelled<'_>>
    ensures value { option_and_then (λ found. entry_spelled found.0) result ≡ entry_from (Numbers 1 asks_evacuate) (words_left rest.entry) }
    ensures lines { IfSome result (λ found. lines_left found.1 ≡ lines_after rest.entry) }
{
    let (count, rest) = next_number_of(rest)?;
    let step = Step::Evacuate { count };
    at_end(Entry::Command(Command::Evacuator(step)), rest)
}

fn flaw_named(word: &[u8]) -> Option<Flaw>
    ensures { option_map as_flaw result ≡ flaw_of word.now }
{
    if is_name(word, b"fail") {
        return Some(Flaw::Fail);
    }
    if is_name(word, b"short") {
        return Some(Flaw::Short);
    }
    if is_name(word, b"flip") {
        return Some(Flaw::Flip);
    }
    None
}

fn flaw_spelled(flaw: Flaw, rest: Rest<'_>) -> Option<Spelled<'_>>
    ensures value { option_and_then (λ found. entry_spelled found.0) result ≡ perhaps 1 (says_device (as_flaw flaw)) (words_left rest.entry) }
    ensures lines { IfSome result (λ found. lines_left found.1 ≡ lines_after rest.entry) }
{
    let (call, rest) = next_number_of(rest)?;
    at_end(Entry::Device(Device { flaw, call }), rest)
}

fn device_spelled(rest: Rest<'_>) -> Option<Spelled<'_>>
    ensures value { option_and_then (λ found. entry_spelled found.0) result ≡ word_then device_by (words_left rest.entry) }
    ensures lines { IfSome result (λ found. lines_left found.1 ≡ lines_after rest.entry) }
{
    let (word, rest) = next_word_of(rest)?;
    flaw_spelled(flaw_named(word)?, rest)
}

// The step of this name, by the words after it. It stands apart, so that no other line pays for it.
#[inline(never)]
fn step_by_name<'a>(name: &[u8], rest: Rest<'a>) -> Option<Spelled<'a>>
    ensures value { option_and_then (λ found. entry_spelled found.0) result ≡ found_in steps name.now (words_left rest.entry) }
    ensures lines { IfSome result (λ found. lines_left found.1 ≡ lines_after rest.entry) }
{
    if is_name(name, b"select") {
        return select_spelled(rest);
    }
    if is_name(name, b"mark") {
        return mark_spelled(rest);
    }
    if is_name(name, b"wait") {
        return at_end(Entry::Command(Command::Evacuator(Step::Wait)), rest);
    }
    if is_name(name, b"evacuate") {
        return evacuate_spelled(rest);
    }
    if is_name(name, b"abort") {
        return at_end(Entry::Command(Command::Evacuator(Step::Abort)), rest);
    }
    if is_name(name, b"round") {
        return round_spelled(rest);
    }
    None
}

// The entry of this name, by the words after it.
fn entry_by_name<'a>(name: &[u8], rest: Rest<'a>) -> Option<Spelled<'a>>
    ensures value { option_and_then (λ found. entry_spelled found.0) result ≡ entry_of (name.now ∷ words_left rest.entry) }
    ensures lines { IfSome result (λ found. lines_left found.1 ≡ lines_after rest.entry) }
{
    if is_name(name, b"read") {
        return read_spelled(rest);
    }
    if is_name(name, b"write") {
        return write_spelled(rest);
    }
    if is_name(name, b"open") {
        return open_spelled(rest);
    }
    if is_name(name, b"close") {
        return close_spelled(rest);
    }
    if is_name(name, b"new") {
        return new_spelled(rest);
    }
    if is_name(name, b"heap") {
        return heap_spelled(rest);
    }
    if is_name(name, b"logs") {
        return at_end(Entry::Command(Command::Book(Inquiry::Logs)), rest);
    }
    if is_name(name, b"where") {
        return where_spelled(rest);
    }
    if is_name(name, b"drop") {
        return drop_spelled(rest);
    }
    if is_name(name, b"view") {
        return view_spelled(rest);
    }
    if is_name(name, b"try") {
        return try_spelled(rest);
    }
    if is_name(name, b"epoch") {
        return epoch_spelled(rest);
    }
    if is_name(name, b"log") {
        return log_spelled(rest);
    }
    if is_name(name, b"audit") {
        return at_end(Entry::Command(Command::Book(Inquiry::Audit)), rest);
    }
    if is_name(name, b"device") {
        return device_spelled(rest);
    }
    step_by_name(name, rest)
}

/// What the first line of a text spells, by its first word.
#[inline(never)]
pub fn entry_by_first_word(text: &[u8]) -> Option<Spelled<'_>>
    ensures value { option_and_then (λ found. entry_spelled found.0) result ≡ entry_of (words_in text.now) }
    ensures lines { IfSome result (λ found. lines_left found.1 ≡ lines_after_first text.now) }
{
    let (name, rest) = word_first(text);
    entry_by_name(name, rest)
}
