//! What a split text comes to, and how it is printed.

ghost use Rattle.std.specs.Prelude.{◌≡◌, ◌≤◌, ◌+◌, ◌++◌, [], codes, length, OnOk};
ghost use Rattle.std.specs.List.{AllByRecursion, flat_map};
ghost use Rattle.far_reply.specs.Reply.{IsShort, log_text, reply_of, reply_text};
ghost use Rattle.far_reply.specs.Stream.{Writes};
ghost use Rattle.far_reply.specs.declared.reply.TheConstants.{LONGEST_REPLY};
ghost use Rattle.far_split.specs.Joined.{AreShort, as_joined};
ghost use Rattle.far_split.specs.Printed.{heading, parts_text, split_text};
ghost use Rattle.far_split.specs.Prints.{Prints};
ghost use Rattle.far_split.specs.Told.{as_told};

use crate::replies::Replies;
use crate::told::{LogLines, Told};
use far_reply::{LONGEST_REPLY, LogLine, Output, Reply, WriteFault, write_whole};
use far_word::Refused;
use std::io::Write;

/// What a split text comes to.
#[derive(Drop)]
pub enum SplitOut {
    /// The text is off the grammar, or the heap's shape is out of range, and nothing ran.
    Refused(Refused),
    /// Each line was answered: each mutator's, by its number, and the book's.
    Ran {
        mutators: Vec<Replies>,
        book: Replies,
    },
}

// Makes room for one more reply.
fn make_room<W: Write>(buffer: &mut Output, writer: &mut W) -> Result<(), WriteFault>
    ensures printed { Prints (W.contents writer.old) buffer.old (W.contents writer.new) buffer.new result [] }
    ensures room { OnOk result (length buffer.new + LONGEST_REPLY ≤ Output.CAPACITY) }
{
    if buffer.len() > Output::CAPACITY - LONGEST_REPLY {
        write_whole(writer, buffer.as_slice())?;
        buffer.clear();
    }
    Ok(())
}

fn print_heading<W: Write>(
    number: usize,
    buffer: &mut Output,
    writer: &mut W,
) -> Result<(), WriteFault>
    ensures { Prints (W.contents writer.old) buffer.old (W.contents writer.new) buffer.new result (heading number) }
{
    make_room(buffer, writer)?;
    buffer.push(b"mutator ");
    buffer.push_number(number as u64);
    buffer.push(b"\n");
    Ok(())
}

// Prints what is told of logs, a line each.
fn print_logs<W: Write>(
    lines: &LogLines<'_>,
    buffer: &mut Output,
    writer: &mut W,
) -> Result<(), WriteFault>
    ensures { Prints (W.contents writer.old) buffer.old (W.contents writer.new) buffer.new result (flat_map log_text lines.now) }
{
    for at in 0..lines.len() {
        make_room(buffer, writer)?;
        push_log(lines.at(at), buffer);
    }
    Ok(())
}

// Adds the line of a log.
fn push_log(line: LogLine, buffer: &mut Output)
    requires room { length buffer.old + LONGEST_REPLY ≤ Output.CAPACITY }
    ensures { buffer.new ≡ buffer.old ++ log_text line }
{
    let lines = [line];
    Reply::Logs(&lines).print_to(buffer);
}

fn print_reply<W: Write>(
    reply: &Reply<'_>,
    buffer: &mut Output,
    writer: &mut W,
) -> Result<(), WriteFault>
    requires { IsShort (reply_of reply.now) }
    ensures { Prints (W.contents writer.old) buffer.old (W.contents writer.new) buffer.new result (reply_text (reply_of reply.now)) }
{
    make_room(buffer, writer)?;
    reply.print_to(buffer);
    Ok(())
}

fn print_told<W: Write>(
    told: &Told<'_>,
    buffer: &mut Output,
    writer: &mut W,
) -> Result<(), WriteFault>
    requires { IsShort (as_told told.now) }
    ensures { Prints (W.contents writer.old) buffer.old (W.contents writer.new) buffer.new result (reply_text (as_told told.now)) }
{
    match told {
        Told::Logs(lines) => print_logs(lines, buffer, writer),
        Told::Reply(reply) => print_reply(reply, buffer, writer),
    }
}

// Prints the replies of one thread.
fn print_all<W: Write>(
    replies: &Replies,
    buffer: &mut Output,
    writer: &mut W,
) -> Result<(), WriteFault>
    requires { AllByRecursion IsShort replies.now }
    ensures { Prints (W.contents writer.old) buffer.old (W.contents writer.new) buffer.new result (flat_map reply_text replies.now) }
{
    for at in 0..replies.len() {
        print_told(&replies.at(at), buffer, writer)?;
    }
    Ok(())
}

// Prints the line and the replies of each mutator, by number.
fn print_mutators<W: Write>(
    mutators: &[Replies],
    buffer: &mut Output,
    writer: &mut W,
) -> Result<(), WriteFault>
    requires { AllByRecursion (AllByRecursion IsShort) mutators.now }
    ensures { Prints (W.contents writer.old) buffer.old (W.contents writer.new) buffer.new result (parts_text 0 mutators.now) }
{
    for (number, replies) in mutators.iter().enumerate() {
        print_heading(number, buffer, writer)?;
        print_all(replies, buffer, writer)?;
    }
    Ok(())
}

// Prints the line and the replies of the book.
fn print_book<W: Write>(
    book: &Replies,
    buffer: &mut Output,
    writer: &mut W,
) -> Result<(), WriteFault>
    requires { AllByRecursion IsShort book.now }
    ensures { Prints (W.contents writer.old) buffer.old (W.contents writer.new) buffer.new result (codes "book\n" ++ flat_map reply_text book.now) }
{
    make_room(buffer, writer)?;
    buffer.push(b"book\n");
    print_all(book, buffer, writer)
}

impl SplitOut {
    /// Writes the text: for each mutator by number the line `mutator M` and its replies, then the line `book` and the book's; or the one line of the
    /// refusal. What the buffer had is taken away; the buffer is written as often as it may have no room for one reply more, and at the end. Each reply must be
    /// short enough to be printed, as those of [`run_split`](crate::run_split) are. Refused [`WriteFault`] if the writer fails or takes nothing: what was written is a
    /// proper prefix of the text.
    pub fn print<W: Write>(&self, buffer: &mut Output, writer: &mut W) -> Result<(), WriteFault>
        requires short { AreShort (as_joined self.now) }
        ensures { Writes (W.contents writer.old) (W.contents writer.new) result (split_text (as_joined self.now)) }
    {
        buffer.clear();
        match self {
            SplitOut::Refused(why) => Reply::Refused(*why).print_to(buffer),
            SplitOut::Ran { mutators, book } => {
                print_mutators(mutators, buffer, writer)?;
                print_book(book, buffer, writer)?;
            }
        }
        write_whole(writer, buffer.as_slice())
    }
}
