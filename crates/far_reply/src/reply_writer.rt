//! Replies that wait in the output until there is no room for one more.

ghost use Rattle.std.specs.Prelude.{◌≡◌, ◌≤◌, ◌+◌, length, Option, List, [], ℕ, ◌++◌};
ghost use Rattle.far_reply.specs.declared.reply.TheConstants.{LONGEST_REPLY};
ghost use Rattle.far_reply.specs.Reply.{IsShort, reply_text, reply_of};
ghost use Rattle.far_reply.specs.Stream.{Holds, Writes};

use crate::output::Output;
use crate::reply::{LONGEST_REPLY, Reply};
use crate::stream::{WriteFault, write_whole};
use std::alloc::{AllocError, Global};
use std::io::Write;

/// Replies on their way to a writer: those that wait, and whether a write has failed. Once one has, nothing more is
/// written.
#[derive(Drop)]
pub struct ReplyWriter {
    pub waiting: Output,
    pub written: Result<(), WriteFault>,
}

impl ReplyWriter {
    /// No reply yet. It takes all its buffer at once.
    pub fn new(alloc: Global) -> Result<ReplyWriter, AllocError> {
        Ok(ReplyWriter {
            waiting: Output::new(alloc)?,
            written: Ok(()),
        })
    }

    /// No reply waits, and no write has failed.
    pub fn clear(&mut self)
        ensures { (start : Option (List ℕ)) → Holds start start self.new.waiting self.new.written [] }
    {
        self.waiting.clear();
        self.written = Ok(());
    }

    // Writes what waits, unless an earlier write failed.
    fn flush<W: Write>(&mut self, writer: &mut W)
        ensures held { (start : Option (List ℕ)) (bytes : List ℕ) → Holds start (W.contents writer.old) self.old.waiting self.old.written bytes
            → Holds start (W.contents writer.new) self.new.waiting self.new.written bytes }
        ensures empty { self.new.waiting ≡ [] }
    {
        if let Err(_) = self.written {
            self.waiting.clear();
            return;
        }
        self.written = write_whole(writer, self.waiting.as_slice());
        self.waiting.clear();
    }

    // Makes room for one more reply.
    fn make_room<W: Write>(&mut self, writer: &mut W)
        ensures held { (start : Option (List ℕ)) (bytes : List ℕ) → Holds start (W.contents writer.old) self.old.waiting self.old.written bytes
            → Holds start (W.contents writer.new) self.new.waiting self.new.written bytes }
        ensures room { length self.new.waiting + LONGEST_REPLY ≤ Output.CAPACITY }
    {
        if self.waiting.len() > Output::CAPACITY - LONGEST_REPLY {
            self.flush(writer);
        }
    }

    /// Adds a reply to those that wait. They are written first if there may be no room for it; [`ReplyWriter::finish`] tells if
    /// that failed.
    #[inline(always)]
    pub fn add<W: Write>(&mut self, writer: &mut W, reply: &Reply)
        requires { IsShort (reply_of reply.now) }
        ensures { (start : Option (List ℕ)) (bytes : List ℕ) → Holds start (W.contents writer.old) self.old.waiting self.old.written bytes
            → Holds start (W.contents writer.new) self.new.waiting self.new.written (bytes ++ reply_text (reply_of reply.now)) }
    {
        self.make_room(writer);
        reply.print_to(&mut self.waiting);
    }

    /// Writes what waits. `Err` if that write fails, or one has failed since the writer was made or last cleared.
    pub fn finish<W: Write>(&mut self, writer: &mut W) -> Result<(), WriteFault>
        ensures { (start : Option (List ℕ)) (bytes : List ℕ) → Holds start (W.contents writer.old) self.old.waiting self.old.written bytes
            → Writes start (W.contents writer.new) result bytes }
    {
        self.flush(writer);
        self.written
    }
}
