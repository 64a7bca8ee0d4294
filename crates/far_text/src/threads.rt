//! Which commands run in threads, and in which.

ghost use Rattle.std.specs.Prelude.{◌≡◌};
ghost use Rattle.far_text.specs.Command.{as_command, as_request, as_step};
ghost use Rattle.far_text.specs.Threads.{as_thread, has_thread, is_of, is_own, is_round};

use crate::command::{Command, Request, Step};

/// The thread of a mutator, by its number, or of the book.
#[derive(Clone, Copy)]
pub enum Thread {
    Mutator(u64),
    Book,
}

// Whether a mutator may make this request in a thread of its own, where nobody tells the mutator of the rest of the heap.
fn is_own(request: Request<'_>) -> bool
    ensures { result ≡ is_own (as_request request.entry) }
{
    match request {
        Request::Where { .. } | Request::Epoch => false,
        _ => true,
    }
}

fn is_round(step: Step<'_>) -> bool
    ensures { result ≡ is_round (as_step step.entry) }
{
    match step {
        Step::Round { .. } => true,
        Step::Select { .. }
        | Step::Mark { .. }
        | Step::Wait
        | Step::Evacuate { .. }
        | Step::Abort => false,
    }
}

/// Whether one of the threads of so many mutators, or of the book, runs a command.
pub fn has_thread(mutators: u64, command: Command<'_>) -> bool
    ensures { result ≡ has_thread mutators (as_command command.entry) }
{
    match command {
        Command::Mutator { mutator, request } => is_own(request) && mutator < mutators,
        Command::Book(_) => true,
        Command::Evacuator(step) => is_round(step),
    }
}

impl Thread {
    /// Whether a command is this thread's.
    pub fn runs(self, command: Command<'_>) -> bool
        ensures { result ≡ is_of (as_thread self) (as_command command.entry) }
    {
        match self {
            Thread::Mutator(own) => match command {
                Command::Mutator { mutator, .. } => mutator == own,
                Command::Book(_) | Command::Evacuator(_) => false,
            },
            Thread::Book => match command {
                Command::Mutator { .. } => false,
                Command::Book(_) => true,
                Command::Evacuator(step) => is_round(step),
            },
        }
    }
}
