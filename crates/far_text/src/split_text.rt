//! The commands of a text that are split among threads, each with the number of its line.

use crate::command::Command;
use crate::commands::Commands;
use crate::threads::{Thread, has_thread};
use std::alloc::{AllocError, Global};
use std::marker::Model;

/// Commands, in order, each beside the number of its line.
#[derive(Drop)]
pub struct SplitText {
    commands: Commands,
    numbers: Vec<u32>,
}

impl Model for SplitText {
    ghost use Rattle.std.specs.Prelude.{ℕ, ◌≡◌, ◌≤◌, ◌+◌, List, length, zip};
    ghost use Rattle.far_text.specs.Command.{Command};

    ghost Value = { List (ℕ × Command) };

    ghost use Rattle.far_text.specs.declared.text.TheConstants.{LONGEST_TEXT};

    ghost view = { λ t. zip t.numbers.items t.commands };

    ghost invariant = { λ t. (length t.numbers.items ≡ length t.commands) × (length t.commands ≤ LONGEST_TEXT + 1) };
}

/// The lines of one thread, in order.
#[derive(Drop)]
pub struct Lines<'a> {
    text: &'a SplitText,
    places: Vec<u32>,
}

impl<'a> Model for Lines<'a> {
    ghost use Rattle.std.specs.Prelude.{ℕ, List, length, map};
    ghost use Rattle.far_text.specs.Command.{Command};

    ghost Value = { List (ℕ × Command) };

    ghost use Rattle.far_text.specs.Places.{line_at, AllBelow};

    ghost view = { λ l. map (line_at l.text.now) l.places.items };

    ghost invariant = { λ l. AllBelow (length l.text.now) l.places.items };
}

impl SplitText {
    ghost use Rattle.std.specs.Prelude.{◌≡◌, ◌≤◌, ◌<◌, ◌+◌, ◌++◌, ◌∷◌, [], length, drop, cond, Some, None, IfOk};
    ghost use Rattle.std.specs.Option.{option_map, option_and_then};
    ghost use Rattle.far_text.specs.declared.text.TheConstants.{LONGEST_TEXT};
    ghost use Rattle.far_text.specs.Command.{as_command};
    ghost use Rattle.far_text.specs.Written.{WritesBytes};
    ghost use Rattle.far_text.specs.Spelled.{command_spelled};
    ghost use Rattle.far_text.specs.Split.{threaded};
    ghost use Rattle.far_text.specs.Threads.{as_thread, lines_in};

    // No command yet.
    pub(crate) fn new(alloc: Global) -> Result<SplitText, AllocError>
        ensures { IfOk result (λ text. text ≡ []) }
    {
        Ok(SplitText {
            commands: Commands::new(alloc)?,
            numbers: Vec::new(alloc),
        })
    }

    /// How many they are.
    pub fn len(&self) -> usize
        ensures value { result ≡ length self.now }
        ensures few { result ≤ LONGEST_TEXT + 1 }
    {
        self.numbers.len()
    }

    /// The number that the line at a place has in the text, from 1, and its command.
    pub fn at(&self, at: usize) -> (u64, Command<'_>)
        requires { at < length self.now }
        ensures value { drop at self.now ≡ (result.0, as_command result.1) ∷ drop (at + 1) self.now }
        ensures bytes { WritesBytes (as_command result.1) }
    {
        (u64::from(self.numbers[at]), self.commands.at(at))
    }

    // Adds the command of a line, if one of the threads of so many mutators, or of the book, runs it, and it can be kept.
    // Whether it did.
    pub(crate) fn push(
        &mut self,
        mutators: u64,
        number: u32,
        command: Command<'_>,
    ) -> Result<bool, AllocError>
        requires { length self.old ≤ LONGEST_TEXT }
        ensures { IfOk result (λ kept. option_map (λ c. self.old ++ (number, c) ∷ []) (option_and_then (threaded mutators) (command_spelled command.entry)) ≡ cond kept (Some self.new) None) }
    {
        if !has_thread(mutators, command) {
            return Ok(false);
        }
        self.numbers.push(number)?;
        match self.commands.push(command) {
            Ok(true) => Ok(true),
            other => {
                self.numbers.pop();
                other
            }
        }
    }

    /// The lines of a thread: all of its own, in order.
    pub fn lines_of(&self, alloc: Global, thread: Thread) -> Result<Lines<'_>, AllocError>
        ensures { IfOk result (λ lines. lines ≡ lines_in (as_thread thread) self.now) }
    {
        let mut places = Vec::new(alloc);
        for place in 0..self.len() {
            let (_, command) = self.at(place);
            if thread.runs(command) {
                places.push(place as u32)?;
            }
        }
        Ok(Lines { text: self, places })
    }
}

impl<'a> Lines<'a> {
    ghost use Rattle.std.specs.Prelude.{◌≡◌, ◌<◌, ◌+◌, ◌∷◌, length, drop};
    ghost use Rattle.far_text.specs.Command.{as_command};
    ghost use Rattle.far_text.specs.Written.{WritesBytes};

    /// How many they are.
    pub fn len(&self) -> usize
        ensures { result ≡ length self.now }
    {
        self.places.len()
    }

    /// The number that the line at a place has in the text, from 1, and its command.
    pub fn at(&self, at: usize) -> (u64, Command<'_>)
        requires { at < length self.now }
        ensures value { drop at self.now ≡ (result.0, as_command result.1) ∷ drop (at + 1) self.now }
        ensures bytes { WritesBytes (as_command result.1) }
    {
        let text = self.text;
        text.at(self.places[at] as usize)
    }
}
