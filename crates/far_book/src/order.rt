//! The sealed logs by age: one leaves without a search.

ghost use Rattle.std.specs.Prelude.{◌≡◌, ◌<◌, ◌≤◌, [], ◌∷◌, ◌++◌, length, IfOk};
ghost use Rattle.std.specs.Vec.{vec_capacity};
ghost use Rattle.far_book.specs.book.Order.{still_in};
ghost use Rattle.far_book.specs.book.Releasing.{order_without};
ghost use Rattle.far_book.specs.declared.order.TheConstants.{MOST_SEALED};

use crate::number_set::NumberSet;
use far_word::MOST_LOGS;
use std::alloc::{AllocError, Global};
use std::marker::Model;

// The most logs of a list: all of the largest heap.
const MOST_SEALED: usize = MOST_LOGS as usize;

/// The sealed logs, oldest first. One that leaves is noted as gone; the next one that is sealed takes all such out of the list at once.
#[derive(Drop)]
pub(crate) struct Order {
    listed: Vec<u8>,
    gone: NumberSet,
}

impl Model for Order {
    ghost use Rattle.std.specs.Prelude.{◌≤◌, ℕ, List};
    ghost use Rattle.std.specs.Vec.{vec_capacity, vec_len};
    ghost use Rattle.far_book.specs.book.Order.{still_in};
    ghost use Rattle.far_book.specs.declared.order.TheConstants.{MOST_SEALED};

    ghost Value = { List ℕ };

    ghost view = { λ order. still_in order.gone order.listed.items };

    ghost invariant = { λ order. (vec_len order.listed ≤ MOST_SEALED) × (MOST_SEALED ≤ vec_capacity order.listed) };
}

impl Order {
    /// No log. All room is taken now.
    pub(crate) fn new(alloc: Global) -> Result<Order, AllocError>
        ensures { IfOk result (λ order. order ≡ []) }
    {
        Ok(Order {
            listed: Vec::with_capacity(alloc, MOST_SEALED)?,
            gone: NumberSet::none(),
        })
    }

    /// A log is sealed: it is the youngest.
    pub(crate) fn push(&mut self, log: u8)
        requires room { length self.old < MOST_SEALED }
        ensures { self.new ≡ self.old ++ log ∷ [] }
    {
        take_out(&mut self.listed, self.gone);
        self.gone = NumberSet::none();
        self.listed.push_reserved(log);
    }

    /// A log is none of the sealed ones.
    pub(crate) fn leave(&mut self, log: u8)
        requires few { log < MOST_SEALED }
        ensures { self.new ≡ order_without log self.old }
    {
        self.gone.insert(log);
    }

    /// A list, oldest first, of the sealed logs and of others that are gone, and which these are.
    pub(crate) fn parts(&self) -> (&[u8], NumberSet)
        ensures sealed { still_in result.1 result.0.now ≡ self.now }
        ensures few { length result.0.now ≤ MOST_SEALED }
    {
        (self.listed.as_slice(), self.gone)
    }
}

// Takes the logs that are gone out of a list.
fn take_out(listed: &mut Vec<u8>, gone: NumberSet)
    ensures list { listed.new.items ≡ still_in gone listed.old.items }
    ensures room { vec_capacity listed.new ≡ vec_capacity listed.old }
{
    if gone.is_empty() {
        return;
    }
    listed.retain(|log| !gone.has(*log));
}
