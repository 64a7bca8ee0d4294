//! The events of a round.

ghost use Rattle.std.specs.Prelude.{◌≡◌, ◌*◌, ◌<◌, ◌≤◌, true, IsSome};
ghost use Rattle.far_events.specs.declared.event.Event.{Event};
ghost use Rattle.far_events.specs.declared.event.Reply.{Reply};
ghost use Rattle.far_events.specs.events.Advance.{all_marked, all_sealed, is_among, is_marked_among, is_sealed_among};
ghost use Rattle.far_events.specs.events.Look.{shows_clear};
ghost use Rattle.far_events.specs.events.Mark.{is_sealed};
ghost use Rattle.far_events.specs.events.Next.{next_state};
ghost use Rattle.far_events.specs.events.Step.{answer, is_legal};
ghost use Rattle.far_events.specs.state.Law.{Law};
ghost use Rattle.far_events.specs.state.Memory.{state_of};
ghost use Rattle.far_events.specs.state.State.{State, put};
ghost use Rattle.far_word.specs.Pointer.{read_of};
ghost use Rattle.far_word.specs.Scope.{scope_of};

use crate::memory::Memory;
use crate::memory::book::is_sealed;
use far_word::{CELLS, EPOCH_END, MOST_LOGS, PtrWord, ScopeWord};

#[tactic(auto, unfolding(crate::specs::events::Next::next_state))]
impl Memory {
    /// This looks at the kinds of the logs and at all cells.
    pub fn may_advance(&self, logs: u64) -> bool
        requires { Law (state_of self.now) }
        ensures { result ≡ is_legal (state_of self.now) (Event.Advance logs) }
    {
        self.epoch() + 1 < EPOCH_END
            && self.all_sealed(logs, MOST_LOGS)
            && self.all_marked(logs, CELLS * self.mutators() as u16)
    }

    /// Whether each of the first logs is sealed, if it is in a set.
    fn all_sealed(&self, logs: u64, count: u8) -> bool
        ensures { result ≡ all_sealed (state_of self.now) logs count }
    {
        for log in 0..count {
            if !self.is_sealed_among(logs, log) {
                return false;
            }
        }
        true
    }

    /// Whether a log is sealed, if it is in a set.
    fn is_sealed_among(&self, logs: u64, log: u8) -> bool
        ensures { result ≡ is_sealed_among (state_of self.now) logs log }
    {
        !is_among(logs, log) || (self.has_log(log) && is_sealed(self.kind(log)))
    }

    /// Whether each of the first cells has EVAC, if it is near in a log of a set.
    fn all_marked(&self, logs: u64, cells: u16) -> bool
        requires { Law (state_of self.now) }
        ensures { result ≡ all_marked (state_of self.now) logs cells }
    {
        for pointer in 0..cells {
            if !is_marked_among(logs, self.cell(pointer)) {
                return false;
            }
        }
        true
    }

    pub fn advance(&mut self, logs: u64) -> u64
        requires law { Law (state_of self.old) }
        requires legal { is_legal (state_of self.old) (Event.Advance logs) ≡ true }
        ensures state { state_of self.new ≡ next_state (state_of self.old) (Event.Advance logs) }
        ensures epoch { answer (state_of self.old) (Event.Advance logs) ≡ Reply.Epoch result }
    {
        let epoch = self.epoch() + 1;
        self.choose(logs);
        self.forget_clear();
        self.set_epoch(epoch);
        epoch
    }

    /// The round is of the logs of a set.
    fn choose(&mut self, logs: u64)
        requires law { Law (state_of self.old) }
        requires shut { all_sealed (state_of self.old) logs MOST_LOGS ≡ true }
        ensures { state_of self.new ≡ record (state_of self.old) { round = is_among logs } }
    {
        for log in 0..self.logs() {
            self.set_in_round(log, is_among(logs, log));
        }
    }

    pub fn look(&mut self, owner: u8) -> u64
        requires { owner < (state_of self.old).mutators }
        ensures state { state_of self.new ≡ next_state (state_of self.old) (Event.Look owner) }
        ensures word { answer (state_of self.old) (Event.Look owner) ≡ Reply.Word result }
    {
        let word = self.scope(owner);
        let clear = self.is_clear(owner as u16) || shows_clear(self.round_epoch(), word);
        self.set_clear(owner, clear);
        word
    }
}

/// Whether a log is in a set.
fn is_among(logs: u64, log: u8) -> bool
    ensures { result ≡ is_among logs log }
{
    log < MOST_LOGS && (logs >> log) & 1 == 1
}

/// Whether a cell has EVAC, if it is near in a log of a set.
fn is_marked_among(logs: u64, cell: u64) -> bool
    requires { IsSome (read_of cell) }
    ensures { result ≡ is_marked_among logs (read_of cell) }
{
    match PtrWord::known(cell) {
        PtrWord::Near { place, marks, .. } => !is_among(logs, place.log) || marks.evac,
        PtrWord::Free | PtrWord::Far { .. } => true,
    }
}

/// Whether a scope word says closed, or open at an epoch or later.
fn shows_clear(epoch: u64, word: u64) -> bool
    ensures { result ≡ shows_clear epoch (scope_of word) }
{
    match ScopeWord::read(word) {
        Some(ScopeWord::Closed) => true,
        Some(ScopeWord::Open { epoch: opened }) => epoch <= opened,
        None => false,
    }
}
