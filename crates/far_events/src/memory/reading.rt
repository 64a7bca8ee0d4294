//! One place of the memory read.

ghost use Rattle.std.specs.Prelude.{◌≡◌, ◌*◌, ◌<◌, ◌≤◌, ◌+◌, nat_lt, is_some, IsSome, Some, ℕ, length, slice_index};
ghost use Rattle.far_word.specs.declared.sizes.TheConstants.{CELLS};
ghost use Rattle.far_events.specs.state.State.{State, addr};
ghost use Rattle.far_events.specs.state.Law.{in_use};
ghost use Rattle.far_events.specs.events.Step.{is_closed, is_opened, holds, place_to_view, zeros, near_len};
ghost use Rattle.far_events.specs.state.Memory.{place_in, state_of};
ghost use Rattle.far_word.specs.Pointer.{read_of};

use crate::event::Kind;
use crate::memory::Memory;
use far_word::{CELLS, LOG_WORDS, Place, PtrWord, resting_place};

impl Memory {
    #[tactic(auto, unfolding(crate::specs::state::Memory::state_of))]
    pub fn is_honest(&self) -> bool
        ensures { result ≡ (state_of self.now).honest }
    {
        self.honest
    }

    #[tactic(auto, unfolding(crate::specs::state::Memory::state_of))]
    pub fn epoch(&self) -> u64
        ensures { result ≡ (state_of self.now).epoch }
    {
        self.epoch
    }

    #[tactic(auto, unfolding(crate::specs::state::Memory::state_of))]
    pub(crate) fn round_epoch(&self) -> u64
        ensures { result ≡ (state_of self.now).round_epoch }
    {
        self.round_epoch
    }

    #[tactic(auto, unfolding(crate::specs::state::Memory::state_of))]
    pub fn mutators(&self) -> u8
        ensures { result ≡ (state_of self.now).mutators }
    {
        self.scopes.len() as u8
    }

    #[tactic(auto, unfolding(crate::specs::state::Memory::state_of))]
    pub fn logs(&self) -> u8
        ensures { result ≡ (state_of self.now).logs }
    {
        self.tails.len() as u8
    }

    #[tactic(auto, unfolding(crate::specs::state::Memory::state_of))]
    pub fn scope(&self, owner: u8) -> u64
        ensures { result ≡ (state_of self.now).scope owner }
    {
        self.scopes.get(owner as usize).copied().unwrap_or(0)
    }

    #[tactic(auto, unfolding(crate::specs::state::Memory::state_of))]
    pub fn job(&self, job: u8) -> u64
        ensures { result ≡ (state_of self.now).copying.word job }
    {
        self.jobs.word(job)
    }

    #[tactic(auto, unfolding(crate::specs::state::Memory::state_of))]
    pub(crate) fn is_closed(&self, owner: u8) -> bool
        ensures { result ≡ is_closed (state_of self.now) owner }
    {
        (owner as usize) < self.scopes.len() && self.scopes[owner as usize] == 0
    }

    #[tactic(auto, unfolding(crate::specs::state::Memory::state_of))]
    pub fn is_opened(&self, owner: u8) -> bool
        ensures { result ≡ is_opened (state_of self.now) owner }
    {
        (owner as usize) < self.scopes.len() && self.scopes[owner as usize] != 0
    }

    #[tactic(auto, unfolding(crate::specs::state::Memory::state_of))]
    pub(crate) fn has_owner(&self, owner: u8) -> bool
        ensures { result ≡ nat_lt owner (state_of self.now).mutators }
    {
        (owner as usize) < self.scopes.len()
    }

    #[tactic(auto, unfolding(crate::specs::state::Memory::state_of))]
    pub(crate) fn has_pointer(&self, pointer: u16) -> bool
        ensures { result ≡ nat_lt pointer (CELLS * (state_of self.now).mutators) }
    {
        (pointer as usize) < self.cells.len()
    }

    #[tactic(auto, unfolding(crate::specs::state::Memory::state_of))]
    pub(crate) fn has_log(&self, log: u8) -> bool
        ensures { result ≡ nat_lt log (state_of self.now).logs }
    {
        (log as usize) < self.tails.len()
    }

    #[tactic(auto, unfolding(crate::specs::state::Memory::state_of))]
    pub fn remembered(&self, owner: u8) -> Option<u64>
        ensures { result ≡ (state_of self.now).remembered owner }
    {
        self.remembered.get(owner as usize).copied().flatten()
    }

    #[tactic(auto, unfolding(crate::specs::state::Memory::state_of))]
    pub(crate) fn remembered_epoch(&self, owner: u8) -> u64
        requires { IsSome ((state_of self.now).remembered owner) }
        ensures { (state_of self.now).remembered owner ≡ Some result }
    {
        self.remembered[owner as usize].unwrap()
    }

    #[tactic(auto, unfolding(crate::specs::state::Memory::state_of))]
    pub fn uses(&self, pointer: u16) -> bool
        ensures { result ≡ (state_of self.now).used pointer }
    {
        self.used.get(pointer as usize).copied().unwrap_or(false)
    }

    #[tactic(auto, unfolding(crate::specs::state::Memory::state_of))]
    pub fn held(&self, pointer: u16) -> Option<Place>
        ensures { result ≡ (state_of self.now).held pointer }
    {
        if !self.is_held(pointer) {
            return None;
        }
        Some(self.held_place(pointer))
    }

    #[tactic(auto, unfolding(crate::specs::state::Memory::state_of))]
    pub fn is_held(&self, pointer: u16) -> bool
        ensures { result ≡ is_some ((state_of self.now).held pointer) }
    {
        self.held.has(pointer as usize)
    }

    #[tactic(auto, unfolding(crate::specs::state::Memory::state_of))]
    pub fn is_soiled(&self, pointer: u16) -> bool
        ensures { result ≡ (state_of self.now).soiled pointer }
    {
        self.soiled.has(pointer as usize)
    }

    #[tactic(auto, unfolding(crate::specs::state::Memory::state_of))]
    pub(crate) fn held_place(&self, pointer: u16) -> Place
        requires { IsSome ((state_of self.now).held pointer) }
        ensures { (state_of self.now).held pointer ≡ Some result }
    {
        let number = self.places[pointer as usize];
        place_in(number)
    }

    #[tactic(auto, unfolding(crate::specs::state::Memory::state_of))]
    pub fn cell(&self, pointer: u16) -> u64
        ensures { result ≡ (state_of self.now).cell pointer }
    {
        self.cells.get(pointer as usize).copied().unwrap_or(0)
    }

    #[tactic(auto, unfolding(crate::specs::state::Memory::state_of))]
    pub fn cell_at(&self, pointer: u16) -> u64
        requires { pointer < CELLS * (state_of self.now).mutators }
        ensures { result ≡ (state_of self.now).cell pointer }
    {
        self.cells[pointer as usize]
    }

    #[tactic(auto, unfolding(crate::specs::state::Memory::state_of))]
    pub fn cells(&self) -> &[u64]
        ensures sized { length result.now ≡ CELLS * (state_of self.now).mutators }
        ensures each { (p : ℕ) → slice_index result.now p ≡ (state_of self.now).cell p }
    {
        self.cells.as_slice()
    }

    #[tactic(auto, unfolding(crate::specs::state::Memory::state_of))]
    pub fn word(&self, at: usize) -> u64
        requires { at < LOG_WORDS * (state_of self.now).logs }
        ensures { result ≡ (state_of self.now).word at }
    {
        self.words.word(at)
    }

    #[tactic(auto, unfolding(crate::specs::state::Memory::state_of))]
    pub fn starts(&self, at: usize) -> bool
        requires { at < LOG_WORDS * (state_of self.now).logs }
        ensures { result ≡ (state_of self.now).starts at }
    {
        self.starts.at(at)
    }

    #[tactic(auto, unfolding(crate::specs::state::Memory::state_of))]
    pub fn kind(&self, log: u8) -> Kind
        requires { log < (state_of self.now).logs }
        ensures { result ≡ (state_of self.now).kind log }
    {
        self.kinds[log as usize]
    }

    #[tactic(auto, unfolding(crate::specs::state::Memory::state_of))]
    pub fn tail(&self, log: u8) -> u16
        requires { log < (state_of self.now).logs }
        ensures { result ≡ (state_of self.now).tail log }
    {
        self.tails[log as usize]
    }

    #[tactic(auto, unfolding(crate::specs::state::Memory::state_of))]
    pub fn current(&self) -> u8
        ensures is { result ≡ (state_of self.now).current }
        ensures within { result < (state_of self.now).logs }
    {
        self.current
    }

    /// Whether the owner holds its pointer's object.
    pub(crate) fn holds(&self, owner: u8, pointer: u16) -> bool
        ensures { result ≡ holds (state_of self.now) owner pointer }
    {
        pointer / CELLS == owner as u16 && self.is_held(pointer)
    }

    /// Whether `n` words from `from` on are 0.
    #[tactic(auto, unfolding(crate::specs::state::Memory::state_of))]
    pub(crate) fn zeros(&self, from: usize, n: usize) -> bool
        requires { from + n ≤ LOG_WORDS * (state_of self.now).logs }
        ensures { result ≡ zeros (state_of self.now).word from n }
    {
        for k in 0..n {
            if self.word(from + k) != 0 {
                return false;
            }
        }
        true
    }
}

/// Where a new view of a cell may rest.
pub(crate) fn place_to_view(cell: u64) -> Option<Place>
    requires { IsSome (read_of cell) }
    ensures { result ≡ place_to_view (read_of cell) }
{
    resting_place(cell)
}

/// The length of a near cell's object; 0 for any other cell.
pub(crate) fn near_len(cell: u64) -> u16
    requires { IsSome (read_of cell) }
    ensures { result ≡ near_len (read_of cell) }
{
    match PtrWord::known(cell) {
        PtrWord::Near { len, .. } => len,
        PtrWord::Free | PtrWord::Far { .. } => 0,
    }
}

/// The place that the number of a word says.
fn place_in(number: u16) -> Place
    ensures { result ≡ place_in number }
{
    Place {
        log: (number / LOG_WORDS) as u8,
        at: number % LOG_WORDS,
    }
}

/// The word where a place's header stands.
pub fn first_word(place: Place) -> usize
    ensures { result ≡ addr place }
{
    place.log as usize * LOG_WORDS as usize + place.at as usize
}

/// Whether a cell is used and not dropped.
pub fn in_use(cell: u64) -> bool
    requires { IsSome (read_of cell) }
    ensures { result ≡ in_use (read_of cell) }
{
    match PtrWord::known(cell) {
        PtrWord::Near { marks, .. } | PtrWord::Far { marks, .. } => !marks.dropped,
        PtrWord::Free => false,
    }
}
