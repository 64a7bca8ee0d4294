//! An owner's seat with what is known of one of its pointers when it runs: a test asks for calls by value, and one that the
//! view doesn't allow isn't made.

ghost use Rattle.std.specs.Prelude.{◌≡◌, ◌*◌, ◌<◌};
ghost use Rattle.far_word.specs.Pointer.{read_of};
ghost use Rattle.far_events.specs.events.Ask.{is_request};
ghost use Rattle.far_events.specs.events.Owners.{keeps_padding};
ghost use Rattle.far_core.specs.state.CoreState.{core_state};
ghost use Rattle.far_table.specs.Views.{said_len};
ghost use Rattle.tests_far_table.specs.Fits.{Fits, Ready, known_of, used_len};

use crate::Known;
use far_core::{Core, Event, Reply};
use far_device::MemDevice;
use far_table::MutSeat;
use far_word::{CELLS, Mark, PtrWord, ScopeWord, words_for};

/// A call of an owner's seat.
#[derive(Clone, Copy)]
pub(super) enum Act {
    ReadEpoch,
    Open,
    Close,
    Pin,
    Load(u16),
    Soil,
    Store(u16, u64),
    Adopt,
    Ask(Mark),
}

impl Act {
    /// The event of the core that the call is.
    pub(super) fn event(self, owner: u8, pointer: u16) -> Event {
        match self {
            Act::ReadEpoch => Event::ReadEpoch { owner },
            Act::Open => Event::Open { owner },
            Act::Close => Event::Close { owner },
            Act::Pin => Event::Pin { owner, pointer },
            Act::Load(index) => Event::Load {
                owner,
                pointer,
                index,
            },
            Act::Soil => Event::Soil { owner, pointer },
            Act::Store(index, word) => Event::Store {
                owner,
                pointer,
                index,
                word,
            },
            Act::Adopt => Event::Adopt { owner, pointer },
            Act::Ask(mark) => Event::Ask {
                owner,
                pointer,
                mark,
            },
        }
    }
}

/// What a core says that an owner knows.
pub(super) fn known_of(core: &Core, number: u8) -> Known
    requires { number < 8 }
    ensures { result ≡ known_of (core_state core.now) number }
{
    let pointer = CELLS * number as u16;
    let opened = match ScopeWord::read(core.scope(number)) {
        Some(ScopeWord::Open { .. }) => true,
        Some(ScopeWord::Closed) | None => false,
    };
    Known {
        opened,
        read: core.has_epoch(number),
        used: core.is_used(pointer),
        held: core.is_held(pointer),
        soiled: core.is_soiled(pointer),
        len: used_len(core, pointer),
    }
}

fn used_len(core: &Core, pointer: u16) -> u16
    ensures { result ≡ used_len (core_state core.now) pointer }
{
    if !core.is_used(pointer) {
        return 0;
    }
    len_in(core.cell(pointer))
}

/// A seat, one of its owner's pointers, and what is known of it.
#[derive(Drop)]
pub(super) struct Owner {
    seat: MutSeat<MemDevice>,
    pointer: u16,
    known: Known,
    ghost fits: { Fits seat.view pointer known },
}

impl Owner {
    // The owner of the last of the seats that are left, with its first pointer.
    pub(super) fn last_of(seats: &mut Vec<MutSeat<MemDevice>>, all: &[Known]) -> Option<Owner>
        requires { Ready seats.old.items all.now }
        ensures { Ready seats.new.items all.now }
    {
        let seat = seats.pop()?;
        let number = seats.len();
        Some(Owner {
            seat,
            pointer: CELLS * number as u16,
            known: all[number],
        })
    }

    fn read_epoch(&mut self) -> Reply {
        if self.known.opened {
            return Reply::Refused;
        }
        let epoch = self.seat.read_epoch();
        self.known.read = true;
        Reply::Epoch(epoch)
    }

    fn open(&mut self) -> Reply {
        if self.known.opened || !self.known.read {
            return Reply::Refused;
        }
        self.seat.open();
        self.known.opened = true;
        Reply::Done
    }

    fn close(&mut self) -> Reply {
        if !self.known.opened {
            return Reply::Refused;
        }
        self.seat.close();
        self.known.opened = false;
        self.known.read = false;
        self.known.held = false;
        self.known.soiled = false;
        Reply::Done
    }

    fn pin(&mut self) -> Reply {
        if !self.known.opened || !self.known.used || self.known.held {
            return Reply::Refused;
        }
        match self.seat.pin(self.pointer) {
            Ok(place) => {
                self.known.held = true;
                Reply::Held(place)
            }
            Err(word) => Reply::Word(word),
        }
    }

    fn load(&mut self, index: u16) -> Reply {
        if !self.known.held || index >= words_for(self.known.len) {
            return Reply::Refused;
        }
        Reply::Word(self.seat.load(self.pointer, index))
    }

    fn soil(&mut self) -> Reply {
        if !self.known.held {
            return Reply::Refused;
        }
        let word = self.seat.soil(self.pointer);
        self.known.soiled = true;
        Reply::Word(word)
    }

    fn store(&mut self, index: u16, word: u64) -> Reply {
        if !self.known.held || !self.known.soiled || index >= words_for(self.known.len) {
            return Reply::Refused;
        }
        if !keeps_padding(self.known.len, index, word) {
            return Reply::Refused;
        }
        self.seat.store(self.pointer, index, word);
        Reply::Done
    }

    fn adopt(&mut self) -> Reply {
        if self.known.used {
            return Reply::Refused;
        }
        match self.seat.adopt(self.pointer) {
            Some(word) => {
                self.known.used = true;
                self.known.len = len_in(word);
                Reply::Word(word)
            }
            None => Reply::Refused,
        }
    }

    fn ask(&mut self, mark: Mark) -> Reply {
        if !self.known.used || self.known.held || !is_request(mark) {
            return Reply::Refused;
        }
        let word = self.seat.ask(self.pointer, mark);
        if mark == Mark::Dropped {
            self.known.used = false;
            self.known.len = 0;
        }
        Reply::Word(word)
    }

    /// Makes the call, if the view allows it: what it answers.
    pub(super) fn act(&mut self, act: Act) -> Reply {
        match act {
            Act::ReadEpoch => self.read_epoch(),
            Act::Open => self.open(),
            Act::Close => self.close(),
            Act::Pin => self.pin(),
            Act::Load(index) => self.load(index),
            Act::Soil => self.soil(),
            Act::Store(index, word) => self.store(index, word),
            Act::Adopt => self.adopt(),
            Act::Ask(mark) => self.ask(mark),
        }
    }
}

fn is_request(mark: Mark) -> bool
    ensures { result ≡ is_request mark }
{
    matches!(mark, Mark::Moved | Mark::Dropped)
}

// The length that a word says; 0 where it says none.
fn len_in(word: u64) -> u16
    ensures { result ≡ said_len (read_of word) }
{
    match PtrWord::read(word) {
        Some(PtrWord::Near { len, .. } | PtrWord::Far { len, .. }) => len,
        Some(PtrWord::Free) | None => 0,
    }
}

// Whether a word leaves the bytes after an object's end 0.
fn keeps_padding(len: u16, index: u16, word: u64) -> bool
    requires { 8 * index < len }
    ensures { result ≡ keeps_padding len index word }
{
    let left = len - 8 * index;
    left >= 8 || word >> (8 * left) == 0
}
