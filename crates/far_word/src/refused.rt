//! Why a call was refused.

ghost use Rattle.std.specs.Prelude.{◌≡◌};
ghost use Rattle.far_word.specs.Refused.{refusal_number};

use thiserror::Error;

/// Why a call was refused. Each refusal has its number, and its cause alone.
#[derive(Clone, Copy, Debug, PartialEq, Eq, Error)]
pub enum Refused {
    #[error("out of memory")]
    Memory,
    #[error("no log has room")]
    NoRoom,
    #[error("no pointer is free")]
    NoPointer,
    #[error("an object's length is 1 to 4088 bytes")]
    Length,
    #[error("the scope is closed")]
    Closed,
    #[error("the scope is open")]
    AlreadyOpen,
    #[error("the pointer is not held")]
    NotHeld,
    #[error("out of range")]
    Range,
    #[error("the scope views the object")]
    Held,
    #[error("the device failed")]
    Device,
    #[error("the device gave bytes of another length")]
    Damaged,
    #[error("the call does not belong to the phase")]
    Phase,
    #[error("no epoch is left")]
    EpochsSpent,
    #[error("the pointer word is {0:016x}")]
    Marked(u64),
    #[error("logs, mutators or first epoch out of range")]
    Shape,
    #[error("line {0} is off the grammar")]
    Syntax(u64),
    #[error("log {0} may not be chosen")]
    BadChoice(u8),
    #[error("mutator {0} has been open since epoch {1}")]
    StillOpen(u8, u64),
}

impl Refused {
    /// The refusal's number, 1 to 18.
    pub fn number(self) -> u8
        ensures { result ≡ refusal_number self }
    {
        match self {
            Refused::Memory => 1,
            Refused::NoRoom => 2,
            Refused::NoPointer => 3,
            Refused::Length => 4,
            Refused::Closed => 5,
            Refused::AlreadyOpen => 6,
            Refused::NotHeld => 7,
            Refused::Range => 8,
            Refused::Held => 9,
            Refused::Device => 10,
            Refused::Damaged => 11,
            Refused::Phase => 12,
            Refused::EpochsSpent => 13,
            Refused::Marked(_) => 14,
            Refused::Shape => 15,
            Refused::Syntax(_) => 16,
            Refused::BadChoice(_) => 17,
            Refused::StillOpen(_, _) => 18,
        }
    }
}
