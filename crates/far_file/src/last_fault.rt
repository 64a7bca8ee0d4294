//! The last fault of a device, for those who ask while another has the device.

ghost use Rattle.std.specs.Prelude.{◌≡◌, ◌<◌, ◌≤◌, ◌%◌, ◌^◌, ℕ, Option, Some};
ghost use Rattle.far_file.specs.Faults.{fault_number, Tells};
ghost use Rattle.far_file.specs.declared.last_fault.KeyFault.{KeyFault};

use crate::fault::{FileFault, StorageFault};
use std::alloc::{AllocError, Global};
use std::sync::Arc;
use std::sync::atomic::{AtomicIn, Ordering, Rule};

/// A fault of a device over storage: the key of the call, and why it failed.
#[derive(Clone, Copy, Debug, PartialEq, Eq)]
pub struct KeyFault {
    pub key: u32,
    pub why: FileFault,
}

// Words of a fault or of none: a key above four bits, which have its number.
pub(crate) struct FaultWord;

impl Rule for FaultWord {
    ghost invariant = { λ word. (word < 2 ^ 36) × (word % 16 ≤ 9) };
}

/// Tells the last fault of a device, whoever has that now. Others may ask at the same time, by handles of their own.
#[derive(Drop)]
pub struct LastFault {
    pub(crate) word: Arc<AtomicIn<FaultWord>, Global>,
}

impl LastFault {
    // It tells no fault.
    pub(crate) fn new(alloc: Global) -> Result<LastFault, AllocError> {
        match Arc::new(alloc, AtomicIn::new(0)) {
            Ok(word) => Ok(LastFault { word }),
            Err(_) => Err(AllocError),
        }
    }

    /// Another handle, on the last fault of the same device.
    pub fn try_clone(&self) -> Result<LastFault, AllocError> {
        let word = Arc::try_clone(&self.word)?;
        Ok(LastFault { word })
    }

    /// The fault of the last call that answered `Device`; `None` if none did since the device handed out its first handle.
    pub fn get(&self) -> Option<KeyFault> {
        told_by(self.word.load(Ordering::SeqCst))
    }

    // Tells this fault from now on.
    pub(crate) fn set(&self, told: KeyFault) {
        self.word.store(word_of(told), Ordering::SeqCst);
    }
}

/// A word tells one fault alone: so what is told is what was stored.
pub fn words_tell_one_fault()
    ensures { (word : ℕ) (told : KeyFault) (other : Option KeyFault) → Tells word (Some told) → Tells word other → other ≡ Some told }
{}

// The word that tells a fault.
fn word_of(told: KeyFault) -> u64
    ensures below { result < 2 ^ 36 }
    ensures low { result % 16 ≤ 9 }
    ensures tells { Tells result (Some told) }
{
    16 * told.key as u64 + number(told.why)
}

// What a word tells.
fn told_by(word: u64) -> Option<KeyFault>
    requires below { word < 2 ^ 36 }
    requires low { word % 16 ≤ 9 }
    ensures { Tells word result }
{
    let why = match word % 16 {
        0 => return None,
        1 => FileFault::NoSlot,
        2 => FileFault::Nothing,
        3 => FileFault::Misfit,
        4 => FileFault::Storage(StorageFault::Memory),
        5 => FileFault::Storage(StorageFault::Short),
        6 => FileFault::Storage(StorageFault::Full),
        7 => FileFault::Storage(StorageFault::Medium),
        8 => FileFault::Storage(StorageFault::Interrupted),
        _ => FileFault::Storage(StorageFault::Failed),
    };
    let key = (word / 16) as u32;
    Some(KeyFault { key, why })
}

fn number(why: FileFault) -> u64
    ensures { result ≡ fault_number why }
{
    match why {
        FileFault::NoSlot => 1,
        FileFault::Nothing => 2,
        FileFault::Misfit => 3,
        FileFault::Storage(StorageFault::Memory) => 4,
        FileFault::Storage(StorageFault::Short) => 5,
        FileFault::Storage(StorageFault::Full) => 6,
        FileFault::Storage(StorageFault::Medium) => 7,
        FileFault::Storage(StorageFault::Interrupted) => 8,
        FileFault::Storage(StorageFault::Failed) => 9,
    }
}
