//! The sizes of a heap, named once.

ghost use Rattle.std.specs.Prelude.{◌≡◌};
ghost use Rattle.far_word.specs.Sizes.{size_of, words_for};

/// The words of a log, eight bytes each.
pub const LOG_WORDS: u16 = 512;

/// The bytes of a log.
pub const LOG_BYTES: u16 = LOG_WORDS * 8;

/// The last word of a log where the header of an object may stand: one data word follows.
pub const LAST_AT: u16 = LOG_WORDS - 2;

/// The most data bytes of an object.
pub const LONGEST: u16 = 4088;

/// The fewest logs of a heap.
pub const LEAST_LOGS: u8 = 2;

/// The most logs of a heap.
pub const MOST_LOGS: u8 = 64;

/// The fewest mutators of a heap.
pub const LEAST_MUTATORS: u8 = 1;

/// The most mutators of a heap.
pub const MOST_MUTATORS: u8 = 8;

/// The pointer cells of each mutator.
pub const CELLS: u16 = 256;

/// The pointer cells of the largest heap.
pub const POINTERS: u16 = 2048;

/// The job words of a heap, each for the copy of one object.
pub const JOBS: u8 = 16;

/// The most copiers of a heap.
pub const MOST_COPIERS: u8 = 8;

/// Epochs stay below this.
pub const EPOCH_END: u64 = 1 << 62;

/// The words that hold `len` bytes.
pub fn words_for(len: u16) -> u16
    ensures { result ≡ words_for len }
{
    len.div_ceil(8)
}

/// The words that an object of `len` data bytes takes, its header included.
pub fn size_of(len: u16) -> u16
    ensures { result ≡ size_of len }
{
    1 + words_for(len)
}
