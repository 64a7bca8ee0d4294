//! The versions of a log's image.

ghost use Rattle.std.specs.Prelude.{◌≡◌, IfSome};
ghost use Rattle.far_word.specs.Header.{IsHeadOf, cells, header_in, log_words, longest, pointers, top_byte, version_of, word_by};

use crate::header::{HeadWord, HeadWordV1, VERSION};
use crate::sizes::{CELLS, LOG_WORDS, LONGEST, POINTERS};

/// The versions of a log's image: which headers it has, and how large a log is.
#[derive(Clone, Copy, Debug, PartialEq, Eq)]
pub enum Version {
    /// Logs of 128 words, headers as [`HeadWordV1`]. Such images are read, and none is made.
    First,
    /// The logs of this heap: [`LOG_WORDS`] words, headers as [`HeadWord`].
    Second,
}

impl Version {
    /// The version that the first word of an image says: version 1 where its top byte is a1, else version 2.
    pub fn of(word: u64) -> Version
        ensures { result ≡ version_of word }
    {
        if word >> VERSION == Version::First.top_byte() {
            return Version::First;
        }
        Version::Second
    }

    /// What a word says as a header of this version. `None` exactly for the words off its layout.
    pub fn header(self, word: u64) -> Option<HeadWord>
        ensures exact { result ≡ header_in self word }
        ensures found { IfSome result (λ h. IsHeadOf self h.pointer h.len h.ds × (word_by self h.pointer h.len h.ds ≡ word)) }
    {
        match self {
            Version::First => {
                let HeadWordV1 { pointer, len, ds } = HeadWordV1::read(word)?;
                Some(HeadWord { pointer, len, ds })
            }
            Version::Second => HeadWord::read(word),
        }
    }

    /// The words of a log.
    pub fn log_words(self) -> u16
        ensures { result ≡ log_words self }
    {
        match self {
            Version::First => 128,
            Version::Second => LOG_WORDS,
        }
    }

    /// The pointer cells of each mutator.
    pub fn cells(self) -> u16
        ensures { result ≡ cells self }
    {
        match self {
            Version::First => 128,
            Version::Second => CELLS,
        }
    }

    /// The top byte of each header.
    #[inline]
    pub(crate) fn top_byte(self) -> u64
        ensures { result ≡ top_byte self }
    {
        match self {
            Version::First => 0xa1,
            Version::Second => 0xa2,
        }
    }

    /// The most data bytes of an object.
    #[inline]
    pub(crate) fn longest(self) -> u16
        ensures { result ≡ longest self }
    {
        match self {
            Version::First => 1016,
            Version::Second => LONGEST,
        }
    }

    /// Pointers stay below this.
    #[inline]
    pub(crate) fn pointers(self) -> u16
        ensures { result ≡ pointers self }
    {
        match self {
            Version::First => 1024,
            Version::Second => POINTERS,
        }
    }
}
