//! The header word of an object, in its two versions.

ghost use Rattle.std.specs.Prelude.{◌≡◌, IfSome, IsSome, Some};
ghost use Rattle.far_word.specs.declared.header.HeadWord.{HeadWord};
ghost use Rattle.far_word.specs.declared.header.HeadWordV1.{HeadWordV1};
ghost use Rattle.far_word.specs.declared.version.Version.TheVariants.{First};
ghost use Rattle.far_word.specs.Header.{IsHead, IsHeadOf, fits_version, head_word, head_of, head_of_v1, word_by};

use crate::field::field;
use crate::version::Version;

// The fields of a header word, from bit 0 on: where each next one begins behind the length, and the bits of each.
const DS: u32 = 24;

const DS_BITS: u32 = 8;

const POINTER: u32 = DS + DS_BITS;

const POINTER_BITS: u32 = VERSION - POINTER;

// Those of version 1.
const DS_V1: u32 = 16;

const POINTER_V1: u32 = DS_V1 + DS_BITS;

const POINTER_BITS_V1: u32 = VERSION - POINTER_V1;

// The highest field of both: the version.
pub(crate) const VERSION: u32 = 56;

/// What an object's header says: whose it is, its length in bytes, its data structure.
#[derive(Clone, Copy, Debug, PartialEq, Eq)]
pub struct HeadWord {
    /// The number of the object's pointer cell, below [`crate::POINTERS`].
    pub pointer: u16,
    /// The data bytes, 1 to [`crate::LONGEST`].
    pub len: u16,
    /// The data structure, any number.
    pub ds: u8,
}

/// What a header of version 1 says, of logs of 128 words.
#[derive(Clone, Copy, Debug, PartialEq, Eq)]
pub struct HeadWordV1 {
    /// The number of the object's pointer cell, below 1,024.
    pub pointer: u16,
    /// The data bytes, 1 to 1,016.
    pub len: u16,
    /// The data structure, any number.
    pub ds: u8,
}

impl HeadWord {
    /// The one word of a header that lies on the layout.
    pub fn pack(self) -> u64
        requires { IsHead self }
        ensures { result ≡ head_word self.pointer self.len self.ds }
    {
        let low = self.len as u64 | (self.ds as u64) << DS;
        low | (self.pointer as u64) << POINTER | Version::Second.top_byte() << VERSION
    }

    /// What a word says. `None` exactly for the words off the layout.
    pub fn read(word: u64) -> Option<HeadWord>
        ensures exact { result ≡ head_of word }
        ensures found { IfSome result (λ h. IsHead h × (head_word h.pointer h.len h.ds ≡ word)) }
        ensures only { (h : HeadWord) → IsHead h → head_word h.pointer h.len h.ds ≡ word → result ≡ Some h }
    {
        HeadWord::decode(word)
    }

    #[tactic(auto, unfolding(crate::specs::Header::head_of))]
    fn decode(word: u64) -> Option<HeadWord>
        ensures { result ≡ head_of word }
    {
        let pointer = field(word, POINTER, POINTER_BITS);
        let len = field(word, 0, DS);
        if !fits_version(Version::Second, word, pointer, len) {
            return None;
        }
        Some(HeadWord {
            pointer: pointer as u16,
            len: len as u16,
            ds: field(word, DS, DS_BITS) as u8,
        })
    }

    /// What a word on the layout says: [`HeadWord::read`] of a word that is known to read, by its fields alone.
    #[inline]
    #[tactic(auto, unfolding(crate::specs::Header::head_of))]
    pub fn known(word: u64) -> HeadWord
        requires { IsSome (head_of word) }
        ensures { head_of word ≡ Some result }
    {
        let pointer = field(word, POINTER, POINTER_BITS) as u16;
        let len = field(word, 0, DS) as u16;
        let ds = field(word, DS, DS_BITS) as u8;
        HeadWord { pointer, len, ds }
    }
}

impl HeadWordV1 {
    /// The one word of a version 1 header that lies on its layout.
    pub fn pack(self) -> u64
        requires { IsHeadOf First self.pointer self.len self.ds }
        ensures { result ≡ word_by First self.pointer self.len self.ds }
    {
        let low = self.len as u64 | (self.ds as u64) << DS_V1;
        low | (self.pointer as u64) << POINTER_V1 | Version::First.top_byte() << VERSION
    }

    /// What a word says. `None` exactly for the words off the layout of version 1.
    pub fn read(word: u64) -> Option<HeadWordV1>
        ensures exact { result ≡ head_of_v1 word }
        ensures found { IfSome result (λ h. IsHeadOf First h.pointer h.len h.ds × (word_by First h.pointer h.len h.ds ≡ word)) }
        ensures only { (h : HeadWordV1) → IsHeadOf First h.pointer h.len h.ds → word_by First h.pointer h.len h.ds ≡ word → result ≡ Some h }
    {
        HeadWordV1::decode(word)
    }

    #[tactic(auto, unfolding(crate::specs::Header::head_of_v1))]
    fn decode(word: u64) -> Option<HeadWordV1>
        ensures { result ≡ head_of_v1 word }
    {
        let pointer = field(word, POINTER_V1, POINTER_BITS_V1);
        let len = field(word, 0, DS_V1);
        if !fits_version(Version::First, word, pointer, len) {
            return None;
        }
        Some(HeadWordV1 {
            pointer: pointer as u16,
            len: len as u16,
            ds: field(word, DS_V1, DS_BITS) as u8,
        })
    }

    /// What a word on the layout says: [`HeadWordV1::read`] of a word that is known to read.
    #[tactic(auto, unfolding(crate::specs::Header::head_of_v1))]
    pub fn known(word: u64) -> HeadWordV1
        requires { IsSome (head_of_v1 word) }
        ensures { head_of_v1 word ≡ Some result }
    {
        let pointer = field(word, POINTER_V1, POINTER_BITS_V1) as u16;
        let len = field(word, 0, DS_V1) as u16;
        let ds = field(word, DS_V1, DS_BITS) as u8;
        HeadWordV1 { pointer, len, ds }
    }
}

/// Whether a word has a version's top byte, and its pointer and length are in the range of that version.
#[inline]
fn fits_version(version: Version, word: u64, pointer: u64, len: u64) -> bool
    ensures { result ≡ fits_version version word pointer len }
{
    word >> VERSION == version.top_byte()
        && 0 < len
        && len <= version.longest() as u64
        && pointer < version.pointers() as u64
}
