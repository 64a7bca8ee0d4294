//! What is kept of bytes, to know them again.

ghost use Rattle.std.specs.Prelude.{◌≡◌, ℕ, Bool, true, false, List, [], ◌∷◌, IfSome};

use std::alloc::Global;
use std::hash::{DefaultHasher, Hasher};

/// A seal of bytes: what is kept of them in memory, to know them again when they come back from the storage.
pub trait Seal: Drop {
    /// What is kept of bytes.
    ghost digest: { List ℕ → List ℕ };

    /// What a seal keeps.
    ghost kept: { Self → List ℕ };

    /// Whether different bytes always have different digests.
    ghost exact: { Bool };

    /// A seal of these bytes; `None` if memory was refused.
    fn seal(alloc: Global, bytes: &[u8]) -> Option<Self>
        ensures { IfSome result (λ seal. kept seal ≡ digest bytes.now) };

    /// Any seal, in the place of one where nothing is to be sealed. Takes no memory.
    fn blank(alloc: Global) -> Self;

    /// Whether the seal may be one of these bytes.
    fn fits(&self, bytes: &[u8]) -> bool
        ensures only { result ≡ true → kept self.now ≡ digest bytes.now }
        ensures own { kept self.now ≡ digest bytes.now → result ≡ true };

    /// What is kept of bytes by an exact seal is kept of no others.
    ghost alone: { (first second : List ℕ) → exact ≡ true → digest first ≡ digest second → first ≡ second };
}

/// No seal: any bytes are taken for those that were written. Takes no memory.
#[derive(Clone, Copy, Debug)]
pub struct NoSeal;

impl Seal for NoSeal {
    ghost use Rattle.std.proofs.lemmas.Bool.{false≢true};

    ghost digest = { λ bytes. [] };

    ghost kept = { λ seal. [] };

    ghost exact = { false };

    ghost alone = { λ first second exact same. absurd (false≢true exact) };

    #[inline(always)]
    fn seal(_alloc: Global, _bytes: &[u8]) -> Option<NoSeal> {
        Some(NoSeal)
    }

    #[inline(always)]
    fn blank(_alloc: Global) -> NoSeal {
        NoSeal
    }

    #[inline(always)]
    fn fits(&self, _bytes: &[u8]) -> bool {
        true
    }
}

/// The digest of 64 bits that std's `DefaultHasher` makes. Other bytes may have the same one. Takes no memory.
#[derive(Clone, Copy, Debug)]
pub struct Digest {
    pub(crate) digest: u64,
}

impl Digest {
    ghost use Rattle.far_file.specs.Digests.{digest_of};

    /// The digest of these bytes.
    pub fn of(bytes: &[u8]) -> Digest
        ensures { result.digest ≡ digest_of bytes.now }
    {
        let mut hasher = DefaultHasher::new();
        hasher.write(bytes);
        Digest {
            digest: hasher.finish(),
        }
    }

    /// The digest as a number.
    pub fn number(self) -> u64
        ensures { result ≡ self.digest }
    {
        self.digest
    }
}

impl Seal for Digest {
    ghost use Rattle.std.proofs.lemmas.Bool.{false≢true};
    ghost use Rattle.far_file.specs.Digests.{digest_of};

    ghost digest = { λ bytes. digest_of bytes ∷ [] };

    ghost kept = { λ seal. seal.digest ∷ [] };

    ghost exact = { false };

    ghost alone = { λ first second exact same. absurd (false≢true exact) };

    fn seal(_alloc: Global, bytes: &[u8]) -> Option<Digest> {
        Some(Digest::of(bytes))
    }

    fn blank(_alloc: Global) -> Digest {
        Digest { digest: 0 }
    }

    fn fits(&self, bytes: &[u8]) -> bool {
        Digest::of(bytes).digest == self.digest
    }
}

/// A whole copy: the exact seal, for tests. Takes memory for the bytes.
#[derive(Debug, Drop)]
pub struct WholeCopy {
    pub(crate) bytes: Vec<u8>,
}

impl Seal for WholeCopy {
    ghost digest = { λ bytes. bytes };

    ghost kept = { λ seal. seal.bytes.items };

    ghost exact = { true };

    ghost alone = { λ first second exact same. same };

    fn seal(alloc: Global, bytes: &[u8]) -> Option<WholeCopy> {
        let bytes = Vec::from_slice(alloc, bytes).ok()?;
        Some(WholeCopy { bytes })
    }

    fn blank(alloc: Global) -> WholeCopy {
        WholeCopy {
            bytes: Vec::new(alloc),
        }
    }

    fn fits(&self, bytes: &[u8]) -> bool {
        self.bytes.as_slice() == bytes
    }
}
