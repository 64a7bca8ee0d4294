//! The scope word of a mutator.

ghost use Rattle.std.specs.Prelude.{◌≡◌, IfSome};
ghost use Rattle.far_word.specs.declared.scope.ScopeWord.{ScopeWord};
ghost use Rattle.far_word.specs.Scope.{IsScope, scope_word, scope_of};

use crate::sizes::EPOCH_END;

/// Whether a mutator's scope is open, and at which epoch.
#[derive(Clone, Copy, Debug, PartialEq, Eq)]
pub enum ScopeWord {
    /// The scope is closed.
    Closed,
    /// The scope is open at an epoch below 2^62.
    Open { epoch: u64 },
}

impl ScopeWord {
    /// The one word of a scope that lies on the layout.
    pub fn pack(self) -> u64
        requires { IsScope self }
        ensures { result ≡ scope_word self }
    {
        match self {
            ScopeWord::Closed => 0,
            ScopeWord::Open { epoch } => 2 * epoch + 1,
        }
    }

    /// What a word says. `None` exactly for the words off the layout.
    pub fn read(word: u64) -> Option<ScopeWord>
        ensures exact { result ≡ scope_of word }
        ensures found { IfSome result (λ s. IsScope s × (scope_word s ≡ word)) }
        ensures only { (s : ScopeWord) → IsScope s → scope_word s ≡ word → result ≡ Some s }
    {
        ScopeWord::decode(word)
    }

    #[tactic(auto, unfolding(crate::specs::Scope::scope_of))]
    fn decode(word: u64) -> Option<ScopeWord>
        ensures { result ≡ scope_of word }
    {
        if word == 0 {
            return Some(ScopeWord::Closed);
        }
        if word % 2 == 1 && word < 2 * EPOCH_END {
            return Some(ScopeWord::Open { epoch: word / 2 });
        }
        None
    }
}
