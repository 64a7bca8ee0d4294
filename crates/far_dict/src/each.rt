//! All entries, one after the other: the short ones first.

ghost use Rattle.std.specs.Prelude.{◌≡◌, true, IfOk, IfErr, OnOk};
ghost use Rattle.std.specs.FinMap as map;
ghost use Rattle.std.specs.Fn.{CalledAtTwo};
ghost use Rattle.far_map.specs.Causes.{IsWhyRead as IsWhyLong};
ghost use Rattle.far_map.specs.Listed.{AreAllOf, FoldsUntil, GivesAt, StepsAtEach};
ghost use Rattle.far_dict.specs.Causes.{IsWhyRead};
ghost use Rattle.far_dict.specs.Dictionaries.{IsHonest};
ghost use Rattle.far_dict.specs.Longs.{Sound, valued};

use crate::dict::Dict;
use crate::steps::Parts;
use far_objects::Objects;
use far_word::Refused;

/// Calls `visit` with each key of a long value and its bytes.
pub fn visit_long<O: Objects + Drop, F: FnMut(&[u8], &[u8])>(
    parts: &mut Parts<O>,
    visit: &mut F,
) -> Result<(), Refused>
    requires sound { Sound (O.far parts.old.worker) parts.old.near }
    requires callable { F.IsAlwaysCallable visit.old }
    ensures callable { F.IsAlwaysCallable visit.new }
    ensures far { O.far parts.new.worker ≡ O.far parts.old.worker }
    ensures near { parts.new.near ≡ parts.old.near }
    ensures called { (O.far parts.old.worker).honest ≡ true → OnOk result (StepsAtEach (λ p k v q. CalledAtTwo F.FnMut p k v tt q) visit.old (valued (O.far parts.old.worker) (map.entries parts.old.near)) visit.new) }
    ensures why { IfErr result (IsWhyLong O.unreached (O.far parts.old.worker).honest) }
{
    let mut out = Vec::new(parts.alloc);
    parts.near.visit(&mut parts.worker, &mut out, visit)
}

/// Makes the steps of the keys of long values and their bytes, until one is refused.
pub fn fold_long<O: Objects + Drop, A: Drop, E, F: Fn(A, &[u8], &[u8]) -> Result<A, E>>(
    parts: &mut Parts<O>,
    first: A,
    f: &F,
) -> Result<Result<A, E>, Refused>
    requires sound { Sound (O.far parts.old.worker) parts.old.near }
    requires callable { F.IsAlwaysCallable f.now }
    ensures far { O.far parts.new.worker ≡ O.far parts.old.worker }
    ensures near { parts.new.near ≡ parts.old.near }
    ensures folded { (O.far parts.old.worker).honest ≡ true → IfOk result (FoldsUntil (GivesAt (F.post f.now)) first (valued (O.far parts.old.worker) (map.entries parts.old.near))) }
    ensures why { IfErr result (IsWhyLong O.unreached (O.far parts.old.worker).honest) }
{
    let mut out = Vec::new(parts.alloc);
    parts.near.fold(&mut parts.worker, &mut out, first, f)
}

impl<O: Objects + Drop> Dict<O> {
    /// Calls `visit` with the key and the value of each entry once, in no order that is told.
    ///
    /// Refused as the workers' reads are, and [`Refused::Memory`] where there is none for a long value; then `visit` may have been called at some of them.
    pub fn for_each<F: FnMut(&[u8], &[u8])>(&mut self, mut visit: F) -> Result<(), Refused>
        requires { F.IsAlwaysCallable visit }
        ensures same { self.new ≡ self.old }
        ensures called { IsHonest self.old → OnOk result ((told : _) × AreAllOf told self.old.entries × (last : F) × StepsAtEach (λ p k v q. CalledAtTwo F.FnMut p k v tt q) visit told last) }
        ensures why { IfErr result (IsWhyRead O.unreached self.old) }
    {
        self.for_each_with(&mut visit)
    }

    /// The same with a closure that is lent.
    pub fn for_each_with<F: FnMut(&[u8], &[u8])>(&mut self, visit: &mut F) -> Result<(), Refused>
        requires { F.IsAlwaysCallable visit.old }
        ensures callable { F.IsAlwaysCallable visit.new }
        ensures same { self.new ≡ self.old }
        ensures called { IsHonest self.old → OnOk result ((told : _) × AreAllOf told self.old.entries × StepsAtEach (λ p k v q. CalledAtTwo F.FnMut p k v tt q) visit.old told visit.new) }
        ensures why { IfErr result (IsWhyRead O.unreached self.old) }
    {
        match self.short.for_each_with(visit) {
            Ok(()) => self.long.visit(visit),
            Err(why) => Err(why),
        }
    }

    /// Folds the entries, each once, in no order that is told: `f` makes of what it made before, a key and its value what it is given next. What it made at
    /// last; or the first `Err` that it answered, after which it isn't called again.
    ///
    /// Refused as [`Dict::for_each`] is.
    pub fn fold<A: Drop, E, F: Fn(A, &[u8], &[u8]) -> Result<A, E> + Drop>(
        &mut self,
        first: A,
        f: F,
    ) -> Result<Result<A, E>, Refused>
        requires { F.IsAlwaysCallable f }
        ensures same { self.new ≡ self.old }
        ensures folded { IsHonest self.old → IfOk result (λ r. (told : _) × AreAllOf told self.old.entries × FoldsUntil (GivesAt (F.post f)) first told r) }
        ensures why { IfErr result (IsWhyRead O.unreached self.old) }
    {
        self.fold_with(first, &f)
    }

    /// The same with a closure that is lent.
    pub fn fold_with<A: Drop, E, F: Fn(A, &[u8], &[u8]) -> Result<A, E>>(
        &mut self,
        first: A,
        f: &F,
    ) -> Result<Result<A, E>, Refused>
        requires { F.IsAlwaysCallable f.now }
        ensures same { self.new ≡ self.old }
        ensures folded { IsHonest self.old → IfOk result (λ r. (told : _) × AreAllOf told self.old.entries × FoldsUntil (GivesAt (F.post f.now)) first told r) }
        ensures why { IfErr result (IsWhyRead O.unreached self.old) }
    {
        match self.short.fold_with(first, f) {
            Ok(Ok(folded)) => self.long.fold(folded, f),
            Ok(Err(stop)) => Ok(Err(stop)),
            Err(why) => Err(why),
        }
    }
}
