//! What is open, lent for a piece of work and always closed.
ghost use Rattle.std.specs.Fn.{FnOnceReturnsAtMut};

/// An open thing that is closed at its end, as a [`Scope`](crate::Scope) is.
pub trait Closing {
    /// What it is once it is closed.
    type Closed;

    /// What it is closed to.
    ghost closes: { Self → Self.Closed → Type 0 };

    /// Closes it. Always.
    fn end(self) -> Self::Closed
        ensures { closes self result };
}

/// Lends what is open to `work` and closes it, whatever `work` answers: an early return, as by `?`, ends `work` alone. The answer is that of `work`, called
/// once, and what is closed is what it left. As `lend(mutator.open(), |scope: &mut Scope<K, D>| -> Result<(), Refused> { .. })`.
#[inline(always)]
pub fn lend<S: Closing, T, F: FnOnce(&mut S) -> T>(mut opened: S, work: F) -> (S::Closed, T)
    requires { F.IsAlwaysCallable work }
    ensures { (left : S) × FnOnceReturnsAtMut F.FnOnce work opened result.1 left × S.closes left result.0 }
{
    let answer = work(&mut opened);
    (opened.end(), answer)
}
