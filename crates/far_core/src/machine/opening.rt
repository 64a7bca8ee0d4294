//! A core at the start.

ghost use Rattle.std.specs.Prelude.{◌≡◌, ◌↔◌, ◌≤◌, ◌<◌, false, true, cond, IfOk, IfErr, IfSome, None, is_some};
ghost use Rattle.far_core.specs.state.Agrees.{Agrees};
ghost use Rattle.far_core.specs.world.World.{start};
ghost use Rattle.far_core.specs.world.WorldOf.{world_of};
ghost use Rattle.far_core.specs.state.CoreState.{core_state};
ghost use Rattle.far_core.specs.state.Kept.{keeps_stored};
ghost use Rattle.far_events.specs.state.Law.{Law};
ghost use Rattle.far_events.specs.state.Memory.{state_of};
ghost use Rattle.far_events.specs.state.Opening.{for_copiers, opening, unopened, without_copiers};
ghost use Rattle.far_events.specs.state.Shape.{is_shape};
ghost use Rattle.far_events.specs.state.Stored.{RowsAre};
ghost use Rattle.far_word.specs.declared.sizes.TheConstants.{POINTERS};

use crate::machine::Core;
use far_events::{Kind, Memory, Shape, StoredRows};
use far_word::{CELLS, Refused};
use std::alloc::{AllocError, Global};

// Rows where nothing is stored, if they are kept.
fn no_rows(alloc: Global, pointers: usize, kept: bool) -> Result<Option<StoredRows>, AllocError>
    requires { pointers ≤ POINTERS }
    ensures kept { IfOk result (λ rows. is_some rows ≡ kept) }
    ensures blank { IfOk result (λ rows. IfSome rows (λ rows. RowsAre pointers (λ _ _. 0) rows)) }
{
    if kept {
        Ok(Some(StoredRows::new(alloc, pointers)?))
    } else {
        Ok(None)
    }
}

impl Core {
    /// A core at the start: log 0 is open and all others are free, nothing is used, and the epoch is the shape's.
    /// `honest` says whether the far side gives back what it was given, for good.
    ///
    /// Refused, in this order: [`Refused::Shape`] exactly where the shape is out of range, [`Refused::Memory`].
    pub fn new(alloc: Global, shape: Shape, honest: bool) -> Result<Core, Refused>
        ensures opening { IfOk result (λ core. core_state core ≡ opening shape honest) }
        ensures kept { IfOk result (λ core. keeps_stored core ≡ true) }
        ensures law { IfOk result (λ core. Law (core_state core)) }
        ensures agrees { IfOk result (λ core. Agrees (core_state core)) }
        ensures world { IfOk result (λ core. world_of (core_state core) ≡ start honest) }
        ensures shape { (result ≡ Err Refused.Shape) ↔ (is_shape shape ≡ false) }
        ensures refused { IfErr result (λ why. why ≡ cond (is_shape shape) Refused.Memory Refused.Shape) }
    {
        Core::made(alloc, shape, honest, true, true)
    }

    /// The same without stored words: what is stored of an object is known to clauses alone, and no memory is taken that grows with
    /// what is far. For programs, which make namings by [`Core::name`]: of one that is given as data such a core can't tell whether it
    /// is legal.
    pub fn without_stored(alloc: Global, shape: Shape, honest: bool) -> Result<Core, Refused>
        ensures opening { IfOk result (λ core. core_state core ≡ opening shape honest) }
        ensures kept { IfOk result (λ core. keeps_stored core ≡ false) }
        ensures law { IfOk result (λ core. Law (core_state core)) }
        ensures agrees { IfOk result (λ core. Agrees (core_state core)) }
        ensures world { IfOk result (λ core. world_of (core_state core) ≡ start honest) }
        ensures shape { (result ≡ Err Refused.Shape) ↔ (is_shape shape ≡ false) }
        ensures refused { IfErr result (λ why. why ≡ cond (is_shape shape) Refused.Memory Refused.Shape) }
    {
        Core::made(alloc, shape, honest, false, true)
    }

    /// The same for one thread alone: without stored words, and without room for what copiers read and write, 69,632 bytes of near
    /// memory. No copier ever has a job there: each [`Event::Claim`](crate::Event::Claim) is refused, and all else is as in a core made by
    /// [`Core::without_stored`].
    pub fn alone(alloc: Global, shape: Shape, honest: bool) -> Result<Core, Refused>
        ensures opening { IfOk result (λ core. core_state core ≡ without_copiers (opening shape honest)) }
        ensures kept { IfOk result (λ core. keeps_stored core ≡ false) }
        ensures law { IfOk result (λ core. Law (core_state core)) }
        ensures agrees { IfOk result (λ core. Agrees (core_state core)) }
        ensures world { IfOk result (λ core. world_of (core_state core) ≡ start honest) }
        ensures shape { (result ≡ Err Refused.Shape) ↔ (is_shape shape ≡ false) }
        ensures refused { IfErr result (λ why. why ≡ cond (is_shape shape) Refused.Memory Refused.Shape) }
    {
        Core::made(alloc, shape, honest, false, false)
    }

    // A core at the start, which keeps stored words or doesn't, with copiers or without.
    fn made(
        alloc: Global,
        shape: Shape,
        honest: bool,
        kept: bool,
        has_copiers: bool,
    ) -> Result<Core, Refused>
        ensures opening { IfOk result (λ core. core_state core ≡ for_copiers has_copiers (opening shape honest)) }
        ensures kept { IfOk result (λ core. keeps_stored core ≡ kept) }
        ensures law { IfOk result (λ core. Law (core_state core)) }
        ensures agrees { IfOk result (λ core. Agrees (core_state core)) }
        ensures world { IfOk result (λ core. world_of (core_state core) ≡ start honest) }
        ensures shape { (result ≡ Err Refused.Shape) ↔ (is_shape shape ≡ false) }
        ensures refused { IfErr result (λ why. why ≡ cond (is_shape shape) Refused.Memory Refused.Shape) }
    {
        if !shape.is_in_range() {
            return Err(Refused::Shape);
        }
        let Ok(mut memory) = Memory::unopened(alloc, shape, honest, has_copiers) else {
            return Err(Refused::Memory);
        };
        let Ok(rows) = no_rows(alloc, CELLS as usize * shape.mutators as usize, kept) else {
            return Err(Refused::Memory);
        };
        memory.set_kind(0, Kind::Open);
        Ok(Core { memory, rows })
    }
}
