//! What lies where, and what each log has.

ghost use Rattle.std.specs.Prelude.{◌≡◌, ◌*◌, ◌<◌, ◌≤◌, []};
ghost use Rattle.std.specs.Vec.{vec_capacity};
ghost use Rattle.far_word.specs.declared.sizes.TheConstants.{CELLS};
ghost use Rattle.far_hand.specs.Came.{Came, only};
ghost use Rattle.far_book.specs.book.Rows.{row_of};
ghost use Rattle.far_evac.specs.AnyHand.{Knows};
ghost use Rattle.far_evac.specs.Calls.{TakesCensus};
ghost use Rattle.far_evac.specs.Census.{Sees, has_drop, homes_of, kind_in, kind_named, logs_of};
ghost use Rattle.far_evac.specs.EvacOf.{moment};
ghost use Rattle.far_evac.specs.RoundSteps.{among};

use crate::census::{Census, Housed, LogKind, LogState};
use crate::evac::Evac;
use far_book::{Home, Near};
use far_core::Kind;
use far_device::Device;
use far_word::{CELLS, Refused};

impl<N: Near + Drop, D: Device + Drop> Evac<N, D> {
    /// What a log is and has; one that is chosen and not yet given back is named so.
    pub fn log(&self, log: u8) -> LogState
        requires log { log < (N.view self.now.book.near).logs }
        ensures kind { result.kind ≡ kind_in (moment N.view self.now) log }
        ensures row { result.row ≡ row_of (N.view self.now.book.near) log }
    {
        let (kind, row) = self.book.log(log);
        LogState {
            kind: kind_named(self.is_held(log), kind),
            row,
        }
    }

    // Whether a log was chosen, and isn't given back yet.
    fn is_held(&self, log: u8) -> bool
        ensures { result ≡ among self.now.collection log }
    {
        self.collection().contains(&log)
    }

    /// Where each object is that isn't dropped, once, by rising pointers, and what each log is and has, once, by number. Nothing
    /// has moved. Refused [`Refused::Memory`] alone.
    pub fn audit(&mut self) -> Result<Census, Refused>
        ensures { TakesCensus N.still N.view N.makes self.old self.new result }
    {
        let shape = self.book.shape();
        let cells = CELLS as usize * shape.mutators as usize;
        let mut homes = self.book.empty_list(cells)?;
        let mut logs = self.book.empty_list(shape.logs as usize)?;
        self.list_homes(&mut homes);
        self.list_logs(&mut logs);
        self.keeps_law();
        Ok(Census { homes, logs })
    }

    // Lists where each object is that isn't dropped, by its cell as it is found.
    fn list_homes(&mut self, homes: &mut Vec<Housed>)
        requires empty { homes.old.items ≡ [] }
        requires room { CELLS * (N.view self.old.book.near).mutators ≤ vec_capacity homes.old }
        ensures sees { Came (only Sees N.makes) self.old.book.near self.new.book.near }
        ensures homes { homes.new.items ≡ homes_of (N.view self.new.book.near) }
        ensures known { Knows (N.view self.old.book.near) (N.view self.new.book.near) }
        ensures rest { self.new ≡ record self.old { book = record self.old.book { near = self.new.book.near } } }
        ensures exact { N.still → N.view self.new.book.near ≡ N.view self.old.book.near }
    {
        let cells = CELLS * self.book.shape().mutators as u16;
        for pointer in 0..cells {
            let Some(home) = self.locate(pointer) else {
                continue;
            };
            if has_drop(home) {
                continue;
            }
            homes.push_reserved(Housed { pointer, home });
        }
    }

    // Lists what each log is and has.
    fn list_logs(&self, logs: &mut Vec<LogState>)
        requires empty { logs.old.items ≡ [] }
        requires room { (N.view self.now.book.near).logs ≤ vec_capacity logs.old }
        ensures { logs.new.items ≡ logs_of (moment N.view self.now) }
    {
        for log in 0..self.book.shape().logs as u8 {
            logs.push_reserved(self.log(log));
        }
    }
}

// The name of a log's kind.
fn kind_named(is_held: bool, kind: Kind) -> LogKind
    ensures { result ≡ kind_named is_held kind }
{
    match kind {
        Kind::Free => LogKind::Free,
        Kind::Open => LogKind::Open,
        Kind::Sealed => {
            if is_held {
                LogKind::Chosen
            } else {
                LogKind::Sealed
            }
        }
    }
}

// Whether an object's owner has dropped it.
fn has_drop(home: Home) -> bool
    ensures { result ≡ has_drop home }
{
    match home {
        Home::Near { marks, .. } | Home::Far { marks } => marks.dropped,
    }
}
