// The table, its rule, and the kinds of step.
use crate::view::View;
use atomic_table::{Play, Split, Table, TableRule};
use far_core::Core;
use far_device::Device;
use std::alloc::Global;
use std::snapshot::Snapshot;

/// What a table is made of: a core, and the device whose honesty the table's rule has.
pub struct Plan<D> {
    pub core: Core,
    pub device: Snapshot<D>,
}

impl<D> Drop for Plan<D> {
    fn drop(self) {
        let Plan { core: _, device: _ } = self;
    }
}

/// The rule: words and views are a state of the core under its law, and each view is right about the words.
pub struct FarRule;

impl<D: Device> TableRule<u64, View, Plan<D>> for FarRule {
    ghost use Rattle.far_core.specs.state.CoreState.{core_state};
    ghost use Rattle.far_table.specs.View.{Book};
    ghost use Rattle.far_table.specs.First.{first_book};
    ghost use Rattle.far_table.specs.Rule.{Running};

    ghost holds = { λ _. Running };

    ghost first = { λ plan. Book (first_book (core_state plan.core) (D.honest plan.device.value)) };
}

/// A heap's words under the rule.
pub type FarTable<D> = Table<u64, View, Plan<D>, FarRule, Global>;

pub(crate) struct ReadEpoch;

impl Play<u64, View> for ReadEpoch {
    ghost use Rattle.far_table.specs.Plays.{EpochRead};

    ghost then = { EpochRead };
}

pub(crate) struct Open;

impl Play<u64, View> for Open {
    ghost use Rattle.far_table.specs.Plays.{Opened};

    ghost then = { Opened };
}

pub(crate) struct Close;

impl Play<u64, View> for Close {
    ghost use Rattle.far_table.specs.Plays.{Closed};

    ghost then = { Closed };
}

pub(crate) struct Pin;

impl Play<u64, View> for Pin {
    ghost use Rattle.far_table.specs.Plays.{Pinned};

    ghost then = { Pinned };
}

pub(crate) struct Load;

impl Play<u64, View> for Load {
    ghost use Rattle.far_table.specs.Plays.{Loaded};

    ghost then = { Loaded };
}

pub(crate) struct Ask;

impl Play<u64, View> for Ask {
    ghost use Rattle.far_table.specs.Plays.{Asked};

    ghost then = { Asked };
}

pub(crate) struct Soil;

impl Play<u64, View> for Soil {
    ghost use Rattle.far_table.specs.Plays.{Soiled};

    ghost then = { Soiled };
}

pub(crate) struct Store;

impl Play<u64, View> for Store {
    ghost use Rattle.far_table.specs.Plays.{Stored};

    ghost then = { Stored };
}

pub(crate) struct Adopt;

impl Play<u64, View> for Adopt {
    ghost use Rattle.far_table.specs.Plays.{Adopted};

    ghost then = { Adopted };
}

pub(crate) struct See;

impl Play<u64, View> for See {
    ghost use Rattle.far_table.specs.BookPlays.{Saw};

    ghost then = { Saw };
}

pub(crate) struct Mark;

impl Play<u64, View> for Mark {
    ghost use Rattle.far_table.specs.BookPlays.{Marked};

    ghost then = { Marked };
}

pub(crate) struct Clear;

impl Play<u64, View> for Clear {
    ghost use Rattle.far_table.specs.BookPlays.{Cleared};

    ghost then = { Cleared };
}

pub(crate) struct Get;

impl Play<u64, View> for Get {
    ghost use Rattle.far_table.specs.BookPlays.{Got};

    ghost then = { Got };
}

pub(crate) struct Free;

impl Play<u64, View> for Free {
    ghost use Rattle.far_table.specs.BookPlays.{Freed};

    ghost then = { Freed };
}

pub(crate) struct Put;

impl Play<u64, View> for Put {
    ghost use Rattle.far_table.specs.BookPlays.{Putted};

    ghost then = { Putted };
}

pub(crate) struct Advance;

impl Play<u64, View> for Advance {
    ghost use Rattle.far_table.specs.BookPlays.{Advanced};

    ghost then = { Advanced };
}

pub(crate) struct Look;

impl Play<u64, View> for Look {
    ghost use Rattle.far_table.specs.BookPlays.{Looked};

    ghost then = { Looked };
}

pub(crate) struct Deal;

impl Split<View> for Deal {
    ghost use Rattle.far_table.specs.Stands.{left_of, right_of};

    ghost left = { left_of };

    ghost right = { right_of };
}

pub(crate) struct Name;

impl Play<u64, View> for Name {
    ghost use Rattle.far_table.specs.BookPlays.{Named};

    ghost then = { Named };
}

pub(crate) struct Offer;

impl Play<u64, View> for Offer {
    ghost use Rattle.far_table.specs.BookPlays.{JobOffered};

    ghost then = { JobOffered };
}

pub(crate) struct SeeJob;

impl Play<u64, View> for SeeJob {
    ghost use Rattle.far_table.specs.BookPlays.{JobSeen};

    ghost then = { JobSeen };
}

pub(crate) struct Collect;

impl Play<u64, View> for Collect {
    ghost use Rattle.far_table.specs.BookPlays.{JobCollected};

    ghost then = { JobCollected };
}

pub(crate) struct PeekJob;

impl Play<u64, View> for PeekJob {
    ghost use Rattle.far_table.specs.CopierPlays.{JobPeeked};

    ghost then = { JobPeeked };
}

pub(crate) struct Claim;

impl Play<u64, View> for Claim {
    ghost use Rattle.far_table.specs.CopierPlays.{JobClaimed};

    ghost then = { JobClaimed };
}

pub(crate) struct ReadLength;

impl Play<u64, View> for ReadLength {
    ghost use Rattle.far_table.specs.CopierPlays.{LengthRead};

    ghost then = { LengthRead };
}

pub(crate) struct Read;

impl Play<u64, View> for Read {
    ghost use Rattle.far_table.specs.CopierPlays.{SourceRead};

    ghost then = { SourceRead };
}

pub(crate) struct Write;

impl Play<u64, View> for Write {
    ghost use Rattle.far_table.specs.CopierPlays.{TargetWritten};

    ghost then = { TargetWritten };
}

pub(crate) struct Finish;

impl Play<u64, View> for Finish {
    ghost use Rattle.far_table.specs.CopierPlays.{JobFinished};

    ghost then = { JobFinished };
}
