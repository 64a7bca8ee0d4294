//! A whole run.

ghost use Rattle.std.specs.Prelude.{◌≡◌, true, IfOk, IfSome, OnErr};
ghost use Rattle.std.specs.Hash.DefaultHasher as sip;
ghost use Rattle.far_private.specs.Heap.{IsOutside};
ghost use Rattle.far_private.specs.Numbered.{IsNoPlace};
ghost use Rattle.far_packed.specs.Causes.{OrMemory};
ghost use Rattle.far_firsts.specs.Causes.{Refuses};
ghost use Rattle.far_firsts.specs.Lines.{stamp_by};
ghost use Rattle.far_firsts.specs.Tallies.{TellsCounts};
ghost use Rattle.far_firsts.specs.Telling.{Tells};

use crate::apart::Apart;
use crate::room::Room;
use far_device::Device;
use far_firsts::{Counted, End, count_lines, uniq};
use far_packed::Packed;
use far_pool::{MakeDevice, Worker, WorkerStatistics};
use far_seen::{Seen, Tally};
use far_word::Refused;
use std::alloc::Global;
use std::io::{Read, Write};

/// How a run ended, how many lines are in its set, and what the far side has done.
#[derive(Drop)]
pub struct Printed {
    pub end: End,
    pub lines: usize,
    pub far: WorkerStatistics,
}

/// Prints each line of the input the first time it comes. Far objects are kept by the devices that `devices` makes; `honest` may be true only
/// where these are proved so. Where it isn't, a line is left out only after one of its length and its hash, begun with the seed. What is printed is said of
/// an input and an output that tell their bytes.
///
/// Refused before the first line: there is no memory, or no device.
pub fn print_firsts<D: Device + Drop, M: MakeDevice<D> + Drop, R: Read, W: Write>(
    alloc: Global,
    devices: M,
    honest: bool,
    room: &Room,
    seed: [u8; 16],
    end: u8,
    input: &mut R,
    output: &mut W,
) -> Result<Printed, Refused>
    requires { honest ≡ true → M.honest ≡ true }
    ensures printed { IfOk result (λ p. IfSome (R.remaining input.old) (λ text. Tells room.now.longest (Refuses (OrMemory IsNoPlace) IsOutside honest) honest (stamp_by (sip.write sip.initial seed) end) end p.end.lines p.end.why text (R.remaining input.new) (W.contents output.old) (W.contents output.new))) }
    ensures input { OnErr result (R.remaining input.new ≡ R.remaining input.old) }
    ensures output { OnErr result (W.contents output.new ≡ W.contents output.old) }
{
    let worker = match Worker::new(alloc, devices, room.layout, honest) {
        Ok(worker) => worker,
        Err(why) => return Err(why),
    };
    let packed = match Packed::with_room(alloc, worker, room.blocks) {
        Ok(packed) => packed,
        Err(why) => return Err(why),
    };
    let mut seen = match Seen::with_room(alloc, packed, seed, room.lines) {
        Ok(seen) => seen,
        Err(why) => return Err(why),
    };
    let end = uniq(alloc, &mut seen, end, room.longest, input, output);
    let lines = seen.len();
    let far = seen.worker().worker().statistics();
    Ok(Printed { end, lines, far })
}

/// How a count ended, how many different lines came, and what the far side has done.
#[derive(Drop)]
pub struct PrintedCounts {
    pub counted: Counted,
    pub lines: usize,
    pub far: WorkerStatistics,
}

/// Counts the lines of the input, and prints each once at its end, after how often it came. Far objects and what is refused are those of
/// [`print_firsts`]. Where `honest` isn't true, the counts beside lines of a length and a hash sum up to how many of these came.
pub fn print_counts<D: Device + Drop, M: MakeDevice<D> + Drop, R: Read, W: Write>(
    alloc: Global,
    devices: M,
    honest: bool,
    room: &Room,
    seed: [u8; 16],
    end: u8,
    input: &mut R,
    output: &mut W,
) -> Result<PrintedCounts, Refused>
    requires { honest ≡ true → M.honest ≡ true }
    ensures printed { IfOk result (λ p. IfSome (R.remaining input.old) (λ text. TellsCounts room.now.longest (Refuses (OrMemory IsNoPlace) IsOutside honest) honest (stamp_by (sip.write sip.initial seed) end) end p.counted.lines p.counted.ending text (R.remaining input.new) (W.contents output.old) (W.contents output.new))) }
    ensures input { OnErr result (R.remaining input.new ≡ R.remaining input.old) }
    ensures output { OnErr result (W.contents output.new ≡ W.contents output.old) }
{
    let worker = match Worker::new(alloc, devices, room.layout, honest) {
        Ok(worker) => worker,
        Err(why) => return Err(why),
    };
    let packed = match Packed::with_room(alloc, Apart::new(worker), room.blocks) {
        Ok(packed) => packed,
        Err(why) => return Err(why),
    };
    let mut tally = match Tally::with_room(alloc, packed, seed, room.lines) {
        Ok(tally) => tally,
        Err(why) => return Err(why),
    };
    let counted = count_lines(alloc, &mut tally, end, room.longest, input, output);
    let lines = tally.len();
    let far = tally.worker().worker().worker().statistics();
    Ok(PrintedCounts {
        counted,
        lines,
        far,
    })
}
