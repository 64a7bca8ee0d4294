//! The far side of the heap that a text runs on.

ghost use Rattle.std.specs.Option.{option_map};
ghost use Rattle.far_text.specs.Command.{as_device};
ghost use Rattle.far_replay.specs.Flawed.{IsFlawed};

use crate::owners::FarSide;
use far_device::{FailAt, Liar, MemDevice};
use far_text::{Device, Flaw};
use std::alloc::Global;

/// The far side that a text says, or one that neither fails nor lies.
pub fn far_side_of(alloc: Global, device: Option<Device>) -> FarSide
    ensures { IsFlawed (option_map as_device device) result }
{
    let memory = MemDevice::new(alloc);
    match device {
        Some(device) => match device.flaw {
            Flaw::Fail => Liar::short(FailAt::new(memory, device.call), 0),
            Flaw::Short => Liar::short(FailAt::new(memory, 0), device.call),
            Flaw::Flip => Liar::flip(FailAt::new(memory, 0), device.call),
        },
        None => Liar::short(FailAt::new(memory, 0), 0),
    }
}
