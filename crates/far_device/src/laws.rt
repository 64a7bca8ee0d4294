//! What holds of calls one after another, as contracts of functions that do nothing.

ghost use Rattle.far_device.specs.KthCall.{KthFails, KthLies};

use crate::device::Device;
use crate::fail_at::FailAt;
use crate::liar::Liar;

/// Whatever writes, reads and calls of `forget` were made of a device of which one call fails, the next write or read fails,
/// without the inner device, exactly where it is the k-th since; any other is the inner device's, answer and all.
pub fn the_kth_call_fails<D: Device + Drop>()
    ensures { KthFails (λ s. s.left) (λ s. s.inner) ⟦<FailAt<D> as Device>⟧.writes ⟦<FailAt<D> as Device>⟧.reads ⟦<FailAt<D> as Device>⟧.lets_go D.writes D.reads }
{}

/// Whatever writes, reads and calls of `forget` were made of a device of which one read is a lie, the next read is one exactly
/// where it is the k-th since, of bytes or the fault that the inner device answered; any other is the inner device's, answer
/// and all.
pub fn the_kth_read_lies<D: Device + Drop>()
    ensures { KthLies (λ s. s.left) (λ s. s.lie) (λ s. s.inner) ⟦<Liar<D> as Device>⟧.writes ⟦<Liar<D> as Device>⟧.reads ⟦<Liar<D> as Device>⟧.lets_go D.reads }
{}
