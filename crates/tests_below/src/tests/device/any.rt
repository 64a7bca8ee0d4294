//! What a caller can say of any device, by the trait alone.

ghost use Rattle.std.specs.Prelude.{◌≡◌, true, false, None, Ok, IfOk, OnOk};
ghost use Rattle.far_device.specs.Faults.{is_fault};
ghost use Rattle.far_device.specs.Following.{Follows, other_than};

use far_device::{Device, DeviceFault};

/// Bytes go to the far side, come back, and are let go of.
pub(crate) fn there_and_back<D: Device>(
    device: &mut D,
    id: u32,
    bytes: &[u8],
) -> Result<Vec<u8>, DeviceFault>
    ensures given { D.honest device.old ≡ true → IfOk result (λ given. given.items ≡ bytes.now) }
    ensures calls { IfOk result (λ given. (written : D) × (read : D) × D.writes device.old id bytes.now (Ok tt) written
        × D.reads written id (Ok given.items) read × D.lets_go read id device.new) }
    ensures gone { D.forgets → OnOk result (D.contents device.new id ≡ None) }
    ensures follows { Follows D.contents D.honest D.faults D.fails_at_most (other_than id) (is_fault result) device.old device.new }
{
    device.write(id, bytes)?;
    let given = device.read(id)?;
    device.forget(id);
    Ok(given)
}

/// Of a device that isn't to fail any more no call answers that it failed.
pub(crate) fn never_fails<D: Device>(device: &mut D, id: u32, bytes: &[u8]) -> bool
    requires { D.fails_at_most device.old 0 }
    ensures never { result ≡ false }
    ensures still { D.fails_at_most device.new 0 }
{
    matches!(there_and_back(device, id, bytes), Err(DeviceFault::Device))
}

/// Whether the count changed exactly where the device failed, at a write, a read and a key let go of: so it is, of any device.
pub(crate) fn count_tells<D: Device>(device: &mut D, id: u32, bytes: &[u8]) -> bool
    ensures { result ≡ true }
{
    let before = device.faults();
    let failed = matches!(device.write(id, bytes), Err(DeviceFault::Device));
    let written = device.faults();
    let told = failed == (written != before);
    let failed = matches!(device.read(id), Err(DeviceFault::Device));
    let read = device.faults();
    let told_again = failed == (read != written);
    device.forget(id);
    told && told_again && device.faults() == read
}

/// Of a device that is to fail once at most, whether two writes in a row both failed: they don't.
pub(crate) fn fails_twice<D: Device>(device: &mut D, id: u32, bytes: &[u8]) -> bool
    requires { D.fails_at_most device.old 1 }
    ensures { result ≡ false }
{
    let first = matches!(device.write(id, bytes), Err(DeviceFault::Device));
    let second = matches!(device.write(id, bytes), Err(DeviceFault::Device));
    first && second
}
