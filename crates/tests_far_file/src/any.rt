//! What a caller can say of devices over storage.

ghost use Rattle.std.specs.Prelude.{◌≡◌, true, IfOk};

use far_device::{Device, DeviceFault};
use far_file::{FileDevice, MemStorage, SealedDevice, Storage, WholeCopy};

/// Bytes go to the far side and come back.
pub(crate) fn there_and_back<D: Device>(
    device: &mut D,
    id: u32,
    bytes: &[u8],
) -> Result<Vec<u8>, DeviceFault>
    ensures { D.honest device.old ≡ true → IfOk result (λ given. given.items ≡ bytes.now) }
{
    device.write(id, bytes)?;
    device.read(id)
}

/// Over storage that is honest they are the same.
pub(crate) fn over_storage<F: Storage + Drop>(
    device: &mut FileDevice<F>,
    id: u32,
    bytes: &[u8],
) -> Result<Vec<u8>, DeviceFault>
    ensures { F.Storage.honest device.old.storage ≡ true → IfOk result (λ given. given.items ≡ bytes.now) }
{
    there_and_back(device, id, bytes)
}

/// So they are in memory.
pub(crate) fn over_memory(
    device: &mut FileDevice<MemStorage>,
    id: u32,
    bytes: &[u8],
) -> Result<Vec<u8>, DeviceFault>
    ensures { IfOk result (λ given. given.items ≡ bytes.now) }
{
    there_and_back(device, id, bytes)
}

/// And over any storage, if a whole copy is the seal.
pub(crate) fn with_copies<F: Storage + Drop>(
    device: &mut SealedDevice<F, WholeCopy>,
    id: u32,
    bytes: &[u8],
) -> Result<Vec<u8>, DeviceFault>
    ensures { IfOk result (λ given. given.items ≡ bytes.now) }
{
    there_and_back(device, id, bytes)
}
