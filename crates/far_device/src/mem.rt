//! A device in memory.

ghost use Rattle.std.specs.Prelude.{ℕ, ◌≡◌, ◌+◌, ◌%◌, ◌^◌, ◌<◌, ◌≤◌, true, IsTrue, length, Some, None, IfOk, IfErr, IfNone, IfSome, OnOk, OnErr};
ghost use Rattle.std.specs.Vec.{vec_capacity, vec_len};
ghost use Rattle.far_device.specs.Contents.{KeepsOthers};
ghost use Rattle.far_device.specs.Row.{bytes_in};
ghost use Rattle.far_device.specs.declared.mem.TheConstants.{ROW};
ghost use Rattle.far_device.specs.declared.fault.DeviceFault.TheVariants.{Memory, Device as Failed};

use crate::device::Device;
use crate::fault::DeviceFault;
use crate::slot::{Slot, refill, replace};
use std::alloc::Global;
use std::collections::HashMap;
use std::collections::hash_map::Entry;

/// Keys below this one, as the numbers of a heap's pointers are, stand in a row, where each is found by its number.
pub(crate) const ROW: u32 = 2048;

/// A device in memory. It is honest, answers [`DeviceFault::Device`] only to a read of a key under which nothing is, and
/// [`DeviceFault::Memory`] only to a write or read for which memory was refused.
#[derive(Debug, Drop)]
pub struct MemDevice {
    pub(crate) alloc: Global,
    // What is under the keys below ROW, as far as one was written.
    pub(crate) row: Vec<Slot>,
    // What is under all others.
    pub(crate) others: HashMap<u32, Vec<u8>>,
    pub(crate) faults: u64,
}

impl MemDevice {
    ghost use Rattle.far_device.specs.Mem.{bytes_at, faults_of};

    /// A device that holds nothing. What it holds later is of this allocator.
    pub fn new(alloc: Global) -> MemDevice
        ensures contents { bytes_at result ≡ (λ _. None) }
        ensures faults { faults_of result ≡ 0 }
    {
        MemDevice {
            alloc,
            row: Vec::new(alloc),
            others: HashMap::new(alloc),
            faults: 0,
        }
    }

    /// How many bytes have room under a key of the row; none where it isn't so long yet.
    pub fn room(&self, id: u32) -> Option<usize>
        ensures { id < ROW → IfSome (bytes_at self.now id) (λ stored. IfSome result (λ room. length stored ≤ room)) }
    {
        Some(self.row.get(id as usize)?.buffer.capacity())
    }

    // What is under a key.
    #[inline(always)]
    fn stored(&self, id: u32) -> Option<&[u8]>
        ensures some { IfSome result (λ stored. bytes_at self.now id ≡ Some stored.now) }
        ensures none { IfNone result (bytes_at self.now id ≡ None) }
    {
        if id < ROW {
            return self.row.get(id as usize)?.bytes();
        }
        let held = self.others.get(&id)?;
        Some(held.as_slice())
    }

    // Puts bytes under a key that stands in the row.
    #[inline(always)]
    fn write_row(&mut self, id: usize, bytes: &[u8]) -> Result<(), DeviceFault>
        requires { id < ROW }
        ensures set { OnOk result (bytes_at self.new id ≡ Some bytes.now) }
        ensures others { KeepsOthers (bytes_at self.old) (bytes_at self.new) id }
        ensures refused { IfErr result (λ why. why ≡ Memory) }
        ensures in_place { IfSome (bytes_at self.old id) (λ stored. length bytes.now ≤ length stored → IfErr result (λ _. ⊥)) }
        ensures unchanged { OnErr result (bytes_at self.new ≡ bytes_at self.old) }
        ensures faults { faults_of self.new ≡ faults_of self.old }
    {
        if self.row.len() <= id && !lengthen(&mut self.row, self.alloc, id) {
            return Err(DeviceFault::Memory);
        }
        if !self.row[id].put(self.alloc, bytes) {
            return Err(DeviceFault::Memory);
        }
        Ok(())
    }

    // Puts bytes under any other key.
    #[inline(never)]
    fn write_other(&mut self, id: u32, bytes: &[u8]) -> Result<(), DeviceFault>
        requires { ROW ≤ id }
        ensures set { OnOk result (bytes_at self.new id ≡ Some bytes.now) }
        ensures others { KeepsOthers (bytes_at self.old) (bytes_at self.new) id }
        ensures refused { IfErr result (λ why. why ≡ Memory) }
        ensures unchanged { OnErr result (bytes_at self.new ≡ bytes_at self.old) }
        ensures faults { faults_of self.new ≡ faults_of self.old }
    {
        match self.others.entry(id) {
            Ok(Entry::Occupied(mut entry)) => {
                if !replace(entry.get_mut(), self.alloc, bytes) {
                    return Err(DeviceFault::Memory);
                }
            }
            Ok(Entry::Vacant(entry)) => {
                let Ok(held) = Vec::from_slice(self.alloc, bytes) else {
                    return Err(DeviceFault::Memory);
                };
                entry.insert(held);
            }
            Err(_) => return Err(DeviceFault::Memory),
        }
        Ok(())
    }

    // Takes a key away that doesn't stand in the row.
    #[inline(never)]
    fn let_go_other(&mut self, id: u32)
        requires { ROW ≤ id }
        ensures gone { bytes_at self.new id ≡ None }
        ensures others { KeepsOthers (bytes_at self.old) (bytes_at self.new) id }
        ensures faults { faults_of self.new ≡ faults_of self.old }
    {
        let _ = self.others.remove(&id);
    }
}

impl Device for MemDevice {
    ghost use Rattle.std.proofs.Common.{arith, rules};
    ghost use Rattle.far_device.specs.MemFollowing.{read_leaves, write_leaves};
    ghost use Rattle.far_device.specs.Wrapping.{wrapped_below};
    ghost use Rattle.far_device.specs.Mem.{bytes_at, faults_of, MemWrites, MemReads, MemLetsGo};

    ghost contents = { bytes_at };

    ghost honest = { λ _. true };

    ghost faults = { faults_of };

    ghost forgets = { Unit {0} };

    ghost reads_in_place = { Unit {0} };

    ghost fails_at_most = { λ _ _. Unit {0} };

    ghost wraps = { λ d. wrapped_below d.faults };

    ghost writes = { MemWrites };

    ghost reads = { MemReads };

    ghost lets_go = { MemLetsGo };

    ghost write_follows = { write_leaves };

    ghost read_follows = { read_leaves (λ n same. Prim.omega arith) };

    ghost forget_follows = { Prim.search rules };

    /// Refused [`DeviceFault::Memory`] alone, and then nothing has changed. A write under a key below 2,048 of no more bytes than
    /// are there takes no memory.
    #[inline(always)]
    fn write(&mut self, id: u32, bytes: &[u8]) -> Result<(), DeviceFault>
        ensures set { OnOk result (bytes_at self.new id ≡ Some bytes.now) }
        ensures others { KeepsOthers (bytes_at self.old) (bytes_at self.new) id }
        ensures refused { IfErr result (λ why. why ≡ Memory) }
        ensures in_place { id < ROW → IfSome (bytes_at self.old id) (λ stored. length bytes.now ≤ length stored → IfErr result (λ _. ⊥)) }
        ensures unchanged { OnErr result (bytes_at self.new ≡ bytes_at self.old) }
        ensures faults { faults_of self.new ≡ faults_of self.old }
    {
        if id < ROW {
            self.write_row(id as usize, bytes)
        } else {
            self.write_other(id, bytes)
        }
    }

    /// Answers [`DeviceFault::Device`] exactly if nothing is under the key, and else no fault but [`DeviceFault::Memory`].
    fn read(&mut self, id: u32) -> Result<Vec<u8>, DeviceFault>
        ensures given { IfOk result (λ bytes. bytes_at self.old id ≡ Some bytes.items) }
        ensures nothing { IfNone (bytes_at self.old id) (result ≡ Err Failed) }
        ensures refused { IfSome (bytes_at self.old id) (λ _. IfErr result (λ why. why ≡ Memory)) }
        ensures kept { bytes_at self.new ≡ bytes_at self.old }
        ensures counted { IfNone (bytes_at self.old id) (faults_of self.new ≡ (faults_of self.old + 1) % 2 ^ 64) }
        ensures uncounted { IfSome (bytes_at self.old id) (λ _. faults_of self.new ≡ faults_of self.old) }
    {
        let mut bytes = Vec::new(self.alloc);
        self.read_into(id, &mut bytes)?;
        Ok(bytes)
    }

    /// As [`MemDevice::read`]. Takes no memory where the buffer has room for the bytes.
    #[inline(always)]
    fn read_into(&mut self, id: u32, buffer: &mut Vec<u8>) -> Result<(), DeviceFault>
        ensures given { OnOk result (bytes_at self.old id ≡ Some buffer.new.items) }
        ensures nothing { IfNone (bytes_at self.old id) (result ≡ Err Failed) }
        ensures refused { IfSome (bytes_at self.old id) (λ _. IfErr result (λ why. why ≡ Memory)) }
        ensures in_place { IfSome (bytes_at self.old id) (λ stored. length stored ≤ vec_capacity buffer.old → IfErr result (λ _. ⊥)) }
        ensures room { vec_capacity buffer.old ≤ vec_capacity buffer.new }
        ensures kept { bytes_at self.new ≡ bytes_at self.old }
        ensures counted { IfNone (bytes_at self.old id) (faults_of self.new ≡ (faults_of self.old + 1) % 2 ^ 64) }
        ensures uncounted { IfSome (bytes_at self.old id) (λ _. faults_of self.new ≡ faults_of self.old) }
    {
        let Some(held) = self.stored(id) else {
            self.faults = self.faults.wrapping_add(1);
            return Err(DeviceFault::Device);
        };
        if !refill(buffer, held) {
            return Err(DeviceFault::Memory);
        }
        Ok(())
    }

    #[inline(always)]
    fn forget(&mut self, id: u32)
        ensures gone { bytes_at self.new id ≡ None }
        ensures others { KeepsOthers (bytes_at self.old) (bytes_at self.new) id }
        ensures faults { faults_of self.new ≡ faults_of self.old }
    {
        if id >= ROW {
            return self.let_go_other(id);
        }
        if let Some(slot) = self.row.get_mut(id as usize) {
            slot.empty(self.alloc);
        }
    }

    fn faults(&self) -> u64 {
        self.faults
    }
}

/// Makes the row longer than a number. After `false`, where memory was refused, it may not be.
#[inline(never)]
#[tactic(auto, using(crate::proofs::Rows::longer))]
fn lengthen(row: &mut Vec<Slot>, alloc: Global, id: usize) -> bool
    requires { id < ROW }
    ensures long { IsTrue result → id < vec_len row.new }
    ensures same { (k : ℕ) → bytes_in row.new k ≡ bytes_in row.old k }
{
    for _ in row.len()..id + 1 {
        let Ok(()) = row.push(Slot::new(alloc)) else {
            return false;
        };
    }
    true
}
