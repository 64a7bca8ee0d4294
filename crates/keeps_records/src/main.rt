//! A cache of records over a file: 100,000 are put, and each is taken as it was put once 2,000 more are there, or the program ends with 1.
#![tactic(auto)]

ghost use Rattle.std.specs.Prelude.{◌≡◌, ◌≢◌, ℕ, List, length, true, Some, None, IfOk, OnOk};
ghost use Rattle.far_private.specs.Heap.{bytes_in, object};

use far_device::Device;
use far_file::{FileDevice, NewFile};
use far_private::PrivateHeap;
use far_word::Refused;
use std::fs::remove_file;

#[derive(Drop)]
struct Cache<D: Device + Drop> {
    heap: PrivateHeap<D>,
}

impl<D: Device + Drop> Cache<D> {
    // Keeps a record, and answers its number.
    fn put(&mut self, bytes: &[u8; 8]) -> Result<u16, Refused>
        ensures kept { self.old.heap.honest ≡ true → IfOk result (λ n. bytes_in self.new.heap n ≡ Some bytes.now) }
        ensures others { IfOk result (λ n. (m : ℕ) → m ≢ n → object self.new.heap m ≡ object self.old.heap m) }
    {
        self.heap.alloc_with(bytes, 1)
    }

    // Takes the record of a number out of the cache.
    fn take(&mut self, number: u16) -> Result<[u8; 8], Refused>
        ensures got { (kept : List ℕ) → bytes_in self.old.heap number ≡ Some kept → length kept ≡ 8 → IfOk result (λ found. found ≡ kept) }
        ensures gone { OnOk result (object self.new.heap number ≡ None) }
        ensures others { (m : ℕ) → m ≢ number → object self.new.heap m ≡ object self.old.heap m }
    {
        let mut bytes = [0; 8];
        self.heap.read(number, 0, &mut bytes)?;
        self.heap.drop_object(number)?;
        Ok(bytes)
    }
}

// Puts numbers as records, and takes each once 2,000 more are there.
fn keep<D: Device + Drop>(cache: &mut Cache<D>) -> Result<(), Refused> {
    let mut numbers = [0; 2000];
    for count in 0..102_000u64 {
        let place = (count % 2000) as usize;
        if count >= 2000 && cache.take(numbers[place])? != (count - 2000).to_le_bytes() {
            return Err(Refused::Damaged);
        }
        numbers[place] = cache.put(&count.to_le_bytes())?;
    }
    Ok(())
}

fn main(rt: HostRuntime) -> Result<(), Refused> {
    let Ok(file) = NewFile::new().open(&rt, "records.far") else {
        return Err(Refused::Device);
    };
    let _ = remove_file(&rt, "records.far");
    let heap = PrivateHeap::new(rt.alloc(), 4, false, FileDevice::new(rt.alloc(), file))?;
    keep(&mut Cache { heap })
}
