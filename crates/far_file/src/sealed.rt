//! A device over positioned storage.

ghost use Rattle.std.specs.Prelude.{ℕ, ◌≡◌, ◌+◌, ◌*◌, ◌%◌, ◌^◌, ◌<◌, ◌≤◌, ◌≢◌, ◌⊎◌, Ok, Err, true, IsTrue, false, length, Some, None, IfOk, IfErr, IfSome, IfNone, IsSome, OnErr, OnOk, option_map};
ghost use Rattle.std.specs.Vec.{vec_capacity, vec_len};
ghost use Rattle.far_device.specs.Contents.{KeepsOthers};
ghost use Rattle.far_device.specs.Faults.{is_fault};
ghost use Rattle.far_device.specs.declared.fault.DeviceFault.TheVariants.{Memory, Device as Failed};
ghost use Rattle.far_file.specs.declared.fault.FileFault.TheVariants.{NoSlot, Nothing};
ghost use Rattle.far_file.specs.declared.place.TheConstants.{CLASSES, KEYS, SLOT, SLOTS};
ghost use Rattle.far_file.specs.Faults.{CanStopRead, StoppedRead, StoppedWrite};
ghost use Rattle.far_file.specs.Positions.{HoldsAt};
ghost use Rattle.far_file.specs.Owning.{owner_in};
ghost use Rattle.far_file.specs.Entry.{len_in, slot_in};
ghost use Rattle.far_file.specs.Row.{bytes_of, entry_in, known, AreKept, IsKept, IsUnused, KeepsEntries};
ghost use Rattle.far_file.specs.Free.{AreOwned, IsFree, KeepsOwned, KeepsOwnedBut};
ghost use Rattle.far_file.specs.Where.{class_in, page_in, scale, slot_at, HasExtent};

use crate::class::Want;
use crate::code::Code;
use crate::extents::Extents;
use crate::fault::{FileFault, StorageFault};
use crate::held::Held;
use crate::last_fault::{KeyFault, LastFault};
use crate::place::{KEYS, SLOT, class_of};
use crate::room::Room;
use crate::row::{count_held, entry, lengthen, nothing, set_entry};
use crate::seal::{NoSeal, Seal};
use crate::statistics::FileStatistics;
use crate::storage::Storage;
use far_device::{Device, DeviceFault};
use std::alloc::{AllocError, Global};
use std::snapshot::Snapshot;

/// The keys that may have a slot are as many as the pointers of the largest heap, and the largest slots have room for a log's words, so for any object.
pub fn slots_are()
    ensures keys { KEYS ≡ 2048 }
    ensures slot { SLOT ≡ 4096 }
{}

/// A device over storage, in which each of the keys below 2,048 that has bytes has the smallest slot with room for them, of 64 bytes to 4,096, and a
/// seal in memory: bytes that come back and don't fit theirs are a fault, and aren't given. It is honest if the storage is honest or the seals are exact.
#[derive(Drop)]
pub struct SealedDevice<F: Storage + Drop, L: Seal> {
    pub(crate) alloc: Global,
    pub(crate) storage: F,
    // What is known of the keys, as far as one was written.
    pub(crate) row: Vec<Held<L>>,
    // Their slots.
    pub(crate) room: Room,
    // The bytes that are written, for clauses to speak of.
    pub(crate) last: Vec<u8>,
    pub(crate) faults: u64,
    // The last fault.
    pub(crate) told: Option<KeyFault>,
    // Who asks for the last fault, if anyone does.
    pub(crate) asked: Option<LastFault>,
    ghost kept: { AreKept (F.Storage.seen storage) (F.Storage.honest storage) (owner_in room.classes) room.extents.items (entry_in row.items) },
}

/// The same without seals. It is honest if the storage is.
pub type FileDevice<F> = SealedDevice<F, NoSeal>;

impl<F: Storage + Drop, L: Seal> SealedDevice<F, L> {
    ghost use Rattle.far_file.specs.SealedCalls.{bytes_at, faults_of, place_at};
    ghost use Rattle.far_file.specs.Out.{HasNoMore, IsOut};

    /// A device that holds nothing, over storage that nobody else uses. What the storage has is passed over.
    pub fn new(alloc: Global, storage: F) -> SealedDevice<F, L>
        ensures contents { bytes_at result ≡ (λ _. None) }
        ensures faults { faults_of result ≡ 0 }
        ensures storage { result.storage ≡ storage }
        ensures told { result.told ≡ None }
    {
        SealedDevice::<F, L>::over(alloc, storage, None)
    }

    /// The same over storage that others use too, which take their extents from the same.
    pub(crate) fn over(alloc: Global, storage: F, shared: Option<Extents>) -> SealedDevice<F, L>
        ensures contents { bytes_at result ≡ (λ _. None) }
        ensures faults { faults_of result ≡ 0 }
        ensures storage { result.storage ≡ storage }
        ensures told { result.told ≡ None }
    {
        SealedDevice {
            alloc,
            storage,
            row: Vec::new(alloc),
            room: Room::new(alloc, shared),
            last: Vec::new(alloc),
            faults: 0,
            told: None,
            asked: None,
        }
    }

    /// Why the last call failed that answered [`DeviceFault::Device`]; `None` if none did.
    pub fn why(&self) -> Option<FileFault>
        ensures { result ≡ option_map (λ told. told.why) self.now.told }
    {
        match self.told {
            Some(told) => Some(told.why),
            None => None,
        }
    }

    /// A handle that tells the last fault since the first call of `last_fault`, also once a heap has the device. The first call takes memory; each later handle
    /// tells the same.
    pub fn last_fault(&mut self) -> Result<LastFault, AllocError>
        ensures contents { bytes_at self.new ≡ bytes_at self.old }
        ensures storage { self.new.storage ≡ self.old.storage }
        ensures faults { faults_of self.new ≡ faults_of self.old }
        ensures told { self.new.told ≡ self.old.told }
        ensures asked { IfOk result (λ _. IsSome self.new.asked) }
    {
        if let Some(last) = &self.asked {
            return last.try_clone();
        }
        let last = LastFault::new(self.alloc)?;
        let handed = last.try_clone()?;
        self.asked = Some(last);
        Ok(handed)
    }

    /// What the device has of its storage. It goes over all keys and slots.
    pub fn statistics(&self) -> FileStatistics {
        let (keys, bytes) = count_held(self.row.as_slice());
        FileStatistics {
            keys,
            bytes,
            classes: self.room.statistics(),
            end: self.room.end(),
        }
    }

    // Counts a fault of a key's call, and tells it to who asks.
    fn fail(&mut self, key: u32, why: FileFault) -> DeviceFault
        ensures fault { result ≡ Failed }
        ensures contents { bytes_at self.new ≡ bytes_at self.old }
        ensures others { (q : ℕ) → bytes_at self.new q ≡ bytes_at self.old q }
        ensures storage { self.new.storage ≡ self.old.storage }
        ensures room { self.new.room ≡ self.old.room }
        ensures counted { faults_of self.new ≡ (faults_of self.old + 1) % 2 ^ 64 }
        ensures told { self.new.told ≡ Some record { key = key; why = why } }
    {
        self.faults = self.faults.wrapping_add(1);
        let told = KeyFault { key, why };
        self.told = Some(told);
        if let Some(last) = &self.asked {
            last.set(told);
        }
        DeviceFault::Device
    }

    // What is known of a key that has bytes.
    fn held(&self, id: u32) -> Option<&Held<L>>
        ensures some { IfSome result (λ held. entry_in self.now.row.items id ≡ Some held.now) }
        ensures none { IfNone result (bytes_at self.now id ≡ None) }
    {
        entry(&self.row, id)
    }

    // How many bytes are under a key.
    fn len_of(&self, id: u32) -> Option<u16>
        ensures some { IfSome result (λ len. IfSome (bytes_at self.now id) (λ stored. length stored ≡ len)) }
        ensures there { IfSome result (λ _. IsSome (bytes_at self.now id)) }
        ensures none { IfNone result (bytes_at self.now id ≡ None) }
    {
        let held = self.held(id)?;
        Some(held.code.len())
    }

    // Fills a buffer from a key's slot, with bytes that fit their seal.
    fn fill(&self, id: u32, buffer: &mut Vec<u8>) -> Result<(), FileFault>
        requires { IfSome (bytes_at self.now id) (λ stored. length stored ≡ vec_len buffer.old) }
        ensures by_storage { F.Storage.honest self.now.storage ≡ true → OnOk result (IfSome (bytes_at self.now id) (λ stored. buffer.new.items ≡ stored)) }
        ensures by_seal { L.Seal.exact ≡ true → OnOk result (IfSome (bytes_at self.now id) (λ stored. buffer.new.items ≡ stored)) }
        ensures why { IfSome (bytes_at self.now id) (λ stored. IfErr result (CanStopRead (F.Storage.honest self.now.storage) (F.Storage.gets self.now.storage (place_at self.now id) (length stored)))) }
        ensures called { IfSome (bytes_at self.now id) (λ stored. OnOk result (F.Storage.gets self.now.storage (place_at self.now id) (length stored) (Ok buffer.new.items))) }
        ensures len { vec_len buffer.new ≡ vec_len buffer.old }
        ensures room { vec_capacity buffer.old ≤ vec_capacity buffer.new }
    {
        let Some(held) = self.held(id) else {
            return Err(FileFault::Nothing);
        };
        let code = held.code;
        let at = self.room.at(class_of(code.len() as usize), code.slot());
        if let Err(why) = self.storage.get(at, buffer.as_mut_slice()) {
            return Err(FileFault::Storage(why));
        }
        if held.seal.fits(buffer.as_slice()) {
            Ok(())
        } else {
            Err(FileFault::Misfit)
        }
    }

    // Sets what is known of a key, and lets go of the slot that it had.
    fn set(&mut self, id: u32, held: Held<L>)
        // a key in the row; what is to be known of it lies in a slot of its own that no key uses yet
        requires row { id < vec_len self.old.row }
        requires kept { IfSome (known held) (IsKept (F.Storage.seen self.old.storage) (F.Storage.honest self.old.storage) (owner_in self.old.room.classes) self.old.room.extents.items id) }
        requires unused { IfSome (known held) (λ held. IsUnused (entry_in self.old.row.items) (class_in (len_in held)) (slot_in held)) }

        // that is known of the key then, the slot that it had is free, and other keys have their bytes
        ensures set { entry_in self.new.row.items id ≡ known held }
        ensures freed { IfSome (entry_in self.old.row.items id) (λ held. IsFree (owner_in self.new.room.classes (class_in (len_in held)) (slot_in held))) }
        ensures others { KeepsOthers (bytes_at self.old) (bytes_at self.new) id }

        // nothing else has changed: extents, the storage, how long the row is, what was kept and told
        ensures extents { self.new.room.extents ≡ self.old.room.extents }
        ensures storage { self.new.storage ≡ self.old.storage }
        ensures row { vec_len self.new.row ≡ vec_len self.old.row }
        ensures last { self.new.last ≡ self.old.last }
        ensures faults { faults_of self.new ≡ faults_of self.old }
        ensures told { self.new.told ≡ self.old.told }
    {
        let was = set_entry(&mut self.row, id, held);
        let len = was.code.len();
        if len as u64 <= SLOT {
            self.room.free(class_of(len as usize), was.code.slot());
        }
    }

    // Lets go of a key.
    fn empty(&mut self, id: u32)
        ensures gone { bytes_at self.new id ≡ None }
        ensures others { KeepsOthers (bytes_at self.old) (bytes_at self.new) id }
        ensures freed { IfSome (entry_in self.old.row.items id) (λ held. IsFree (owner_in self.new.room.classes (class_in (len_in held)) (slot_in held))) }
        ensures storage { self.new.storage ≡ self.old.storage }
        ensures faults { faults_of self.new ≡ faults_of self.old }
        ensures told { self.new.told ≡ self.old.told }
    {
        if (id as usize) < self.row.len() {
            self.set(id, nothing(self.alloc));
        }
    }

    // Gives a key a free slot, beside one that it may have.
    fn take(&mut self, class: usize, id: u32) -> Result<u16, Want>
        // a size of slots, and a key
        requires class { class < CLASSES }
        requires key { id < KEYS }

        // done: a slot of the key's that no key uses, on a page that has an extent; no other slot goes to another key
        ensures unused { IfOk result (λ slot. IsUnused (entry_in self.new.row.items) class slot) }
        ensures own { IfOk result (λ slot. owner_in self.new.room.classes class slot ≡ Some id) }
        ensures low { IfOk result (λ slot. slot < SLOTS) }
        ensures there { IfOk result (λ slot. HasExtent self.new.room.extents.items (page_in class slot)) }
        ensures rest { IfOk result (KeepsOwnedBut (owner_in self.old.room.classes) (owner_in self.new.room.classes) class) }

        // refused: no key has a slot more; for want of memory, or as all slots are taken, or as the storage has no more extents
        ensures left { OnErr result (KeepsOwned (owner_in self.new.room.classes) (owner_in self.old.room.classes)) }
        ensures out { IfErr result (IsOut (AreOwned (owner_in self.new.room.classes class)) (HasNoMore self.new.room.below self.new.room.shared)) }

        // nothing else has changed: the row, the storage, what was kept and told
        ensures row { self.new.row ≡ self.old.row }
        ensures storage { self.new.storage ≡ self.old.storage }
        ensures last { self.new.last ≡ self.old.last }
        ensures faults { faults_of self.new ≡ faults_of self.old }
        ensures told { self.new.told ≡ self.old.told }
    {
        self.room.take(class, id as u16)
    }

    // Puts bytes into a slot that no key uses.
    fn put(&mut self, class: usize, slot: u16, bytes: &[u8]) -> Result<(), StorageFault>
        // a slot that no key uses, with an extent, and bytes that fit in it
        requires class { class < CLASSES }
        requires low { slot < SLOTS }
        requires few { length bytes.now ≤ 64 * scale class }
        requires unused { IsUnused (entry_in self.old.row.items) class slot }
        requires there { HasExtent self.old.room.extents.items (page_in class slot) }

        // one call of the storage was made, which tells whether it is done; then the bytes are there, if the storage is honest
        ensures called { F.Storage.puts self.old.storage (slot_at self.old.room.extents.items class slot) bytes.now result self.new.storage }
        ensures put { F.Storage.honest self.old.storage ≡ true → OnOk result (HoldsAt (F.Storage.seen self.new.storage) (slot_at self.old.room.extents.items class slot) bytes.now) }
        ensures honest { F.Storage.honest self.new.storage ≡ F.Storage.honest self.old.storage }

        // nothing else has changed: the row, slots and extents, what was kept and told
        ensures row { self.new.row ≡ self.old.row }
        ensures room { self.new.room ≡ self.old.room }
        ensures last { self.new.last ≡ self.old.last }
        ensures faults { faults_of self.new ≡ faults_of self.old }
        ensures told { self.new.told ≡ self.old.told }
    {
        self.storage.put(self.room.at(class, slot), bytes)
    }

    // Notes that the bytes that were written last are under a key, in a slot of its own, and lets go of the slot that it had.
    fn note(&mut self, id: u32, len: u16, slot: u16, seal: L)
        // a key in the row, and the bytes that were written last, with their length and seal
        requires row { id < vec_len self.old.row }
        requires key { id < KEYS }
        requires len { length self.old.last.items ≡ len }
        requires few { len ≤ SLOT }
        requires sealed { L.Seal.kept seal ≡ L.Seal.digest self.old.last.items }

        // they lie in a slot of the key's own that no key uses yet
        requires low { slot < SLOTS }
        requires own { owner_in self.old.room.classes (class_in len) slot ≡ Some id }
        requires unused { IsUnused (entry_in self.old.row.items) (class_in len) slot }
        requires there { HasExtent self.old.room.extents.items (page_in (class_in len) slot) }
        requires put { F.Storage.honest self.old.storage ≡ true → HoldsAt (F.Storage.seen self.old.storage) (slot_at self.old.room.extents.items (class_in len) slot) self.old.last.items }

        // they are under the key then, in that slot; the one that it had is free, and other keys have their bytes
        ensures set { bytes_at self.new id ≡ Some self.old.last.items }
        ensures place { place_at self.new id ≡ slot_at self.old.room.extents.items (class_in len) slot }
        ensures freed { IfSome (entry_in self.old.row.items id) (λ held. IsFree (owner_in self.new.room.classes (class_in (len_in held)) (slot_in held))) }
        ensures others { KeepsOthers (bytes_at self.old) (bytes_at self.new) id }

        // nothing else has changed: the storage, what was told
        ensures storage { self.new.storage ≡ self.old.storage }
        ensures faults { faults_of self.new ≡ faults_of self.old }
        ensures told { self.new.told ≡ self.old.told }
    {
        let was = Snapshot::of(&self.last);
        let code = Code::new(len, slot);
        let held = Held { code, seal, was };
        self.set(id, held);
    }

    // Lets go of a slot that no key uses.
    fn release(&mut self, class: usize, slot: u16)
        requires class { class < CLASSES }
        requires unused { IsUnused (entry_in self.old.row.items) class slot }
        ensures row { self.new.row ≡ self.old.row }
        ensures freed { IsFree (owner_in self.new.room.classes class slot) }
        ensures others { KeepsOwnedBut (owner_in self.old.room.classes) (owner_in self.new.room.classes) class slot }
        ensures storage { self.new.storage ≡ self.old.storage }
        ensures faults { faults_of self.new ≡ faults_of self.old }
        ensures told { self.new.told ≡ self.old.told }
    {
        self.room.free(class, slot);
    }

    // Makes the row long enough for a key.
    fn reach(&mut self, id: u32) -> bool
        requires { id < KEYS }
        ensures long { IsTrue result → id < vec_len self.new.row }
        ensures same { KeepsEntries self.old.row.items self.new.row.items }
        ensures room { self.new.room ≡ self.old.room }
        ensures last { self.new.last ≡ self.old.last }
        ensures storage { self.new.storage ≡ self.old.storage }
        ensures faults { faults_of self.new ≡ faults_of self.old }
        ensures told { self.new.told ≡ self.old.told }
    {
        lengthen(self.alloc, &mut self.row, id as usize)
    }

    // Keeps these bytes as those that are written.
    fn keep(&mut self, bytes: &[u8]) -> bool
        ensures kept { IsTrue result → self.new.last.items ≡ bytes.now }
        ensures same { self.new.row ≡ self.old.row }
        ensures room { self.new.room ≡ self.old.room }
        ensures storage { self.new.storage ≡ self.old.storage }
        ensures faults { self.new.faults ≡ self.old.faults }
        ensures told { self.new.told ≡ self.old.told }
    {
        self.last.clear();
        self.last.extend_from_slice(bytes).is_ok()
    }
}

impl<F: Storage + Drop, L: Seal> Device for SealedDevice<F, L> {
    ghost use Rattle.std.proofs.Common.{arith};
    ghost use Rattle.far_device.specs.Wrapping.{wrapped_below};
    ghost use Rattle.far_file.specs.SealedCalls.{bytes_at, counted, faults_of, is_honest, place_at, puts_somewhere, SealedWrites, SealedReads, SealedLetsGo};
    ghost use Rattle.far_file.specs.SealedFollowing.{forget_leaves, read_leaves, write_leaves};
    ghost use Rattle.far_file.specs.Out.{HasNoMore};

    ghost contents = { bytes_at };

    ghost honest = { is_honest };

    ghost faults = { faults_of };

    ghost forgets = { Unit {0} };

    ghost reads_in_place = { Unit {0} };

    ghost fails_at_most = { λ _ _. ⊥ };

    ghost wraps = { λ d. wrapped_below d.faults };

    ghost writes = { SealedWrites };

    ghost reads = { SealedReads };

    ghost lets_go = { SealedLetsGo };

    ghost write_follows = { write_leaves (λ n same. Prim.omega arith) };

    ghost read_follows = { read_leaves (λ n same. Prim.omega arith) };

    ghost forget_follows = { forget_leaves };

    /// After any fault all is as it was, and no key has a slot more: the bytes go to a free slot, and the key's own is let go of once they are there. A write that succeeds makes one call
    /// of the storage; one that is refused memory, or has no slot, makes none.
    #[tactic(auto, using(crate::proofs::Lost::taken_back, crate::proofs::Lost::as_before))]
    fn write(&mut self, id: u32, bytes: &[u8]) -> Result<(), DeviceFault>
        // done: the bytes are under the key, one call of the storage put them where they lie, and the slot that it had is free
        ensures set { OnOk result (bytes_at self.new id ≡ Some bytes.now) }
        ensures called { IfOk result (λ done. F.Storage.puts self.old.storage (place_at self.new id) bytes.now (Ok done) self.new.storage) }
        ensures freed { OnOk result (IfSome (entry_in self.old.row.items id) (λ held. IsFree (owner_in self.new.room.classes (class_in (len_in held)) (slot_in held)))) }

        // refused: the key has its bytes as before, and none has a slot more; a refusal for want of memory asked nothing of the storage
        ensures left { OnErr result (bytes_at self.new id ≡ bytes_at self.old id) }
        ensures slots { OnErr result (KeepsOwned (owner_in self.new.room.classes) (owner_in self.old.room.classes)) }
        ensures unasked { result ≡ Err Memory → self.new.storage ≡ self.old.storage }

        // other keys have their bytes either way, and the storage is as honest as before
        ensures others { KeepsOthers (bytes_at self.old) (bytes_at self.new) id }
        ensures honest { F.Storage.honest self.new.storage ≡ F.Storage.honest self.old.storage }
        ensures as_honest { is_honest self.new ≡ is_honest self.old }

        // a fault is counted, and told: no slot for such a key or so many bytes, which is refused before anything is asked; no slot that is free; or the storage's
        ensures faults { faults_of self.new ≡ counted (is_fault result) (faults_of self.old) }
        ensures no_slot { (KEYS ≤ id) ⊎ (SLOT < length bytes.now) → (result ≡ Err Failed) × (self.new.told ≡ Some record { key = id; why = NoSlot }) × (bytes_at self.new ≡ bytes_at self.old) × (self.new.storage ≡ self.old.storage) }
        ensures told { id < KEYS → length bytes.now ≤ SLOT → is_fault result ≡ true → StoppedWrite ((self.new.storage ≡ self.old.storage) × (AreOwned (owner_in self.new.room.classes (class_in (length bytes.now))) ⊎ HasNoMore self.new.room.below self.new.room.shared)) (puts_somewhere F.Storage.puts self.old.storage bytes.now self.new.storage) id self.new.told }
        ensures kept_told { is_fault result ≡ false → self.new.told ≡ self.old.told }
    {
        if id >= KEYS || bytes.len() as u64 > SLOT {
            return Err(self.fail(id, FileFault::NoSlot));
        }
        if !self.keep(bytes) || !self.reach(id) {
            return Err(DeviceFault::Memory);
        }
        let Some(seal) = L::seal(self.alloc, bytes) else {
            return Err(DeviceFault::Memory);
        };
        let class = class_of(bytes.len());
        let slot = match self.take(class, id) {
            Ok(slot) => slot,
            Err(Want::Memory) => return Err(DeviceFault::Memory),
            Err(Want::Slot) => return Err(self.fail(id, FileFault::NoSlot)),
            Err(Want::Extent) => return Err(self.fail(id, FileFault::NoSlot)),
        };
        match self.put(class, slot, bytes) {
            Ok(()) => {
                self.note(id, bytes.len() as u16, slot, seal);
                Ok(())
            }
            Err(why) => {
                self.release(class, slot);
                Err(self.fail(id, FileFault::Storage(why)))
            }
        }
    }

    /// A read that succeeds gives as many bytes as were written, those that a call of the storage gave. Refused [`DeviceFault::Memory`] for want of room for them, [`DeviceFault::Device`] if nothing is under the
    /// key, the storage failed, or the bytes don't fit their seal; the contents stay.
    fn read(&mut self, id: u32) -> Result<Vec<u8>, DeviceFault>
        ensures called { IfSome (bytes_at self.old id) (λ stored. IfOk result (λ bytes. F.Storage.gets self.old.storage (place_at self.old id) (length stored) (Ok bytes.items))) }
        ensures len { IfSome (bytes_at self.old id) (λ stored. IfOk result (λ bytes. vec_len bytes ≡ length stored)) }
        ensures given { is_honest self.old ≡ true → IfOk result (λ bytes. IfSome (bytes_at self.old id) (λ stored. bytes.items ≡ stored)) }
        ensures nothing { IfNone (bytes_at self.old id) ((result ≡ Err Failed) × (self.new.told ≡ Some record { key = id; why = Nothing })) }
        ensures told { IfSome (bytes_at self.old id) (λ stored. is_fault result ≡ true → StoppedRead (F.Storage.honest self.old.storage) (F.Storage.gets self.old.storage (place_at self.old id) (length stored)) id self.new.told) }
        ensures kept_told { is_fault result ≡ false → self.new.told ≡ self.old.told }
        ensures kept { bytes_at self.new ≡ bytes_at self.old }
        ensures faults { faults_of self.new ≡ counted (is_fault result) (faults_of self.old) }
        ensures storage { self.new.storage ≡ self.old.storage }
    {
        let mut bytes = Vec::new(self.alloc);
        match self.read_into(id, &mut bytes) {
            Ok(()) => Ok(bytes),
            Err(why) => Err(why),
        }
    }

    /// As `read`. Takes no memory if the buffer has room for the bytes.
    #[tactic(auto, using(crate::proofs::Rows::either))]
    fn read_into(&mut self, id: u32, buffer: &mut Vec<u8>) -> Result<(), DeviceFault>
        // done: as many bytes as were written, which one call of the storage gave: those that were written, if it is honest
        ensures called { IfSome (bytes_at self.old id) (λ stored. OnOk result (F.Storage.gets self.old.storage (place_at self.old id) (length stored) (Ok buffer.new.items))) }
        ensures len { IfSome (bytes_at self.old id) (λ stored. OnOk result (vec_len buffer.new ≡ length stored)) }
        ensures given { is_honest self.old ≡ true → OnOk result (IfSome (bytes_at self.old id) (λ stored. buffer.new.items ≡ stored)) }

        // a fault is counted, and told: nothing is under the key, or what came of the storage
        ensures faults { faults_of self.new ≡ counted (is_fault result) (faults_of self.old) }
        ensures nothing { IfNone (bytes_at self.old id) ((result ≡ Err Failed) × (self.new.told ≡ Some record { key = id; why = Nothing })) }
        ensures told { IfSome (bytes_at self.old id) (λ stored. is_fault result ≡ true → StoppedRead (F.Storage.honest self.old.storage) (F.Storage.gets self.old.storage (place_at self.old id) (length stored)) id self.new.told) }
        ensures kept_told { is_fault result ≡ false → self.new.told ≡ self.old.told }

        // all keys have their bytes, and the storage is as it was
        ensures kept { bytes_at self.new ≡ bytes_at self.old }
        ensures storage { self.new.storage ≡ self.old.storage }

        // the buffer never has less room, and no memory is taken where it has enough
        ensures room { vec_capacity buffer.old ≤ vec_capacity buffer.new }
        ensures in_place { IfSome (bytes_at self.old id) (λ stored. length stored ≤ vec_capacity buffer.old → result ≢ Err Memory) }
    {
        let Some(len) = self.len_of(id) else {
            return Err(self.fail(id, FileFault::Nothing));
        };
        if buffer.resize(len as usize, 0).is_err() {
            return Err(DeviceFault::Memory);
        }
        match self.fill(id, buffer) {
            Ok(()) => Ok(()),
            Err(why) => Err(self.fail(id, why)),
        }
    }

    fn forget(&mut self, id: u32)
        ensures gone { bytes_at self.new id ≡ None }
        ensures others { KeepsOthers (bytes_at self.old) (bytes_at self.new) id }
        ensures freed { IfSome (entry_in self.old.row.items id) (λ held. IsFree (owner_in self.new.room.classes (class_in (len_in held)) (slot_in held))) }
        ensures faults { faults_of self.new ≡ faults_of self.old }
        ensures storage { self.new.storage ≡ self.old.storage }
        ensures told { self.new.told ≡ self.old.told }
    {
        self.empty(id);
    }

    fn faults(&self) -> u64 {
        self.faults
    }
}
