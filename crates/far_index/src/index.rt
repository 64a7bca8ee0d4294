//! The near index: a word a slot.

ghost use Rattle.std.specs.Prelude.{◌≡◌, ◌≢◌, ℕ, ◌<◌, ◌≤◌, ◌++◌, ◌∷◌, [], true, false, IfOk, OnOk, OnErr, length, replicate, slice_set};
ghost use Rattle.far_index.specs.Slots.{slot_at, Fits, IsTag};

use crate::slot::{Met, Slot, pack, unpack};
use std::alloc::{AllocError, Global};
use std::marker::Model;

/// Slots, 10 bytes each. A search reads the words alone, until one has the upper bits of its tag.
#[derive(Drop)]
pub struct Index {
    words: Vec<u64>,
    // The lower 16 bits of tags.
    rests: Vec<u16>,
}

impl Model for Index {
    ghost use Rattle.std.specs.Prelude.{◌≡◌, List, length};
    ghost use Rattle.far_index.specs.Slots.{slots_of};
    ghost use Rattle.far_index.specs.declared.slot.Slot.{Slot};

    ghost Value = { List Slot };

    ghost view = { λ x. slots_of x.words.items x.rests.items };

    ghost invariant = { λ x. length x.rests.items ≡ length x.words.items };
}

impl Index {
    /// So many empty slots.
    pub fn new(alloc: Global, len: usize) -> Result<Index, AllocError>
        ensures { IfOk result (λ x. x ≡ replicate len Slot.Empty) }
    {
        let words = vec![in alloc; 0u64; len]?;
        let rests = vec![in alloc; 0u16; len]?;
        Ok(Index { words, rests })
    }

    /// How many slots there are.
    pub fn len(&self) -> usize
        ensures { result ≡ length self.now }
    {
        self.words.len()
    }

    /// A slot.
    pub fn at(&self, i: usize) -> Slot
        requires { i < length self.now }
        ensures is { result ≡ slot_at self.now i }
        ensures fits { Fits result }
    {
        unpack(self.words[i], self.rests[i])
    }

    /// Whether a slot has an entry.
    pub fn has_entry(&self, i: usize) -> bool
        requires { i < length self.now }
        ensures full { result ≡ true → slot_at self.now i ≢ Slot.Empty }
        ensures free { result ≡ false → (t h : ℕ) → slot_at self.now i ≢ Slot.Full t h }
    {
        4_294_967_296 <= self.words[i]
    }

    /// Whether a slot is empty.
    pub fn is_empty_at(&self, i: usize) -> bool
        requires { i < length self.now }
    {
        self.words[i] == 0
    }

    /// What a search for a tag meets in a slot.
    pub fn meet(&self, i: usize, tag: u64) -> Met
        requires within { i < length self.now }
        requires tag { IsTag tag }
        ensures end { result ≡ Met.End → slot_at self.now i ≡ Slot.Empty }
        ensures other { result ≡ Met.Other → (slot_at self.now i ≢ Slot.Empty) × ((h : ℕ) → slot_at self.now i ≢ Slot.Full tag h) }
        ensures tag { (h : ℕ) → result ≡ Met.Tag h → slot_at self.now i ≡ Slot.Full tag h }
    {
        let word = self.words[i];
        if word == 0 {
            return Met::End;
        }
        if word / 4_294_967_296 != tag / 65_536 {
            return Met::Other;
        }
        let rest = lower_bits(self.rests[i]);
        if rest != tag % 65_536 {
            return Met::Other;
        }
        Met::Tag((word % 4_294_967_296) as u32)
    }

    /// Writes a slot.
    pub fn set(&mut self, i: usize, slot: Slot)
        requires within { i < length self.old }
        requires fits { Fits slot }
        ensures { self.new ≡ slice_set self.old i slot }
    {
        let (word, rest) = pack(slot);
        self.words[i] = word;
        self.rests[i] = rest;
    }

    /// One slot more, which is empty.
    pub fn push(&mut self) -> Result<(), AllocError>
        ensures longer { OnOk result (self.new ≡ self.old ++ Slot.Empty ∷ []) }
        ensures refused { OnErr result (self.new ≡ self.old) }
    {
        self.words.push(0)?;
        match self.rests.push(0) {
            Ok(()) => Ok(()),
            Err(why) => {
                self.words.pop();
                Err(why.into())
            }
        }
    }
}

fn lower_bits(rest: u16) -> u64
    ensures is { result ≡ rest }
    ensures low { result < 65536 }
{
    rest as u64
}

/// The first slot without an entry from a place on, or the number of slots.
pub fn free_place(slots: &Index, from: usize) -> usize
    requires { from ≤ length slots.now }
    ensures late { from ≤ result }
    ensures within { result ≤ length slots.now }
    ensures free { (t h : ℕ) → slot_at slots.now result ≢ Slot.Full t h }
    ensures full { (i : ℕ) → from ≤ i → i < result → slot_at slots.now i ≢ Slot.Empty }
{
    for i in from..slots.len() {
        if !slots.has_entry(i) {
            return i;
        }
    }
    slots.len()
}

/// Makes sure that a slot stands at a place; a new one is empty.
pub fn make_place(slots: &mut Index, place: usize) -> Result<(), AllocError>
    requires { place ≤ length slots.old }
    ensures same { (j : ℕ) → slot_at slots.new j ≡ slot_at slots.old j }
    ensures longer { length slots.old ≤ length slots.new }
    ensures there { IfOk result (λ _. place < length slots.new) }
{
    if place < slots.len() {
        return Ok(());
    }
    slots.push()
}
