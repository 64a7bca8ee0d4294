// What a mutator knows by itself of pointers, and its count of scopes.
ghost use Rattle.std.specs.Prelude.{◌≡◌, ◌+◌, ◌^◌, ◌<◌, ◌==◌, ℕ, false, length, slice_index, None, IfOk, IfSome};
ghost use Rattle.far_word.specs.declared.sizes.TheConstants.{POINTERS};
ghost use Rattle.far_heap.specs.Rows.{EndsScope, HasRow, HasSoil, IsBlank, RowsOk, row_in, row_of, soiled_of};

use far_word::POINTERS;
use std::alloc::{AllocError, Global};

// What a mutator knows of one pointer.
#[derive(Clone, Copy)]
pub(crate) struct Row {
    // The scope that viewed its object last, by its count; 0 where none has.
    pub(crate) viewed: u32,
    // The length of its object, 0 where it isn't used.
    pub(crate) len: u16,
    // Of which data structure it is, where it is used.
    pub(crate) structure: u8,
}

// Twelve bytes for each pointer of the largest heap: so no test is needed of whose a pointer is, since the rows of others' pointers stay blank.
#[derive(Drop)]
pub(crate) struct Rows {
    pub(crate) each: Vec<Row>,
    // The scope that soiled each pointer's object last, by its count; 0 where none has.
    pub(crate) soiled: Vec<u32>,
    // The count of the scope that is open, or of the next. It is above 0, and no count in a row is above it.
    pub(crate) scope: u32,
}

// No object has been viewed.
#[cold]
#[inline(never)]
fn forget_views(each: &mut [Row])
    ensures many { length each.new ≡ length each.old }
    ensures rows { (k : ℕ) → row_in each.new k ≡ record (row_in each.old k) { viewed = 0 } }
{
    for i in 0..each.len() {
        each[i].viewed = 0;
    }
}

// No object has been soiled.
#[cold]
#[inline(never)]
fn forget_soils(soiled: &mut [u32])
    ensures many { length soiled.new ≡ length soiled.old }
    ensures zeros { (k : ℕ) → slice_index soiled.new k ≡ 0 }
{
    for i in 0..soiled.len() {
        soiled[i] = 0;
    }
}

impl Rows {
    // The rows of a mutator that uses nothing, before its first scope.
    pub(crate) fn new(alloc: Global) -> Result<Rows, AllocError>
        ensures { IfOk result IsBlank }
    {
        let blank = Row {
            viewed: 0,
            len: 0,
            structure: 0,
        };
        let each = vec![in alloc; blank; POINTERS as usize]?;
        let soiled = vec![in alloc; 0; POINTERS as usize]?;
        Ok(Rows {
            each,
            soiled,
            scope: 1,
        })
    }

    // The length of the object of a pointer that is used.
    #[tactic(auto, using(crate::proofs::OwnSteps::past_rows))]
    #[inline(always)]
    pub(crate) fn used_len(&self, p: u16) -> Option<u16>
        requires { RowsOk self.now }
        ensures used { IfSome result (λ len. (0 < len) × (len ≡ (row_of self.now p).len)) }
        ensures unused { result ≡ None → (row_of self.now p).len ≡ 0 }
    {
        if p >= POINTERS {
            return None;
        }
        let len = self.each[p as usize].len;
        if len == 0 { None } else { Some(len) }
    }

    // The length of the object of a pointer that the open scope has viewed.
    #[tactic(auto, using(crate::proofs::OwnSteps::past_rows))]
    #[inline(always)]
    pub(crate) fn viewed_len(&self, p: u16) -> Option<u16>
        requires { RowsOk self.now }
        ensures viewed { IfSome result (λ len. ((row_of self.now p).viewed ≡ self.now.scope) × (len ≡ (row_of self.now p).len)) }
        ensures other { result ≡ None → ((row_of self.now p).viewed == self.now.scope) ≡ false }
    {
        if p >= POINTERS {
            return None;
        }
        let row = &self.each[p as usize];
        if row.viewed != self.scope {
            return None;
        }
        Some(row.len)
    }

    // The length in the row of a pointer.
    #[inline(always)]
    pub(crate) fn len_at(&self, p: u16) -> u16
        requires { p < length self.now.each.items }
        ensures { result ≡ (row_of self.now p).len }
    {
        self.each[p as usize].len
    }

    // The data structure in the row of a pointer.
    #[inline(always)]
    pub(crate) fn structure_at(&self, p: u16) -> u8
        requires { p < length self.now.each.items }
        ensures { result ≡ (row_of self.now p).structure }
    {
        self.each[p as usize].structure
    }

    // The open scope has viewed the object of a pointer.
    #[inline(always)]
    pub(crate) fn note_viewed(&mut self, p: u16)
        requires { p < length self.old.each.items }
        ensures { HasRow self.old self.new p (record (row_of self.old p) { viewed = self.old.scope }) }
    {
        self.each[p as usize].viewed = self.scope;
    }

    // A pointer is used for an object of this length and data structure.
    #[inline(always)]
    pub(crate) fn note_used(&mut self, p: u16, len: u16, structure: u8)
        requires { p < length self.old.each.items }
        ensures { HasRow self.old self.new p (record (row_of self.old p) { len = len; structure = structure }) }
    {
        let row = &mut self.each[p as usize];
        row.len = len;
        row.structure = structure;
    }

    // A pointer is used no longer.
    #[inline(always)]
    pub(crate) fn note_unused(&mut self, p: u16)
        requires { p < length self.old.each.items }
        ensures { HasRow self.old self.new p (record (row_of self.old p) { len = 0 }) }
    {
        self.each[p as usize].len = 0;
    }

    // Whether the open scope has soiled the object of a pointer.
    #[inline(always)]
    pub(crate) fn has_soiled(&self, p: u16) -> bool
        requires { p < length self.now.soiled.items }
        ensures { result ≡ (soiled_of self.now p == self.now.scope) }
    {
        self.soiled[p as usize] == self.scope
    }

    // The open scope has soiled the object of a pointer.
    #[inline(always)]
    pub(crate) fn note_soiled(&mut self, p: u16)
        requires { p < length self.old.soiled.items }
        ensures { HasSoil self.old self.new p }
    {
        self.soiled[p as usize] = self.scope;
    }

    // The scope is closed: no row has the count of the next. Where no number is left, and nowhere else, the counts begin anew.
    #[inline(always)]
    pub(crate) fn end_scope(&mut self)
        requires { RowsOk self.old }
        ensures ends { EndsScope self.old self.new }
        ensures next { self.old.scope + 1 < 2 ^ 32 → self.new ≡ record self.old { scope = self.old.scope + 1 } }
    {
        if self.scope < u32::MAX {
            self.scope += 1;
            return;
        }
        self.forget_scopes();
    }

    // The counts begin anew. The functions called here get the rows alone, not where they stand: so a mutator that is closed needn't lie in memory.
    #[inline(always)]
    fn forget_scopes(&mut self)
        requires { RowsOk self.old }
        ensures { EndsScope self.old self.new }
    {
        forget_views(self.each.as_mut_slice());
        forget_soils(self.soiled.as_mut_slice());
        self.scope = 1;
    }
}
