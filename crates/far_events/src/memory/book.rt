//! The events of the book.

ghost use Rattle.std.specs.Prelude.{◌≡◌, ◌<◌, ◌≤◌, ◌+◌, ◌*◌, ℕ, true, IfErr, IfOk, IsSome, None, Some, is_some};
ghost use Rattle.std.specs.Option.{ForSome};
ghost use Rattle.far_events.specs.state.State.{State, addr, put};
ghost use Rattle.far_events.specs.declared.event.Event.{Event};
ghost use Rattle.far_events.specs.declared.event.Reply.{Reply};
ghost use Rattle.far_events.specs.state.Law.{Law};
ghost use Rattle.far_events.specs.events.Clear.{is_near};
ghost use Rattle.far_events.specs.events.Name.{after_naming};
ghost use Rattle.far_events.specs.events.Naming.{IsOnLayout, naming_of, naming_row, no_marks};
ghost use Rattle.far_events.specs.events.namings.Evicts.{evicts_row, with_kept, IsAt};
ghost use Rattle.far_events.specs.events.NewSpans.{goes_at, is_new_span, with_begun, with_span};
ghost use Rattle.far_events.specs.events.Next.{next_state};
ghost use Rattle.far_events.specs.events.Step.{answer, is_legal, is_past};
ghost use Rattle.far_events.specs.events.Get.{is_copied_at, is_live_at, may_free, none_copied, none_live, with_free_log};
ghost use Rattle.far_events.specs.events.Mark.{may_mark, is_sealed};
ghost use Rattle.far_events.specs.state.Jobs.{job_said};
ghost use Rattle.far_events.specs.state.Spans.{names_place};
ghost use Rattle.far_events.specs.state.Stored.{RowsAre};
ghost use Rattle.far_events.specs.state.StoredRows.{stored_in};
ghost use Rattle.far_word.specs.Job.{job_of};
ghost use Rattle.far_log.specs.Spans.{pointer_in};
ghost use Rattle.far_word.specs.Header.{head_of};
ghost use Rattle.far_events.specs.state.Memory.{state_of};
ghost use Rattle.far_word.specs.Pointer.{IsPtr, read_of, view_place};
ghost use Rattle.far_word.specs.Sizes.{size_of, words_for};

use crate::event::Kind;
use crate::memory::Memory;
use crate::memory::reading::first_word;
use crate::memory::stored_rows::StoredRows;
use crate::naming::Naming;
use far_word::{
    CELLS, HeadWord, JOBS, Job, JobWord, LOG_WORDS, Mark, Place, PtrWord, pointer_len,
    resting_place, size_of, words_for,
};

#[tactic(auto, unfolding(crate::specs::events::Next::next_state))]
impl Memory {
    pub fn may_get(&self, log: u8, at: u16, free: bool) -> bool
        requires { Law (state_of self.now) }
        ensures { result ≡ is_legal (state_of self.now) (Event.Get log at free) }
    {
        self.has_log(log) && at < LOG_WORDS && self.may_free(log, free)
    }

    /// Whether a log may be given back, where it is to be.
    fn may_free(&self, log: u8, free: bool) -> bool
        requires law { Law (state_of self.now) }
        requires log { log < (state_of self.now).logs }
        ensures { result ≡ may_free (state_of self.now) log free }
    {
        if free {
            is_sealed(self.kind(log))
                && self.none_live(log, LOG_WORDS)
                && self.none_copied(log, JOBS)
        } else {
            true
        }
    }

    pub fn get(&mut self, log: u8, at: u16, free: bool) -> u64
        requires log { log < (state_of self.old).logs }
        requires at { at < LOG_WORDS }
        ensures state { state_of self.new ≡ next_state (state_of self.old) (Event.Get log at free) }
        ensures word { answer (state_of self.old) (Event.Get log at free) ≡ Reply.Word result }
    {
        let word = self.word(first_word(Place { log, at }));
        if free {
            self.free_log(log);
        }
        word
    }

    /// Gives a log back: it is free, its tail is 0, no span begins in it, and it leaves the round.
    fn free_log(&mut self, log: u8)
        requires { log < (state_of self.old).logs }
        ensures { state_of self.new ≡ with_free_log (state_of self.old) log }
    {
        self.set_kind(log, Kind::Free);
        self.set_tail(log, 0);
        self.empty_log(log);
        self.leave_round(log);
    }

    /// Whether none of the first words of a log is the header of a live span.
    fn none_live(&self, log: u8, words: u16) -> bool
        requires law { Law (state_of self.now) }
        requires log { log < (state_of self.now).logs }
        requires words { words ≤ LOG_WORDS }
        ensures { result ≡ none_live (state_of self.now) log words }
    {
        for at in 0..words {
            if self.is_live_at(log, at) {
                return false;
            }
        }
        true
    }

    /// Whether none of the first jobs reads or writes a log.
    fn none_copied(&self, log: u8, jobs: u8) -> bool
        ensures { result ≡ none_copied (state_of self.now).copying log jobs }
    {
        for job in 0..jobs {
            if is_copied_at(log, job_in(self.job(job))) {
                return false;
            }
        }
        true
    }

    /// Whether a word of a log is the header of a live span.
    fn is_live_at(&self, log: u8, at: u16) -> bool
        requires law { Law (state_of self.now) }
        requires log { log < (state_of self.now).logs }
        requires at { at < LOG_WORDS }
        ensures { result ≡ is_live_at (state_of self.now) log at }
    {
        let header = first_word(Place { log, at });
        self.starts(header) && names_place(self.cell(pointer_in(self.word(header))), log, at)
    }

    pub(crate) fn may_put(&self, log: u8, at: u16, word: u64) -> bool
        ensures { result ≡ is_legal (state_of self.now) (Event.Put log at word) }
    {
        self.has_log(log) && at < LOG_WORDS && is_past(self.kind(log), at, self.tail(log))
    }

    pub fn put(&mut self, log: u8, at: u16, word: u64)
        requires log { log < (state_of self.old).logs }
        requires at { at < LOG_WORDS }
        ensures { state_of self.new ≡ next_state (state_of self.old) (Event.Put log at word) }
    {
        self.set_word(first_word(Place { log, at }), word);
    }

    /// The cell of a pointer goes from `old` to `new`, where it is `old`; else `Err` with the cell.
    #[inline(always)]
    pub fn name(&mut self, pointer: u16, old: u64, new: u64) -> Result<(), u64>
        requires law { Law (state_of self.old) }
        requires legal { is_legal (state_of self.old) (Event.Name pointer old new) ≡ true }
        ensures state { state_of self.new ≡ next_state (state_of self.old) (Event.Name pointer old new) }
        ensures won { IfOk result (λ _. answer (state_of self.old) (Event.Name pointer old new) ≡ Reply.Done) }
        ensures found { IfErr result (λ cell. answer (state_of self.old) (Event.Name pointer old new) ≡ Reply.Word cell) }
    {
        let cell = self.cell_at(pointer);
        if cell != old {
            return Err(cell);
        }
        self.make_naming(pointer, old, new);
        Ok(())
    }

    /// Whether a naming is legal, by rows of what is stored.
    pub fn may_name(&self, rows: &StoredRows, pointer: u16, old: u64, new: u64) -> bool
        requires law { Law (state_of self.now) }
        requires rows { stored_in rows.now ≡ (state_of self.now).stored }
        ensures { result ≡ is_legal (state_of self.now) (Event.Name pointer old new) }
    {
        match Naming::of(old, new) {
            Some(form) => self.has_pointer(pointer) && self.may_make(rows, pointer, form),
            None => false,
        }
    }

    /// Whether a form may be made of a pointer.
    fn may_make(&self, rows: &StoredRows, pointer: u16, form: Naming) -> bool
        requires rows { stored_in rows.now ≡ (state_of self.now).stored }
        requires pointer { pointer < CELLS * (state_of self.now).mutators }
        requires layout { IsOnLayout form }
        requires law { Law (state_of self.now) }
        ensures { (new : ℕ) → result ≡ (naming_row (state_of self.now) pointer new form).test }
    {
        match form {
            Naming::Places { len, ds, place } => {
                self.is_new_span(pointer, len, ds, place)
                    && self.zeros(first_word(place) + 1, words_for(len) as usize)
            }
            Naming::Retires => true,
            Naming::Evicts { .. } => self.is_quiet(pointer),
            Naming::Stays => true,
            Naming::Moves { len, ds, from, to } => self.may_move(pointer, len, ds, from, to),
            Naming::Fetches { len, ds, place } => self.may_fetch(rows, pointer, len, ds, place),
        }
    }

    /// Makes a legal naming of the pointer's cell, which is the old word. What it does shows in the new one: an object comes to
    /// a place, where a span begins already if it stays there or was copied there; or it leaves its place.
    #[inline(always)]
    fn make_naming(&mut self, pointer: u16, old: u64, new: u64)
        requires law { Law (state_of self.old) }
        requires legal { is_legal (state_of self.old) (Event.Name pointer old new) ≡ true }
        requires cell { (state_of self.old).cell pointer ≡ old }
        ensures { state_of self.new ≡ after_naming (state_of self.old) pointer new (naming_of (read_of old) (read_of new)) }
    {
        match resting_place(new) {
            Some(place) => {
                if self.starts(first_word(place)) {
                    self.name_placed(pointer, old, new, place);
                } else {
                    self.take(pointer, new, pointer_len(new), place);
                }
            }
            None => self.name_away(pointer, old, new),
        }
    }

    /// Makes a legal naming to a place where a span begins already: the object stays there, or a job has copied it there.
    #[inline(always)]
    fn name_placed(&mut self, pointer: u16, old: u64, new: u64, place: Place)
        requires law { Law (state_of self.old) }
        requires legal { is_legal (state_of self.old) (Event.Name pointer old new) ≡ true }
        requires cell { (state_of self.old).cell pointer ≡ old }
        requires near { (v : PtrWord) → read_of new ≡ Some v → Some place ≡ view_place v }
        requires begun { (state_of self.old).starts (addr place) ≡ true }
        ensures { state_of self.new ≡ after_naming (state_of self.old) pointer new (naming_of (read_of old) (read_of new)) }
    {
        let PtrWord::Near { place: from, .. } = PtrWord::known(old) else {
            unreachable!()
        };
        let job = self.copied_job(pointer, from, place);
        self.set_cell(pointer, new);
        if let Some(job) = job {
            self.set_job_named(job, true);
        }
    }

    /// Makes a legal naming by which an object has no place from then on: its cell is free, or it goes far.
    #[inline(always)]
    fn name_away(&mut self, pointer: u16, old: u64, new: u64)
        requires law { Law (state_of self.old) }
        requires legal { is_legal (state_of self.old) (Event.Name pointer old new) ≡ true }
        requires cell { (state_of self.old).cell pointer ≡ old }
        requires away { (v : PtrWord) → read_of new ≡ Some v → view_place v ≡ None }
        ensures { state_of self.new ≡ after_naming (state_of self.old) pointer new (naming_of (read_of old) (read_of new)) }
    {
        if new == 0 {
            self.set_cell(pointer, new);
            return;
        }
        let PtrWord::Near { len, place, .. } = PtrWord::known(old) else {
            unreachable!()
        };
        self.evict(pointer, new, len, place);
    }

    /// Rows of stored words, where they are kept, become what they are after a legal naming.
    #[inline(always)]
    pub fn store_named(&self, rows: &mut Option<StoredRows>, pointer: u16, old: u64, new: u64)
        requires law { Law (state_of self.now) }
        requires legal { is_legal (state_of self.now) (Event.Name pointer old new) ≡ true }
        requires rows { ForSome rows.old (λ rows. RowsAre (CELLS * (state_of self.now).mutators) (state_of self.now).stored rows) }
        ensures kept { is_some rows.new ≡ is_some rows.old }
        ensures rows { ForSome rows.new (λ rows. RowsAre (CELLS * (state_of self.now).mutators) (next_state (state_of self.now) (Event.Name pointer old new)).stored rows) }
    {
        if let Some(rows) = rows {
            self.store_leaving(rows, pointer, old, new);
        }
    }

    /// Rows of stored words get those of an object that a legal naming sends far.
    fn store_leaving(&self, rows: &mut StoredRows, pointer: u16, old: u64, new: u64)
        requires law { Law (state_of self.now) }
        requires legal { is_legal (state_of self.now) (Event.Name pointer old new) ≡ true }
        requires rows { RowsAre (CELLS * (state_of self.now).mutators) (state_of self.now).stored rows.old }
        ensures { RowsAre (CELLS * (state_of self.now).mutators) (next_state (state_of self.now) (Event.Name pointer old new)).stored rows.new }
    {
        if self.cell_at(pointer) != old {
            return;
        }
        match resting_place(new) {
            Some(_) => {}
            None => self.store_gone(rows, pointer, old, new),
        }
    }

    /// The same, where the naming leaves the object no place.
    fn store_gone(&self, rows: &mut StoredRows, pointer: u16, old: u64, new: u64)
        requires law { Law (state_of self.now) }
        requires legal { is_legal (state_of self.now) (Event.Name pointer old new) ≡ true }
        requires cell { (state_of self.now).cell pointer ≡ old }
        requires away { (v : PtrWord) → read_of new ≡ Some v → view_place v ≡ None }
        requires rows { RowsAre (CELLS * (state_of self.now).mutators) (state_of self.now).stored rows.old }
        ensures { RowsAre (CELLS * (state_of self.now).mutators) (after_naming (state_of self.now) pointer new (naming_of (read_of old) (read_of new))).stored rows.new }
    {
        if new == 0 {
            return;
        }
        let PtrWord::Near { len, place, .. } = PtrWord::known(old) else {
            unreachable!()
        };
        self.store_in(rows, pointer, len, place);
    }

    /// Rows of stored words get those of an object.
    fn store_in(&self, rows: &mut StoredRows, pointer: u16, len: u16, place: Place)
        requires pointer { pointer < CELLS * (state_of self.now).mutators }
        requires law { Law (state_of self.now) }
        requires near { IsAt (state_of self.now) pointer len place }
        requires rows { RowsAre (CELLS * (state_of self.now).mutators) (state_of self.now).stored rows.old }
        ensures { RowsAre (CELLS * (state_of self.now).mutators) (put (state_of self.now).stored pointer (with_kept (state_of self.now).word (state_of self.now).stored pointer (addr place + 1) (words_for len))) rows.new }
    {
        let from = first_word(place) + 1;
        self.put_in(rows, pointer, from, words_for(len));
    }

    /// Rows of stored words get the words from one on.
    #[tactic(auto, unfolding(crate::specs::state::Memory::state_of))]
    fn put_in(&self, rows: &mut StoredRows, pointer: u16, from: usize, count: u16)
        requires pointer { pointer < CELLS * (state_of self.now).mutators }
        requires row { count ≤ LOG_WORDS }
        requires inside { from + count ≤ LOG_WORDS * (state_of self.now).logs }
        requires rows { RowsAre (CELLS * (state_of self.now).mutators) (state_of self.now).stored rows.old }
        ensures { RowsAre (CELLS * (state_of self.now).mutators) (put (state_of self.now).stored pointer (with_kept (state_of self.now).word (state_of self.now).stored pointer from count)) rows.new }
    {
        let bytes = &self.words.bytes[8 * from..8 * (from + count as usize)];
        rows.store_bytes(pointer, count, bytes);
    }

    /// Stores an object's words, and names it far.
    #[inline(always)]
    fn evict(&mut self, pointer: u16, new: u64, len: u16, place: Place)
        requires pointer { pointer < CELLS * (state_of self.old).mutators }
        requires law { Law (state_of self.old) }
        requires near { IsAt (state_of self.old) pointer len place }
        ensures { state_of self.new ≡ (evicts_row (state_of self.old) pointer new len place).after }
    {
        self.store_object(pointer, len, place);
        self.set_cell(pointer, new);
    }

    /// Stores an object's words. Those of one that wasn't written since it came from an honest far side are stored already.
    #[inline(always)]
    fn store_object(&mut self, pointer: u16, len: u16, place: Place)
        requires pointer { pointer < CELLS * (state_of self.old).mutators }
        requires law { Law (state_of self.old) }
        requires near { IsAt (state_of self.old) pointer len place }
        ensures { state_of self.new ≡ record (state_of self.old) { stored = put (state_of self.old).stored pointer (with_kept (state_of self.old).word (state_of self.old).stored pointer (addr place + 1) (words_for len)) } }
    {
        let PtrWord::Near { marks, .. } = PtrWord::known(self.cell_at(pointer)) else {
            unreachable!()
        };
        if self.is_honest() && !marks.dirty {
            return;
        }
        self.store_away(pointer, first_word(place) + 1, words_for(len));
    }

    pub(crate) fn may_clear(&self, pointer: u16) -> bool
        requires { Law (state_of self.now) }
        ensures { result ≡ is_legal (state_of self.now) (Event.Clear pointer) }
    {
        self.has_pointer(pointer) && is_near(self.cell_at(pointer))
    }

    pub fn clear(&mut self, pointer: u16) -> u64
        requires law { Law (state_of self.old) }
        requires pointer { pointer < CELLS * (state_of self.old).mutators }
        ensures state { state_of self.new ≡ next_state (state_of self.old) (Event.Clear pointer) }
        ensures word { answer (state_of self.old) (Event.Clear pointer) ≡ Reply.Word result }
    {
        let old = self.cell_at(pointer);
        self.set_cell(pointer, old & !Mark::Evac.mask());
        if let PtrWord::Near { place, .. } = PtrWord::known(old) {
            self.leave_round(place.log);
        }
        old
    }

    pub(crate) fn may_mark(&self, pointer: u16) -> bool
        requires { Law (state_of self.now) }
        ensures { result ≡ is_legal (state_of self.now) (Event.Mark pointer) }
    {
        self.has_pointer(pointer) && self.is_sealed_near(self.cell_at(pointer))
    }

    pub fn mark(&mut self, pointer: u16) -> u64
        requires { pointer < CELLS * (state_of self.old).mutators }
        ensures state { state_of self.new ≡ next_state (state_of self.old) (Event.Mark pointer) }
        ensures word { answer (state_of self.old) (Event.Mark pointer) ≡ Reply.Word result }
    {
        let old = self.cell_at(pointer);
        self.set_cell(pointer, old | Mark::Evac.mask());
        old
    }

    /// Whether a cell is near in a sealed log.
    fn is_sealed_near(&self, cell: u64) -> bool
        requires { IsSome (read_of cell) }
        ensures { result ≡ may_mark (state_of self.now) (read_of cell) }
    {
        match PtrWord::known(cell) {
            PtrWord::Near { place, .. } => {
                self.has_log(place.log) && is_sealed(self.kind(place.log))
            }
            PtrWord::Free | PtrWord::Far { .. } => false,
        }
    }

    /// Takes the span at a new place: it ends its log, and its log is the open one.
    pub(crate) fn take(&mut self, pointer: u16, new: u64, len: u16, place: Place)
        requires pointer { pointer < CELLS * (state_of self.old).mutators }
        requires log { place.log < (state_of self.old).logs }
        requires fits { place.at + size_of len ≤ LOG_WORDS }
        requires open { (state_of self.old).kind (state_of self.old).current ≡ Kind.Open }
        ensures { state_of self.new ≡ with_span (state_of self.old) pointer new len place }
    {
        self.set_cell(pointer, new);
        self.begin(len, place);
    }

    /// Begins a span at a new place: it ends its log, and its log is the open one. No pointer names it yet.
    pub(crate) fn begin(&mut self, len: u16, place: Place)
        requires log { place.log < (state_of self.old).logs }
        requires fits { place.at + size_of len ≤ LOG_WORDS }
        requires open { (state_of self.old).kind (state_of self.old).current ≡ Kind.Open }
        ensures { state_of self.new ≡ with_begun (state_of self.old) len place }
    {
        self.begin_span(first_word(place));
        self.set_tail(place.log, place.at + size_of(len));
        self.open_log(place.log);
    }

    /// A log is the open one; the one that was open is sealed, if it is another.
    fn open_log(&mut self, log: u8)
        requires log { log < (state_of self.old).logs }
        requires open { (state_of self.old).kind (state_of self.old).current ≡ Kind.Open }
        ensures { state_of self.new ≡ record (state_of self.old) { kind = put (put (state_of self.old).kind (state_of self.old).current Kind.Sealed) log Kind.Open; current = log } }
    {
        if log == self.current() {
            return;
        }
        self.set_kind(self.current(), Kind::Sealed);
        self.set_kind(log, Kind::Open);
        self.set_current(log);
    }

    /// Whether a header for the pointer is written where the next span of a log may stand.
    pub(crate) fn is_new_span(&self, pointer: u16, len: u16, ds: u8, place: Place) -> bool
        requires layout { IsPtr (PtrWord.Near len ds place no_marks) }
        requires pointer { pointer < CELLS * (state_of self.now).mutators }
        requires law { Law (state_of self.now) }
        ensures { result ≡ is_new_span (state_of self.now) pointer len ds place }
    {
        let header = HeadWord { pointer, len, ds };
        self.has_log(place.log)
            && goes_at(self.kind(place.log), place.at, self.tail(place.log))
            && self.word(first_word(place)) == header.pack()
    }
}

/// Whether a new span may stand there: at the end of the open log, or at the start of a free one.
fn goes_at(kind: Kind, at: u16, tail: u16) -> bool
    ensures { result ≡ goes_at kind at tail }
{
    match kind {
        Kind::Free => at == 0,
        Kind::Open => at == tail,
        Kind::Sealed => false,
    }
}

/// Whether a cell is near.
fn is_near(cell: u64) -> bool
    requires { IsSome (read_of cell) }
    ensures { result ≡ is_near (read_of cell) }
{
    matches!(PtrWord::known(cell), PtrWord::Near { .. })
}

/// The pointer that a header names.
fn pointer_in(word: u64) -> u16
    requires { IsSome (head_of word) }
    ensures { result ≡ pointer_in (head_of word) }
{
    HeadWord::known(word).pointer
}

/// Whether a cell names a place.
pub fn names_place(cell: u64, log: u8, at: u16) -> bool
    requires { IsSome (read_of cell) }
    ensures { result ≡ names_place (read_of cell) log at }
{
    match PtrWord::known(cell) {
        PtrWord::Near { place, .. } => place.log == log && place.at == at,
        PtrWord::Free | PtrWord::Far { .. } => false,
    }
}

/// The job that a word says.
fn job_in(word: u64) -> Option<Job>
    ensures { result ≡ job_said (job_of word) }
{
    match JobWord::read(word) {
        None | Some(JobWord::Empty) => None,
        Some(
            JobWord::Offered { job } | JobWord::Taken { job, .. } | JobWord::Finished { job, .. },
        ) => Some(job),
    }
}

/// Whether a job reads or writes a log.
fn is_copied_at(log: u8, job: Option<Job>) -> bool
    ensures { result ≡ is_copied_at log job }
{
    match job {
        None => false,
        Some(job) => job.from.log == log || job.to.log == log,
    }
}

/// Whether a log takes no more spans.
pub(crate) fn is_sealed(kind: Kind) -> bool
    ensures { result ≡ is_sealed kind }
{
    match kind {
        Kind::Free | Kind::Open => false,
        Kind::Sealed => true,
    }
}

/// Whether a word lies past the tail of a log that isn't sealed.
fn is_past(kind: Kind, at: u16, tail: u16) -> bool
    ensures { result ≡ is_past kind at tail }
{
    match kind {
        Kind::Free | Kind::Open => tail <= at,
        Kind::Sealed => false,
    }
}
