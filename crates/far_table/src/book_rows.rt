// Rows of words that the book's seat reads, writes or copies, where the table is looked up once.
ghost use Rattle.std.specs.Prelude.{◌≡◌, ◌+◌, ◌*◌, ◌≤◌, ℕ, length, drop};
ghost use Rattle.atomic_table.specs.declared.shared.Seat.{Seat as any_seat};
ghost use Rattle.far_word.specs.declared.sizes.TheConstants.{LOG_WORDS};
ghost use Rattle.far_word.specs.Bytes.{packed_word};
ghost use Rattle.far_hand.specs.Ranges.{CopiesRow, HasRead, IsPast, IsWithin, ReadsWord, WritesRow, WritesWord};
ghost use Rattle.far_table.specs.BookRows.{InPart, IsPart, Leads, part_view};
ghost use Rattle.far_table.specs.View.{View as any_view};

use crate::rule::{FarRule, Plan};
use crate::view::View;
use crate::{layout, rule};
use atomic_table::{Seat, Shared};
use far_device::Device;
use far_hand::{packed_whole, unpack_word};
use far_word::{LOG_WORDS, Place};

// Reads a word of a log, which stands at this address: the contract alone names log and place.
#[inline(always)]
fn get_at<D: Device>(
    shared: &Shared<u64, View, Plan<D>, FarRule>,
    seat: &mut Seat<u64, View>,
    log: u8,
    at: u16,
    address: usize,
) -> u64
    requires part { IsPart shared.now.table_id seat.old }
    requires within { IsWithin (part_view seat.old) log at 1 }
    requires address { address ≡ log * LOG_WORDS + at }
    ensures { InPart shared.now.table_id seat.old (λ makes. ReadsWord ⊥ part_view makes log at result seat.old seat.new) }
{
    let _place = (log, at);
    shared.load::<rule::Get>(seat, address + layout::LOGS)
}

// Writes a word of a log, which stands at this address, likewise.
#[inline(always)]
fn put_at<D: Device>(
    shared: &Shared<u64, View, Plan<D>, FarRule>,
    seat: &mut Seat<u64, View>,
    log: u8,
    at: u16,
    address: usize,
    word: u64,
)
    requires part { IsPart shared.now.table_id seat.old }
    requires past { IsPast (part_view seat.old) log at 1 }
    requires address { address ≡ log * LOG_WORDS + at }
    ensures { InPart shared.now.table_id seat.old (λ makes. WritesWord ⊥ part_view makes log at word seat.old seat.new) }
{
    let _place = (log, at);
    shared.store::<rule::Put>(seat, address + layout::LOGS, word);
}

// Copies so many data words, those from `first` on.
#[inline(always)]
fn copy_some<D: Device>(
    shared: &Shared<u64, View, Plan<D>, FarRule>,
    seat: &mut Seat<u64, View>,
    from: Place,
    to: Place,
    source: usize,
    target: usize,
    first: u16,
    count: u16,
)
    requires part { IsPart shared.now.table_id seat.old }
    requires from { IsWithin (part_view seat.old) from.log (from.at + 1 + first) count }
    requires to { IsPast (part_view seat.old) to.log (to.at + 1 + first) count }
    requires source { source ≡ from.log * LOG_WORDS + (from.at + 1 + first) }
    requires target { target ≡ to.log * LOG_WORDS + (to.at + 1 + first) }
    ensures { InPart shared.now.table_id seat.old (λ makes. CopiesRow ⊥ part_view makes from to first count seat.old seat.new) }
{
    for i in 0..count {
        let at = first + i;
        let word = get_at::<D>(
            shared,
            seat,
            from.log,
            from.at + 1 + at,
            source + i as usize,
        );
        put_at::<D>(
            shared,
            seat,
            to.log,
            to.at + 1 + at,
            target + i as usize,
            word,
        );
    }
}

// Copies the first so many data words: by eight, since the compiler unrolls a loop of eight, and then the rest. The remainder changes no address; with it
// the compiler has one address for eight words.
pub(crate) fn copy_all<D: Device>(
    shared: &Shared<u64, View, Plan<D>, FarRule>,
    seat: &mut Seat<u64, View>,
    from: Place,
    to: Place,
    count: u16,
)
    requires part { IsPart shared.now.table_id seat.old }
    requires from { IsWithin (part_view seat.old) from.log (from.at + 1) count }
    requires to { IsPast (part_view seat.old) to.log (to.at + 1) count }
    ensures { InPart shared.now.table_id seat.old (λ makes. CopiesRow ⊥ part_view makes from to 0 count seat.old seat.new) }
{
    let source = from.log as usize * LOG_WORDS as usize + from.at as usize + 1;
    let target = to.log as usize * LOG_WORDS as usize + to.at as usize + 1;
    let eights = count / 8;
    for i in 0..eights {
        let first = 8 * i as usize;
        let read = (source + first) % layout::WORDS_OF_LOGS;
        let written = (target + first) % layout::WORDS_OF_LOGS;
        copy_some::<D>(shared, seat, from, to, read, written, 8 * i, 8);
    }
    let first = 8 * eights;
    copy_some::<D>(
        shared,
        seat,
        from,
        to,
        source + first as usize,
        target + first as usize,
        first,
        count - first,
    );
}

// Reads so many words of a log, those from `first` on behind `at`, to the bytes of a row from there on.
#[inline(always)]
fn get_some<D: Device>(
    shared: &Shared<u64, View, Plan<D>, FarRule>,
    seat: &mut Seat<u64, View>,
    log: u8,
    at: u16,
    start: usize,
    first: u16,
    count: u16,
    row: &mut [u8],
)
    requires part { IsPart shared.now.table_id seat.old }
    requires within { IsWithin (part_view seat.old) log (at + first) count }
    requires start { start ≡ log * LOG_WORDS + (at + first) }
    requires room { 8 * (first + count) ≤ length row.old }
    ensures words { InPart shared.now.table_id seat.old (λ makes. (s : any_seat ℕ any_view) → HasRead ⊥ part_view makes log at s seat.old first row.old → HasRead ⊥ part_view makes log at s seat.new (first + count) row.new) }
    ensures leads { Leads shared.now.table_id seat.old seat.new }
    ensures behind { drop (8 * (first + count)) row.new ≡ drop (8 * (first + count)) row.old }
    ensures length { length row.new ≡ length row.old }
{
    for i in 0..count {
        let word = get_at::<D>(shared, seat, log, at + (first + i), start + i as usize);
        unpack_word(row, (first + i) as usize, word);
    }
}

// Reads so many words of a log, those from `at` on: by eight, and then the rest.
pub(crate) fn get_all<D: Device>(
    shared: &Shared<u64, View, Plan<D>, FarRule>,
    seat: &mut Seat<u64, View>,
    log: u8,
    at: u16,
    count: u16,
    row: &mut [u8],
)
    requires part { IsPart shared.now.table_id seat.old }
    requires within { IsWithin (part_view seat.old) log at count }
    requires room { 8 * count ≤ length row.old }
    ensures words { InPart shared.now.table_id seat.old (λ makes. HasRead ⊥ part_view makes log at seat.old seat.new count row.new) }
    ensures behind { drop (8 * count) row.new ≡ drop (8 * count) row.old }
    ensures length { length row.new ≡ length row.old }
{
    let start = log as usize * LOG_WORDS as usize + at as usize;
    let eights = count / 8;
    for i in 0..eights {
        let begin = (start + 8 * i as usize) % layout::WORDS_OF_LOGS;
        get_some::<D>(shared, seat, log, at, begin, 8 * i, 8, row);
    }
    let first = 8 * eights;
    get_some::<D>(
        shared,
        seat,
        log,
        at,
        start + first as usize,
        first,
        count - first,
        row,
    );
}

// Writes so many words of a log, those from `first` on behind `at`: the words of the bytes of a row from there on.
#[inline(always)]
fn put_some<D: Device>(
    shared: &Shared<u64, View, Plan<D>, FarRule>,
    seat: &mut Seat<u64, View>,
    log: u8,
    at: u16,
    start: usize,
    first: u16,
    count: u16,
    bytes: &[u8],
)
    requires part { IsPart shared.now.table_id seat.old }
    requires past { IsPast (part_view seat.old) log (at + first) count }
    requires start { start ≡ log * LOG_WORDS + (at + first) }
    requires bytes { 8 * (first + count) ≤ length bytes.now }
    ensures { InPart shared.now.table_id seat.old (λ makes. WritesRow ⊥ part_view makes log at (packed_word bytes.now) first count seat.old seat.new) }
{
    for i in 0..count {
        let word = packed_whole(bytes, (first + i) as usize);
        put_at::<D>(
            shared,
            seat,
            log,
            at + (first + i),
            start + i as usize,
            word,
        );
    }
}

// Writes so many words of a log, those from `at` on: by eight, and then the rest.
pub(crate) fn put_all<D: Device>(
    shared: &Shared<u64, View, Plan<D>, FarRule>,
    seat: &mut Seat<u64, View>,
    log: u8,
    at: u16,
    bytes: &[u8],
    count: u16,
)
    requires part { IsPart shared.now.table_id seat.old }
    requires past { IsPast (part_view seat.old) log at count }
    requires bytes { 8 * count ≤ length bytes.now }
    ensures { InPart shared.now.table_id seat.old (λ makes. WritesRow ⊥ part_view makes log at (packed_word bytes.now) 0 count seat.old seat.new) }
{
    let start = log as usize * LOG_WORDS as usize + at as usize;
    let eights = count / 8;
    for i in 0..eights {
        let begin = (start + 8 * i as usize) % layout::WORDS_OF_LOGS;
        put_some::<D>(shared, seat, log, at, begin, 8 * i, 8, bytes);
    }
    let first = 8 * eights;
    put_some::<D>(
        shared,
        seat,
        log,
        at,
        start + first as usize,
        first,
        count - first,
        bytes,
    );
}

// Writes 0 to so many words of a log, those from `first` on behind `at`.
#[inline(always)]
fn zero_some<D: Device>(
    shared: &Shared<u64, View, Plan<D>, FarRule>,
    seat: &mut Seat<u64, View>,
    log: u8,
    at: u16,
    start: usize,
    first: u16,
    count: u16,
)
    requires part { IsPart shared.now.table_id seat.old }
    requires past { IsPast (part_view seat.old) log (at + first) count }
    requires start { start ≡ log * LOG_WORDS + (at + first) }
    ensures { InPart shared.now.table_id seat.old (λ makes. WritesRow ⊥ part_view makes log at (λ _. 0) first count seat.old seat.new) }
{
    for i in 0..count {
        put_at::<D>(shared, seat, log, at + (first + i), start + i as usize, 0);
    }
}

// Writes 0 to so many words of a log, those from `at` on: by eight, and then the rest.
pub(crate) fn zero_all<D: Device>(
    shared: &Shared<u64, View, Plan<D>, FarRule>,
    seat: &mut Seat<u64, View>,
    log: u8,
    at: u16,
    count: u16,
)
    requires part { IsPart shared.now.table_id seat.old }
    requires past { IsPast (part_view seat.old) log at count }
    ensures { InPart shared.now.table_id seat.old (λ makes. WritesRow ⊥ part_view makes log at (λ _. 0) 0 count seat.old seat.new) }
{
    let start = log as usize * LOG_WORDS as usize + at as usize;
    let eights = count / 8;
    for i in 0..eights {
        let begin = (start + 8 * i as usize) % layout::WORDS_OF_LOGS;
        zero_some::<D>(shared, seat, log, at, begin, 8 * i, 8);
    }
    let first = 8 * eights;
    zero_some::<D>(
        shared,
        seat,
        log,
        at,
        start + first as usize,
        first,
        count - first,
    );
}
