// Rows of words of an object that an owner's seat holds, where the table is looked up once.
ghost use Rattle.std.specs.Prelude.{◌≡◌, ◌+◌, ◌*◌, ◌/◌, ◌%◌, ◌<◌, ◌≤◌, ℕ, length};
ghost use Rattle.far_table.specs.SeatRows.{HoldsRow, RowLoaded, RowStored, SoiledRow};
ghost use Rattle.far_table.specs.Tells.{owner_of};
ghost use Rattle.far_table.specs.View.{OwnerView};

use crate::rule::{FarRule, Plan};
use crate::view::View;
use crate::{layout, rule};
use atomic_table::{Seat, Shared};
use byteorder::{ByteOrder, LittleEndian};
use far_device::Device;

// Loads so many words of a row behind those that are loaded: they stand from this address on.
#[inline(always)]
fn load_some<D: Device>(
    shared: &Shared<u64, View, Plan<D>, FarRule>,
    seat: &mut Seat<u64, View>,
    p: u16,
    first: usize,
    start: usize,
    done: usize,
    count: usize,
    out: &mut [u8],
)
    requires row { HoldsRow seat.old.table_id shared.now.table_id seat.old.me.0 p start (first + done) (8 * count) }
    requires room { 8 * (done + count) ≤ length out.old }
    requires loaded { RowLoaded p first done out.old (owner_of seat.old.me.0) }
    ensures table { seat.new.table_id ≡ seat.old.table_id }
    ensures view { seat.new.me.0 ≡ seat.old.me.0 }
    ensures loaded { RowLoaded p first (done + count) out.new (owner_of seat.new.me.0) }
{
    for i in 0..count {
        let at = start + i + layout::LOGS;
        let word = shared.load::<rule::Load>(seat, at);
        LittleEndian::write_u64(&mut out[8 * (done + i)..], word);
    }
}

// Loads a block of so many words by halves, if so many are left: how many words are loaded then. The remainder changes no address; with it the compiler
// has one address for a block.
#[inline(always)]
fn load_rung<D: Device>(
    shared: &Shared<u64, View, Plan<D>, FarRule>,
    seat: &mut Seat<u64, View>,
    p: u16,
    first: usize,
    begin: usize,
    done: usize,
    left: usize,
    size: usize,
    out: &mut [u8],
) -> usize
    requires row { HoldsRow seat.old.table_id shared.now.table_id seat.old.me.0 p begin first (length out.old) }
    requires size { (0 < size) × (size ≤ 32) × (size % 2 ≡ 0) × (left < 2 * size) }
    requires room { 8 * (done + left) ≤ length out.old }
    requires loaded { RowLoaded p first done out.old (owner_of seat.old.me.0) }
    ensures table { seat.new.table_id ≡ seat.old.table_id }
    ensures view { seat.new.me.0 ≡ seat.old.me.0 }
    ensures sum { result + left % size ≡ done + left }
    ensures loaded { RowLoaded p first result out.new (owner_of seat.new.me.0) }
{
    if left < size {
        return done;
    }
    let half = size / 2;
    let start = (begin + done) % layout::WORDS_OF_LOGS;
    load_some::<D>(shared, seat, p, first, start, done, half, out);
    let past = start + half;
    let later = done + half;
    load_some::<D>(shared, seat, p, first, past, later, half, out);
    later + half
}

// Loads a row of many words. This function isn't inlined, so that the load of few words can be.
#[inline(never)]
fn load_long<D: Device>(
    shared: &Shared<u64, View, Plan<D>, FarRule>,
    seat: &mut Seat<u64, View>,
    p: u16,
    first: usize,
    begin: usize,
    out: &mut [u8],
)
    requires row { HoldsRow seat.old.table_id shared.now.table_id seat.old.me.0 p begin first (length out.old) }
    ensures table { seat.new.table_id ≡ seat.old.table_id }
    ensures view { seat.new.me.0 ≡ seat.old.me.0 }
    ensures loaded { RowLoaded p first (length out.old / 8) out.new (owner_of seat.new.me.0) }
{
    let words = out.len() / 8;
    let most = words - words % 32;
    let mut done = 0;
    while done < most {
        done = load_rung::<D>(shared, seat, p, first, begin, done, 32, 32, out);
    }
    let low = load_rung::<D>(shared, seat, p, first, begin, most, words % 32, 16, out);
    let mid = load_rung::<D>(shared, seat, p, first, begin, low, words % 16, 8, out);
    let high = load_rung::<D>(shared, seat, p, first, begin, mid, words % 8, 4, out);
    let start = begin + high;
    load_some::<D>(shared, seat, p, first, start, high, words % 4, out);
}

// Loads a row of words, which begins at this address.
#[inline(always)]
pub(crate) fn load_row<D: Device>(
    shared: &Shared<u64, View, Plan<D>, FarRule>,
    seat: &mut Seat<u64, View>,
    p: u16,
    first: usize,
    begin: usize,
    out: &mut [u8],
)
    requires row { HoldsRow seat.old.table_id shared.now.table_id seat.old.me.0 p begin first (length out.old) }
    ensures table { seat.new.table_id ≡ seat.old.table_id }
    ensures view { seat.new.me.0 ≡ seat.old.me.0 }
    ensures loaded { RowLoaded p first (length out.old / 8) out.new (owner_of seat.new.me.0) }
{
    if out.len() < 64 {
        let count = out.len() / 8;
        load_some::<D>(shared, seat, p, first, begin, 0, count, out);
    } else {
        load_long::<D>(shared, seat, p, first, begin, out);
    }
}

// Stores so many words of a row behind those that are stored: they stand from this address on.
#[inline(always)]
fn store_some<D: Device>(
    shared: &Shared<u64, View, Plan<D>, FarRule>,
    seat: &mut Seat<u64, View>,
    p: u16,
    first: usize,
    start: usize,
    done: usize,
    count: usize,
    bytes: &[u8],
)
    requires row { SoiledRow seat.old.table_id shared.now.table_id seat.old.me.0 p start (first + done) (8 * count) }
    requires room { 8 * (done + count) ≤ length bytes.now }
    ensures rows { (begin at n : ℕ) → SoiledRow seat.old.table_id shared.now.table_id seat.old.me.0 p begin at n → SoiledRow seat.new.table_id shared.now.table_id seat.new.me.0 p begin at n }
    ensures stored { (o : OwnerView) → RowStored p first done bytes.now o (owner_of seat.old.me.0) → RowStored p first (done + count) bytes.now o (owner_of seat.new.me.0) }
{
    for i in 0..count {
        let at = start + i + layout::LOGS;
        let word = LittleEndian::read_u64(&bytes[8 * (done + i)..]);
        shared.store::<rule::Store>(seat, at, word);
    }
}

// Stores a block of so many words, if so many are left, as it is loaded.
#[inline(always)]
fn store_rung<D: Device>(
    shared: &Shared<u64, View, Plan<D>, FarRule>,
    seat: &mut Seat<u64, View>,
    p: u16,
    first: usize,
    begin: usize,
    done: usize,
    left: usize,
    size: usize,
    bytes: &[u8],
) -> usize
    requires row { SoiledRow seat.old.table_id shared.now.table_id seat.old.me.0 p begin first (length bytes.now) }
    requires size { (0 < size) × (size ≤ 32) × (size % 2 ≡ 0) × (left < 2 * size) }
    requires room { 8 * (done + left) ≤ length bytes.now }
    ensures row { SoiledRow seat.new.table_id shared.now.table_id seat.new.me.0 p begin first (length bytes.now) }
    ensures sum { result + left % size ≡ done + left }
    ensures stored { (o : OwnerView) → RowStored p first done bytes.now o (owner_of seat.old.me.0) → RowStored p first result bytes.now o (owner_of seat.new.me.0) }
{
    if left < size {
        return done;
    }
    let half = size / 2;
    let start = (begin + done) % layout::WORDS_OF_LOGS;
    store_some::<D>(shared, seat, p, first, start, done, half, bytes);
    let past = start + half;
    let later = done + half;
    store_some::<D>(shared, seat, p, first, past, later, half, bytes);
    later + half
}

// Stores a row of many words.
#[inline(never)]
fn store_long<D: Device>(
    shared: &Shared<u64, View, Plan<D>, FarRule>,
    seat: &mut Seat<u64, View>,
    p: u16,
    first: usize,
    begin: usize,
    bytes: &[u8],
)
    requires row { SoiledRow seat.old.table_id shared.now.table_id seat.old.me.0 p begin first (length bytes.now) }
    ensures row { SoiledRow seat.new.table_id shared.now.table_id seat.new.me.0 p begin first (length bytes.now) }
    ensures stored { RowStored p first (length bytes.now / 8) bytes.now (owner_of seat.old.me.0) (owner_of seat.new.me.0) }
{
    let words = bytes.len() / 8;
    let most = words - words % 32;
    let mut done = 0;
    while done < most {
        done = store_rung::<D>(shared, seat, p, first, begin, done, 32, 32, bytes);
    }
    let low = store_rung::<D>(shared, seat, p, first, begin, most, words % 32, 16, bytes);
    let mid = store_rung::<D>(shared, seat, p, first, begin, low, words % 16, 8, bytes);
    let high = store_rung::<D>(shared, seat, p, first, begin, mid, words % 8, 4, bytes);
    let start = begin + high;
    store_some::<D>(shared, seat, p, first, start, high, words % 4, bytes);
}

// Stores a row of words, which begins at this address.
#[inline(always)]
pub(crate) fn store_row<D: Device>(
    shared: &Shared<u64, View, Plan<D>, FarRule>,
    seat: &mut Seat<u64, View>,
    p: u16,
    first: usize,
    begin: usize,
    bytes: &[u8],
)
    requires row { SoiledRow seat.old.table_id shared.now.table_id seat.old.me.0 p begin first (length bytes.now) }
    ensures row { SoiledRow seat.new.table_id shared.now.table_id seat.new.me.0 p begin first (length bytes.now) }
    ensures stored { RowStored p first (length bytes.now / 8) bytes.now (owner_of seat.old.me.0) (owner_of seat.new.me.0) }
{
    if bytes.len() < 64 {
        let count = bytes.len() / 8;
        store_some::<D>(shared, seat, p, first, begin, 0, count, bytes);
    } else {
        store_long::<D>(shared, seat, p, first, begin, bytes);
    }
}
