//! Where slots are: of which class, on which page.

ghost use Rattle.std.specs.Prelude.{◌≡◌, ◌+◌, ◌*◌, ◌/◌, ◌%◌, ◌<◌, ◌≤◌, length};
ghost use Rattle.far_file.specs.Where.{class_in, page_in, within_page, scale};
ghost use Rattle.far_file.specs.declared.place.TheConstants.{CLASSES, KEYS, SLOTS, SLOT};

/// Only keys below this one have slots.
pub(crate) const KEYS: u32 = 2048;

/// How many bytes the largest slots have room for.
pub(crate) const SLOT: u64 = 4096;

/// There are slots of 64 bytes, of 128, and so on to 4,096.
pub(crate) const CLASSES: usize = 7;

/// A device has no more slots of a class. With one for each key, one is left for the next write.
pub(crate) const SLOTS: u32 = 2304;

/// The bytes of a page, which lies in one piece in the storage: an extent.
pub(crate) const EXTENT: u64 = 16384;

/// What is kept near grows by so many entries: not by as many as there are, most of which stay unused.
pub(crate) const STEP: usize = 64;

/// The class of the smallest slots with room for so many bytes.
pub(crate) fn class_of(len: usize) -> usize
    requires { len ≤ SLOT }
    ensures class { result ≡ class_in len }
    ensures below { result < CLASSES }
    ensures room { len ≤ 64 * scale result }
{
    if len > 2048 {
        6
    } else if len > 1024 {
        5
    } else if len > 512 {
        4
    } else if len > 256 {
        3
    } else if len > 128 {
        2
    } else if len > 64 {
        1
    } else {
        0
    }
}

/// How many times 64 bytes a slot of a class has.
fn scale_of(class: usize) -> u32
    requires { class < CLASSES }
    ensures scale { result ≡ scale class }
    ensures few { result ≤ 64 }
{
    match class {
        0 => 1,
        1 => 2,
        2 => 4,
        3 => 8,
        4 => 16,
        5 => 32,
        _ => 64,
    }
}

/// The page on which a slot is.
pub(crate) fn page_of(class: usize, slot: u16) -> u32
    requires class { class < CLASSES }
    requires slot { slot < SLOTS }
    ensures { result ≡ page_in class slot }
{
    scale_of(class) * (SLOTS + slot as u32) / 256
}

/// Where a slot begins on its page.
pub(crate) fn place_on_page(class: usize, slot: u16) -> u64
    requires class { class < CLASSES }
    requires slot { slot < SLOTS }
    ensures { result ≡ 64 * within_page class slot }
{
    64 * (scale_of(class) * (SLOTS + slot as u32) % 256) as u64
}
