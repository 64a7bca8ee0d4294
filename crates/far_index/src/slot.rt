//! A slot of the near index.

ghost use Rattle.std.specs.Prelude.{◌≡◌};
ghost use Rattle.far_index.specs.Slots.{slot_of, Fits};

/// A slot: empty, left, or with a tag of 48 bits and the number of an object.
#[derive(Clone, Copy, Debug)]
pub enum Slot {
    Empty,
    Gone,
    Full(u64, u32),
}

/// What a search for a tag meets in a slot: its end, another tag or none, or an entry with the tag, which has this number.
#[derive(Clone, Copy, Debug)]
pub enum Met {
    End,
    Other,
    Tag(u32),
}

/// A slot's word, and the rest of its tag.
pub fn pack(slot: Slot) -> (u64, u16)
    requires { Fits slot }
    ensures { slot_of result.0 result.1 ≡ slot }
{
    match slot {
        Slot::Empty => (0, 0),
        Slot::Gone => (1, 0),
        Slot::Full(tag, number) => (
            tag / 65_536 * 4_294_967_296 + number as u64,
            (tag % 65_536) as u16,
        ),
    }
}

/// The slot of a word and a rest.
pub fn unpack(word: u64, rest: u16) -> Slot
    ensures is { result ≡ slot_of word rest }
    ensures fits { Fits result }
{
    if word == 0 {
        return Slot::Empty;
    }
    if word < 4_294_967_296 {
        return Slot::Gone;
    }
    Slot::Full(
        word / 4_294_967_296 * 65_536 + rest as u64,
        (word % 4_294_967_296) as u32,
    )
}
