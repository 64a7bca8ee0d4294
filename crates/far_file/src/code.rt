//! A length and a slot in three bytes, since each key has them.

ghost use Rattle.std.specs.Prelude.{◌≡◌, ◌<◌, ◌≤◌, ◌^◌};
ghost use Rattle.far_file.specs.Code.{len_of, number_of, slot_of};
ghost use Rattle.far_file.specs.declared.place.TheConstants.{SLOTS};

/// How many lengths there are, with one that says that a key has no bytes.
const LENGTHS: u32 = 4098;

/// How many bytes a key has, or 4,097 for none, and which slot of those of the class for so many.
#[derive(Clone, Copy, Debug)]
pub(crate) struct Code {
    pub(crate) low: u8,
    pub(crate) middle: u8,
    pub(crate) high: u8,
}

impl Code {
    #[tactic(auto, unfolding(crate::specs::Code::len_of, crate::specs::Code::slot_of))]
    pub(crate) fn new(len: u16, slot: u16) -> Code
        requires len { len ≤ 4097 }
        requires slot { slot < SLOTS }
        ensures len { len_of result ≡ len }
        ensures slot { slot_of result ≡ slot }
    {
        let number = slot as u32 * LENGTHS + len as u32;
        Code {
            low: (number % 256) as u8,
            middle: (number / 256 % 256) as u8,
            high: (number / 65536) as u8,
        }
    }

    #[tactic(auto, unfolding(crate::specs::Code::len_of))]
    pub(crate) fn len(self) -> u16
        ensures { result ≡ len_of self }
    {
        (self.number() % LENGTHS) as u16
    }

    #[tactic(auto, unfolding(crate::specs::Code::slot_of))]
    pub(crate) fn slot(self) -> u16
        ensures { result ≡ slot_of self }
    {
        (self.number() / LENGTHS) as u16
    }

    fn number(self) -> u32
        ensures number { result ≡ number_of self }
        ensures below { result < 2 ^ 24 }
    {
        self.low as u32 + 256 * self.middle as u32 + 65536 * self.high as u32
    }
}
