//! What is kept between two reads.

ghost use Rattle.std.specs.Prelude.{◌≡◌, [], IfOk};

use std::alloc::{AllocError, Global};

/// Bytes of a line whose end hasn't come, in all the room that they may take; what is to be written; and how many lines came.
#[derive(Drop)]
pub struct Midst {
    pub part: Vec<u8>,
    pub out: Vec<u8>,
    pub count: u64,
}

impl Midst {
    /// Nothing, with room for a line of `longest` bytes, and for what that and `read` bytes more come to.
    pub fn new(alloc: Global, longest: usize, read: usize) -> Result<Midst, AllocError>
        ensures part { IfOk result (λ m. m.part.items ≡ []) }
        ensures out { IfOk result (λ m. m.out.items ≡ []) }
        ensures count { IfOk result (λ m. m.count ≡ 0) }
    {
        let part = Vec::with_capacity(alloc, longest)?;
        let out = Vec::with_capacity(alloc, longest.saturating_add(read).saturating_add(1))?;
        Ok(Midst {
            part,
            out,
            count: 0,
        })
    }
}
