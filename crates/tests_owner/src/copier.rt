//! A copier's seat, with what its calls ask of the view.

ghost use Rattle.std.specs.Prelude.{◌≡◌, None};
ghost use Rattle.tests_owner.specs.Works.{IsIdle, IsMine};

use far_device::Device;
use far_table::{CopySeat, Job};
use std::mem;

/// What a copier did.
#[derive(Clone, Copy, Debug, PartialEq, Eq)]
pub enum Went {
    /// It has no job, and found none that it could claim.
    Nowhere,
    Claimed,
    Copied,
    Finished,
}

/// A copier's seat, and the job that it has.
#[derive(Drop)]
pub struct Copier<D: Device> {
    seat: CopySeat<D>,
    job: Option<Job>,
    ghost idle: { IsIdle seat.view job },
    ghost mine: { IsMine seat.view job },
}

impl<D: Device> Copier<D> {
    /// The copier of a seat that has no job.
    pub(crate) fn new(seat: CopySeat<D>) -> Copier<D>
        requires { seat.view.task ≡ None }
    {
        Copier { seat, job: None }
    }

    /// Goes on by one call: it claims a job if it has none; else it copies the next word of its job, or finishes the job if none is left.
    pub fn goes_on(&mut self) -> Went {
        let Copier { seat, job } = self;
        match mem::replace(job, None) {
            None => {
                *job = seat.claim();
                if job.is_some() {
                    Went::Claimed
                } else {
                    Went::Nowhere
                }
            }
            Some(mut at_hand) => {
                if seat.copy_word(&mut at_hand) {
                    *job = Some(at_hand);
                    Went::Copied
                } else {
                    seat.finish(at_hand);
                    Went::Finished
                }
            }
        }
    }
}
