//! Calls, each beside its answer and what is there after it.

use far_double::Double;
use far_objects::Objects;
use far_packed::Packed;
use far_word::Refused;
use std::alloc::Global;

/// A refusal is answered as its number and so much.
pub(crate) const REFUSED: usize = 1_000_000;

/// What is answered of the length of no value.
pub(crate) const NONE: usize = 2_000_000;

/// A call. What is put or written is so many bytes of one value.
#[derive(Clone, Copy)]
pub(crate) enum Call {
    Put(usize, u8),
    Zeros(usize),
    Read(u32, usize, usize),
    Write(u32, usize, usize, u8),
    Drop(u32),
    Len(u32),
}

/// A call, its answer (a number, a length or 0; or a refusal), the byte of which what was read is, and how many objects the worker has then.
pub(crate) type Row = (Call, usize, u8, usize);

/// Calls over such a worker: whether it is honest, for how many objects it has room, and which call of it is refused each time (0: none); and for
/// how many blocks there is room.
pub(crate) struct Scene {
    pub(crate) honest: bool,
    pub(crate) room: usize,
    pub(crate) every: u64,
    pub(crate) blocks: usize,
    pub(crate) rows: &'static [Row],
}

fn of(answer: Result<usize, Refused>) -> usize {
    match answer {
        Ok(n) => n,
        Err(why) => (why.number() as usize).saturating_add(REFUSED),
    }
}

fn number(answer: Result<u32, Refused>) -> usize {
    match answer {
        Ok(n) => n as usize,
        Err(why) => of(Err(why)),
    }
}

fn done(answer: Result<(), Refused>) -> usize {
    match answer {
        Ok(()) => 0,
        Err(why) => of(Err(why)),
    }
}

// So many bytes of one value, which is lent.
fn front(all: &mut [u8; 4100], count: usize, byte: u8) -> &mut [u8] {
    all.fill(byte);
    let count = count.min(all.len());
    &mut all[..count]
}

fn play(packed: &mut Packed<Double>, call: Call, all: &mut [u8; 4100]) -> usize {
    match call {
        Call::Put(len, byte) => number(packed.alloc(front(all, len, byte))),
        Call::Zeros(len) => number(packed.alloc_zeros(len)),
        Call::Read(h, from, count) => done(packed.read(h, from, front(all, count, 99))),
        Call::Write(h, from, count, byte) => done(packed.write(h, from, front(all, count, byte))),
        Call::Drop(h) => done(packed.drop_object(h)),
        Call::Len(h) => packed.len_of(h).unwrap_or(NONE),
    }
}

// Whether what was read is all of the row's byte.
fn is_all(call: Call, all: &[u8; 4100], byte: u8) -> bool {
    match call {
        Call::Read(_, _, count) => {
            let count = count.min(all.len());
            all[..count].iter().all(|b| *b == byte)
        }
        _ => true,
    }
}

// Which row was the last that was answered otherwise, from 1 on, and how many calls were refused memory, each of which is made once more.
fn played(alloc: Global, scene: &Scene) -> (usize, usize) {
    let worker = Double::new(alloc, scene.honest, scene.room, scene.every);
    let Ok(mut packed) = Packed::with_room(alloc, worker, scene.blocks) else {
        return (1, 1);
    };
    let mut all = [0u8; 4100];
    let mut wrong = 0usize;
    let mut refused = 0usize;
    for k in 0..scene.rows.len() {
        let row = &scene.rows[k];
        let mut answer = play(&mut packed, row.0, &mut all);
        if answer == REFUSED + 1 && row.1 != REFUSED + 1 {
            refused = refused.saturating_add(1);
            answer = play(&mut packed, row.0, &mut all);
        }
        let live = packed.worker().live();
        if answer != row.1 || !is_all(row.0, &all, row.2) || live != row.3 {
            wrong = k.saturating_add(1);
        }
    }
    (wrong, refused)
}

/// Which row was answered otherwise, from 1 on; 0: none. Where memory was refused all is played anew, and no call is refused it again: so a body
/// that answers so where it likes is found.
pub(crate) fn wrong(alloc: Global, scene: &Scene) -> usize {
    let (wrong, refused) = played(alloc, scene);
    if refused == 0 {
        return wrong;
    }
    let (wrong, refused) = played(alloc, scene);
    if refused == 0 { wrong } else { usize::MAX }
}
