//! Calls of an array, each beside its answer and what is there after it.

use far_array::Array;
use far_double::Double;
use far_word::Refused;
use std::alloc::Global;

/// A record's bytes: two records a block.
const SIZE: usize = 1_500;

/// A call. What is pushed or set is so many bytes of one value.
#[derive(Clone, Copy)]
pub(crate) enum Call {
    Push(u8),
    Set(usize, u8),
    Get(usize),
    Swap(usize, usize),
    Pop,
    Truncate(usize),
    Clear,
}

/// A call, its refusal's number or 0, the byte of which the buffer is after it, and how many records and blocks there are then.
pub(crate) type Row = (Call, u8, u8, usize, usize);

/// Calls over such a far side: whether it is honest, for how many objects it has room, and which call of it is refused each time (0: none).
pub(crate) struct Scene {
    pub(crate) honest: bool,
    pub(crate) room: usize,
    pub(crate) every: u64,
    pub(crate) rows: &'static [Row],
}

fn number(answer: Result<(), Refused>) -> u8 {
    match answer {
        Ok(()) => 0,
        Err(why) => why.number(),
    }
}

// A call that gives bytes: to record i, or to a new one.
fn put(array: &mut Array<Double>, at: Option<usize>, byte: u8, out: &mut [u8]) -> u8 {
    out.fill(byte);
    match at {
        Some(i) => number(array.set(i, out)),
        None => number(array.push(out)),
    }
}

fn play(array: &mut Array<Double>, call: Call, out: &mut [u8]) -> u8 {
    match call {
        Call::Push(byte) => put(array, None, byte, out),
        Call::Set(i, byte) => put(array, Some(i), byte, out),
        Call::Get(i) => number(array.get(i, out)),
        Call::Swap(i, j) => number(array.swap(i, j)),
        Call::Pop => number(array.pop(out)),
        Call::Truncate(n) => {
            array.truncate(n);
            0
        }
        Call::Clear => {
            array.clear();
            0
        }
    }
}

// Whether what came is what the row says.
fn is_so(row: &Row, answer: u8, out: &[u8], array: &Array<Double>) -> bool {
    let bytes = out.first() == Some(&row.2) && out.last() == Some(&row.2);
    answer == row.1 && bytes && array.len() == row.3 && array.blocks() == row.4
}

// Which row was the last that was answered otherwise, from 1 on, and how many calls were refused memory, each of which is made once more.
fn played(alloc: Global, scene: &Scene) -> (usize, usize) {
    let worker = Double::new(alloc, scene.honest, scene.room, scene.every);
    let Ok(mut array) = Array::new(alloc, worker, SIZE) else {
        return (1, 0);
    };
    let mut out = [0u8; SIZE];
    let mut wrong = 0usize;
    let mut refused = 0usize;
    for k in 0..scene.rows.len() {
        let row = &scene.rows[k];
        let mut answer = play(&mut array, row.0, &mut out);
        if answer == 1 {
            refused = refused.saturating_add(1);
            answer = play(&mut array, row.0, &mut out);
        }
        if !is_so(row, answer, &out, &array) {
            wrong = k.saturating_add(1);
        }
    }
    (wrong, refused)
}

/// Which row was answered otherwise, from 1 on; 0: none. Where memory was refused all is played anew, and no call is refused it again: so a body that
/// answers so where it likes is found.
pub(crate) fn wrong(alloc: Global, scene: &Scene) -> usize {
    let (wrong, refused) = played(alloc, scene);
    if refused == 0 || wrong != 0 && scene.every == 0 {
        return wrong;
    }
    let (wrong, refused) = played(alloc, scene);
    if refused == 0 { wrong } else { usize::MAX }
}
