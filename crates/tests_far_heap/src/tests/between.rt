//! When the lock is let go, as another thread sees it that keeps taking it, and copies what is offered: between two turns of a round; not between bringing an
//! object and its pin.

use crate::tests::acts::Act::*;
use crate::tests::acts::Choice::Eldest;
use crate::tests::acts::{Act, End, ZEROS};
use crate::tests::copy_hands::CopyHand;
use crate::tests::flag::Tally;
use crate::tests::looks::{is_marked, is_unpinned};
use crate::tests::play::Scene::Between;
use crate::tests::play::{ONE, Play, holds};
use crate::tests::stage::Stage;
use far_device::Device;
use far_evac::{LogKind, Phase};
use far_heap::{Evacuator, Heap, HeapName};
use std::mem;
use std::sync::Wait;
use std::thread::{Threads, join};

/// How many objects there are, each of which takes 64 bytes.
const OBJECTS: u16 = 96;

/// How many rounds are made at most, until one was seen between its turns.
const ROUNDS: u64 = 200_000;

/// How often all objects are sent far and viewed.
const PASSES: u64 = 12;

/// How often a thread looks at most.
const LOOKS: u64 = 1_000_000_000;

/// Turns enough for any round.
const TURNS: u64 = 1_000_000;

/// What one thread makes again and again, while another keeps taking the lock.
#[derive(Clone, Copy)]
pub(super) enum Made {
    Rounds,
    Views,
}

/// What both tell.
#[derive(Drop)]
struct Told {
    /// How often a round was seen in the midst of marking, and in the midst of dealing with objects.
    marking: Tally,
    leaving: Tally,
    /// Which view is made: an odd count while one is, of the pointer of half of it. How often such an object was near and not pinned.
    turn: Tally,
    unpinned: Tally,
    /// Whether no more are made.
    over: Tally,
}

impl Told {
    fn new() -> Told {
        Told {
            marking: Tally::new(),
            leaving: Tally::new(),
            turn: Tally::new(),
            unpinned: Tally::new(),
            over: Tally::new(),
        }
    }

    // Whether a round was seen in both.
    fn has_both(&self) -> bool {
        self.marking.count() > 0 && self.leaving.count() > 0
    }
}

// Views all objects in a scope, wherever they are.
fn views_all<K: HeapName, D: Device + Drop, R: Wait>(rt: &R, stage: &mut Stage<'_, K, D>) -> bool {
    if !stage.does(rt, Opens) {
        return false;
    }
    for pointer in 0..OBJECTS {
        if !stage.does(rt, Brings(pointer, ZEROS)) {
            return false;
        }
    }
    stage.does(rt, Closes)
}

// Makes rounds of all sealed logs, in which each object moves, until one was seen in both: whether each was done.
fn keeps_rounding<K: HeapName, D: Device + Drop, R: Wait>(
    rt: &R,
    stage: &mut Stage<'_, K, D>,
    told: &Told,
) -> bool {
    for _ in 0..ROUNDS {
        if told.has_both() {
            break;
        }
        if !views_all(rt, stage) || !stage.does(rt, Runs(Eldest, 64, TURNS, End::Over)) {
            return false;
        }
    }
    true
}

// Whether some object of a log that is to be emptied has left it.
fn has_left_some<K: HeapName, D: Device + Drop>(book: &mut Evacuator<K, D>) -> bool {
    for log in 0..8u8 {
        if (log as u64) < book.shape().logs {
            let state = book.log(log);
            if state.kind == LogKind::Chosen && state.row.dead > 0 {
                return true;
            }
        }
    }
    false
}

// Whether some object is marked for a round.
fn has_marked_some<K: HeapName, D: Device + Drop>(book: &mut Evacuator<K, D>) -> bool {
    for pointer in 0..OBJECTS {
        if is_marked(book, pointer) {
            return true;
        }
    }
    false
}

// Counts what is seen of a round.
fn look<K: HeapName, D: Device + Drop>(book: &mut Evacuator<K, D>, told: &Told) {
    match book.phase() {
        Phase::Marking => {
            if has_marked_some(book) {
                told.marking.raise();
            }
        }
        Phase::Evacuating => {
            if has_left_some(book) {
                told.leaving.raise();
            }
        }
        _ => {}
    }
}

// Two rounds: the first moves what was viewed, the next sends it far. Before each a new object of a whole log is made and dropped, so that the log
// before it is sealed.
const SENT_FAR: &[Act] = &[
    Makes(4088, Ok(OBJECTS)),
    Drops(OBJECTS, Ok(())),
    Runs(Eldest, 64, TURNS, End::Over),
    Makes(4088, Ok(OBJECTS)),
    Drops(OBJECTS, Ok(())),
    Runs(Eldest, 64, TURNS, End::Over),
    Opens,
];

// The pointer that is viewed at this count.
fn pointer_at(turn: u64) -> u16 {
    (turn / 2 % OBJECTS as u64) as u16
}

// Views an object, which is far: that is told as long as the call lasts.
fn views_far<K: HeapName, D: Device + Drop, R: Wait>(
    rt: &R,
    stage: &mut Stage<'_, K, D>,
    told: &Told,
) -> bool {
    let pointer = pointer_at(told.turn.count());
    if !stage.does(rt, IsSlow(pointer)) {
        return false;
    }
    told.turn.raise();
    let found = stage.does(rt, Brings(pointer, ZEROS));
    told.turn.raise();
    found
}

// Has all objects sent far, and views them in their order.
fn views_all_far<K: HeapName, D: Device + Drop, R: Wait>(
    rt: &R,
    stage: &mut Stage<'_, K, D>,
    told: &Told,
) -> bool {
    if !stage.does_all(rt, SENT_FAR) {
        return false;
    }
    for _ in 0..OBJECTS {
        if !views_far(rt, stage, told) {
            return false;
        }
    }
    stage.does(rt, Closes)
}

// The same many times.
fn keeps_viewing<K: HeapName, D: Device + Drop, R: Wait>(
    rt: &R,
    stage: &mut Stage<'_, K, D>,
    told: &Told,
) -> bool {
    for _ in 0..PASSES {
        if told.unpinned.count() > 0 {
            break;
        }
        if !views_all_far(rt, stage, told) {
            return false;
        }
    }
    true
}

// Counts where an object is near and not pinned while the view that brought it hasn't returned.
fn watch<K: HeapName, D: Device + Drop, R: Wait>(rt: &R, heap: &Heap<K, D>, told: &Told) {
    let turn = told.turn.count();
    if turn % 2 == 1
        && is_unpinned(&mut *heap.book(rt), pointer_at(turn))
        && told.turn.count() == turn
    {
        told.unpinned.raise();
    }
}

// Each copier goes on by one call.
fn all_go_on<K: HeapName, D: Device + Drop>(copiers: &mut [CopyHand<K, D>]) {
    for copier in copiers.iter_mut() {
        copier.goes_on();
    }
}

// Makes all, and tells when no more are made.
fn makes<K: HeapName, D: Device + Drop, R: Wait>(
    rt: &R,
    stage: &mut Stage<'_, K, D>,
    told: &Told,
    made: Made,
) -> bool {
    let done = match made {
        Made::Rounds => keeps_rounding(rt, stage, told),
        Made::Views => keeps_viewing(rt, stage, told),
    };
    told.over.raise();
    done
}

// Looks, under the lock, until no more are made; between two looks each copier goes on.
fn keeps_looking<K: HeapName, D: Device + Drop, R: Wait>(
    rt: &R,
    heap: &Heap<K, D>,
    mut copiers: Vec<CopyHand<K, D>>,
    told: &Told,
    made: Made,
) {
    for _ in 0..LOOKS {
        if told.over.count() > 0 {
            break;
        }
        match made {
            Made::Rounds => look(&mut *heap.book(rt), told),
            Made::Views => watch(rt, heap, told),
        }
        all_go_on(&mut copiers);
    }
}

/// Whether that comes out as it should, beside another thread.
pub(super) fn plays<
    K: HeapName + Send + Sync,
    D: Device + Drop + Send + Sync,
    R: Threads + Wait + Sync,
>(rt: &R, stage: &mut Stage<'_, K, D>, made: Made) -> bool {
    stage.sets_out();
    if !stage.does(rt, Fills(OBJECTS, 56)) {
        return false;
    }
    let copiers = mem::replace(&mut stage.copiers, Vec::new(stage.alloc));
    let (heap, told) = (stage.heap, &Told::new());
    let (done, _) = join(
        rt,
        move || makes(rt, stage, told, made),
        move || keeps_looking(rt, heap, copiers, told, made),
    );
    match made {
        Made::Rounds => done && told.has_both(),
        Made::Views => done && told.unpinned.count() == 0,
    }
}

const ROUNDS_MADE: Play = Play {
    logs: 8,
    scene: Between(Made::Rounds),
    ..ONE
};

// A log has 64 objects, and a turn deals with 16: so there are moments between two turns.
const BETWEEN_TURNS: &[Play] = &[
    ROUNDS_MADE,
    Play {
        copiers: Some(1),
        ..ROUNDS_MADE
    },
];

#[test]
fn the_lock_is_let_go_between_turns(rt: HostRuntime) {
    holds(&rt, rt.alloc(), BETWEEN_TURNS);
}

const VIEWS_MADE: Play = Play {
    logs: 16,
    scene: Between(Made::Views),
    ..ONE
};

// What a view has brought near is pinned under the same hold of the lock.
const BETWEEN_VIEWS: &[Play] = &[
    VIEWS_MADE,
    Play {
        copiers: Some(1),
        ..VIEWS_MADE
    },
];

#[test]
fn a_fetched_object_is_pinned_before_the_lock_is_let_go(rt: HostRuntime) {
    holds(&rt, rt.alloc(), BETWEEN_VIEWS);
}
