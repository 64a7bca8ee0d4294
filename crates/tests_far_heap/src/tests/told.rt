//! What a mutator and its scope tell of objects without a step: how long each is, and of which data structure.

use crate::tests::acts::Act;
use crate::tests::acts::Act::*;
use crate::tests::play::Scene::Acts;
use crate::tests::play::{ONE, Play, holds};

// Two new objects of different lengths and data structures are told as they were made.
const TOLD_OBJECTS: &[Act] = &[
    MakesOf(24, 255, 0),
    MakesOf(4088, 0, 1),
    Tells(0, Some(24), Some(255)),
    Tells(1, Some(4088), Some(0)),
    Tells(2, None, None),
    Tells(256, None, None),
    Tells(u16::MAX, None, None),
];

// A scope tells the same, and another object at the pointer of one that it dropped; the mutator tells that too.
const TOLD_IN_SCOPE: &[Act] = &[
    Opens,
    Tells(0, Some(24), Some(255)),
    Tells(1, Some(4088), Some(0)),
    Tells(256, None, None),
    Drops(0, Ok(())),
    Tells(0, None, None),
    MakesOf(8, 7, 0),
    Tells(0, Some(8), Some(7)),
    Closes,
    Tells(0, Some(8), Some(7)),
];

// A mutator tells the length and the data structure of what it uses, and so does its scope.
const AN_OBJECT_IS_TOLD_AS_IT_WAS_MADE_PLAYS: &[Play] = &[Play {
    scene: Acts(&[TOLD_OBJECTS, TOLD_IN_SCOPE]),
    ..ONE
}];

#[test]
fn an_object_is_told_as_it_was_made(rt: HostRuntime) {
    holds(&rt, rt.alloc(), AN_OBJECT_IS_TOLD_AS_IT_WAS_MADE_PLAYS);
}
