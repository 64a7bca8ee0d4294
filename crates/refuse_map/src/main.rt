//! Calls of a map, each made once more where it is refused, so that each growth of memory can be refused in turn: then the second must be done, and no entry may be
//! lost. Tells what was wrong, and how many calls were refused.
#![tactic(auto)]

use far_double::Double;
use far_map::Map;
use far_objects::Objects;
use far_word::Refused;
use std::alloc::Global;
use std::process::ExitCode;

/// How many keys there are: the index is made anew twice.
const KEYS: u32 = 100;

/// What was found.
#[derive(Clone, Copy)]
struct Found {
    wrong: u64,
    refused: u64,
}

impl Found {
    // Counts a call, by whether it was refused, and right at last.
    fn count(&mut self, refused: bool, right: bool) {
        if refused {
            self.refused = self.refused.wrapping_add(1);
        }
        if !right {
            self.wrong = self.wrong.wrapping_add(1);
        }
    }
}

// Gives each key a value.
fn put_all<O: Objects + Drop>(map: &mut Map<O>, value: &[u8], found: &mut Found) {
    for key in 0..KEYS {
        let len = map.len();
        let refused = map.insert(&key.to_le_bytes(), value).is_err();
        let right = !refused || map.len() == len && map.insert(&key.to_le_bytes(), value).is_ok();
        found.count(refused, right);
    }
}

// Whether each key has a value of this length.
fn get_all<O: Objects + Drop>(map: &mut Map<O>, len: usize, out: &mut Vec<u8>, found: &mut Found) {
    for key in 0..KEYS {
        let refused = map.get(&key.to_le_bytes(), out).is_err();
        let right = map.get(&key.to_le_bytes(), out) == Ok(true) && out.len() == len;
        found.count(refused, right);
    }
}

// Room for so many entries more.
fn keep_room<O: Objects + Drop>(map: &mut Map<O>, more: usize, found: &mut Found) {
    let refused = map.reserve(more).is_err();
    let right = !refused || map.reserve(more).is_ok();
    found.count(refused, right);
}

fn play(alloc: Global) -> Result<Found, Refused> {
    let mut out = Vec::new(alloc);
    let mut found = Found {
        wrong: 0,
        refused: 0,
    };
    let mut map = Map::new(alloc, Double::new(alloc, true, 101, 0), [1; 16])?;
    put_all(&mut map, &[1; 40], &mut found);
    put_all(&mut map, &[2; 300], &mut found);
    keep_room(&mut map, 1_000, &mut found);
    get_all(&mut map, 300, &mut out, &mut found);
    found.count(false, map.len() == 100 && map.worker().live() == 100);
    Ok(found)
}

fn main(rt: HostRuntime) -> ExitCode {
    match play(rt.alloc()) {
        Ok(found) => {
            let _ = println!(&rt; "wrong {} refused {}", found.wrong, found.refused);
            ExitCode::SUCCESS
        }
        Err(_) => {
            let _ = eprintln!(&rt; "memory");
            ExitCode::FAILURE
        }
    }
}
