//! What a thread leaves alone: a scope that is open after its last line, and a round that it has made.

use super::talk::prints;
use super::turns::Turns;
use far_split::THE_BOOK;

const B: u8 = THE_BOOK;

// A scope that is open after its thread's last line stays open: rounds of many turns wait for it, whatever its thread has done meanwhile.
const LEFT_OPEN: &str = "\
heap 4 2
new 0 8 1
new 1 4088 1
open 0
view 0 0
round oldest 1 2000
round oldest 1 9
";

const LEFT_OPEN_TOLD: &str = "\
mutator 0
pointer 0
ok
ok
mutator 1
pointer 256
book
round limit waiting
refused 12
";

#[test]
fn a_scope_left_open_stays_open(rt: HostRuntime) {
    let gate = Turns::new(&[0, 1, 0, 0, B, B]);
    assert!(rt; prints(&rt, rt.alloc(), LEFT_OPEN, &gate, LEFT_OPEN_TOLD));
    assert!(rt; gate.are_over());
}

// Three logs are sealed, with an object each. A round is of one of them, and the next of the two that are left.
const ROUNDS: &str = "\
heap 6 1
new 0 4088 1
new 0 4088 1
new 0 4088 1
new 0 8 1
round oldest 1 9
audit
log 0
log 1
round oldest 2 9
audit
round oldest 2 9
";

const ROUNDS_TOLD: &str = "\
mutator 0
pointer 0
pointer 1
pointer 2
pointer 3
book
round done moved 0 far 1 dropped 0 freed 1
audit near 3 far 1 live 8208
log 0 free live 0 dead 0 unused 4096
log 1 sealed live 4096 dead 0 unused 0
round done moved 0 far 2 dropped 0 freed 2
audit near 1 far 3 live 16
round none
";

#[test]
fn a_round_line_is_made_once(rt: HostRuntime) {
    let gate = Turns::new(&[0, 0, 0, 0, B, B, B, B, B, B, B]);
    assert!(rt; prints(&rt, rt.alloc(), ROUNDS, &gate, ROUNDS_TOLD));
    assert!(rt; gate.are_over());
}
