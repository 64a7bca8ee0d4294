//! What statistics are as a line.

use far_dict::Statistics;

const TOLD: Statistics = Statistics {
    short: far_map::Statistics {
        entries: 1,
        homes: 2,
        taken: 3,
        bytes: 4,
    },
    long: 5,
};

#[test]
fn statistics_are_one_line(rt: HostRuntime) {
    match format!(in rt.alloc(); "{TOLD}") {
        Ok(text) => assert!(rt; text.as_str() == "entries 1 homes 2 taken 3 bytes 4 long 5"),
        Err(_) => assert!(rt; false),
    }
}
