//! Texts that are refused, and texts without a command.

use super::talk::is_run;
use far_replay::End;
use std::alloc::{AllocError, Global};

const NO_COMMANDS: [&str; 6] = ["", "\n", "\n\n\n", "#", "# alone\n", "\n# one\n\n#two\n#"];

#[test]
fn no_commands_get_no_answer(rt: HostRuntime) {
    for text in NO_COMMANDS {
        assert!(rt; is_run(rt.alloc(), text, "", End::Ran), "at {text}");
    }
    assert!(rt; is_run(rt.alloc(), "heap 4 1", "ok\n", End::Ran));
}

// The number of the first line off the grammar, and the text, with / for a newline.
const BAD_TEXTS: &str = "\
1 heap 4 1\r/
1 \r/heap 4 1
1 heap\t4 1
1 heap  4 1
1 heap 4 1 
1  heap 4 1
1  
1  # no comment
1 heap 4
1 heap 4 1 0 0
1 heap 4 1 00
1 heap 4 1 -1
1 heap 4 1 0 
1 heap 4 1 18446744073709551616
3 heap 4 1//heap 4 1
2 # the heap is missing/logs
1 new 0 8 1/heap 4 1
1 # \u{e4}
3 heap 4 1/#/#\u{80}
2 heap 4 1/logs \u{e4}
2 heap 4 1/open 00
2 heap 4 1/open 007
2 heap 4 1/open +1
2 heap 4 1/open -1
2 heap 4 1/open
2 heap 4 1/new 00 8 1
2 heap 4 1/new 0 8 1 
2 heap 4 1/new 0 18446744073709551616 1
2 heap 4 1/open 0 0
2 heap 4 1/open 0x1
2 heap 4 1/open 18446744073709551616
2 heap 4 1/open 99999999999999999999
2 heap 4 1/open 100000000000000000000000000000000000000000
2 heap 4 1/write 0 0 0 0
2 heap 4 1/write 0 0 0 012
2 heap 4 1/write 0 0 0 
2 heap 4 1/write 0 0 0
2 heap 4 1/write 0 0 0 0g
2 heap 4 1/write 0 0 0 00 00
2 heap 4 1/read 0 0 0
2 heap 4 1/read 0 0 0 1 1
2 heap 4 1/logs 0
4 heap 4 1/logs//log 0 0
2 heap 4 1/where 0
2 heap 4 1/where 0 0 0
2 heap 4 1/where 0 -1
2 heap 4 1/drop 0
2 heap 4 1/drop 0 0 0
2 heap 4 1/view 0
2 heap 4 1/view 0 0 0
2 heap 4 1/try 0
2 heap 4 1/try 0 0 0
2 heap 4 1/log 00
2 heap 4 1/log 18446744073709551616
2 heap 4 1/audit 0
2 heap 4 1/epoch
2 heap 4 1/epoch 0 0
2 heap 4 1/epoch 00
2 heap 4 1/select
2 heap 4 1/select 1
2 heap 4 1/select oldest
2 heap 4 1/select oldest 65
2 heap 4 1/select oldest 1 0
2 heap 4 1/select leastlive 01
2 heap 4 1/select newest 1
2 heap 4 1/select script 1
2 heap 4 1/select script 65 0
2 heap 4 1/select script 1 256
2 heap 4 1/select script 2 0 256
2 heap 4 1/select script 1 0 
2 heap 4 1/mark
2 heap 4 1/mark 0 0
2 heap 4 1/mark -1
2 heap 4 1/wait 0
2 heap 4 1/evacuate
2 heap 4 1/evacuate 0 0
2 heap 4 1/abort 0
2 heap 4 1/round oldest 1
2 heap 4 1/round oldest 1 0 0
2 heap 4 1/round oldest 65 0
2 heap 4 1/round leastlive 1 18446744073709551616
2 heap 4 1/round script 1 0
2 heap 4 1/round script 1 0 0
2 heap 4 1/device
2 heap 4 1/device fail
2 heap 4 1/device 1
2 heap 4 1/device fail -1
2 heap 4 1/device fail 01
2 heap 4 1/device fail 1 1
2 heap 4 1/device fail 18446744073709551616
2 heap 4 1/device Fail 1
3 heap 4 1/device fail 0/device fail 0
3 heap 4 1/device fail 1/heap 4 1
3 heap 4 1/open 0/device fail 1
5 heap 4 1/# its device//new 0 8 1/device fail 1
1 device fail 1/heap 4 1
1 device fail 1
2 heap 4 1/LOGS
2 heap 4 1/log
2 heap 4 1/logss
2 heap 4 1/close 0\0
1 bad
2 heap 4 1/open/
3 heap 4 1/new 0 8 1/bad
3 heap 4 1/new 0 8 1/bad/
2 heap 4 1/bad/new 0 8 1/worse/
5 heap 4 1//# here/open 0/logs 1/logs/
2 heap 65 1/bad/
1 logs/heap 4 1/
3 heap 4 1/logs/heap 4 1/
2 heap 4 1/open 18446744073709551616/
";

// A row's text, and its answer.
fn parts_of(alloc: Global, row: &str) -> Result<(String, String), AllocError> {
    let (number, text) = row.split_once(' ').unwrap_or(("", row));
    let text = text.replace(alloc, "/", "\n")?;
    let answer = format!(in alloc; "refused 16 {number}\n")?;
    Ok((text, answer))
}

// Whether a row's text is refused for its line.
fn is_refused(alloc: Global, row: &str) -> bool {
    match parts_of(alloc, row) {
        Ok((text, answer)) => is_run(alloc, &text, &answer, End::Refused),
        Err(_) => false,
    }
}

#[test]
fn one_bad_line_refuses_the_whole_text(rt: HostRuntime) {
    for row in BAD_TEXTS.lines() {
        assert!(rt; is_refused(rt.alloc(), row), "at {row}");
    }
}

const BAD_SHAPES: [&str; 17] = [
    "heap 0 0",
    "heap 0 1",
    "heap 1 1",
    "heap 65 1",
    "heap 4 9",
    "heap 4 0",
    "heap 65 9",
    "heap 255 255",
    "heap 256 1",
    "heap 260 1",
    "heap 4 257",
    "heap 4 18446744073709551615",
    "heap 18446744073709551615 1",
    "heap 4 1 4611686018427387904",
    "heap 4 1 18446744073709551615",
    "heap 1 1 0",
    "heap 18446744073709551615 18446744073709551615\nnew 0 8 1\nopen 0\nlogs\n",
];

#[test]
fn shapes_out_of_range_are_refused(rt: HostRuntime) {
    for text in BAD_SHAPES {
        assert!(rt;
            is_run(rt.alloc(), text, "refused 15\n", End::Refused),
            "at {text}"
        );
    }
}
