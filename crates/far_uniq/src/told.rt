//! What is said at an end that isn't the right one.

use crate::room::Room;
use far_firsts::{Counted, End, Ending, Why};
use far_word::Refused;
use std::io;
use std::io::ErrorKind;
use std::process::ExitCode;

#[derive(Drop)]
pub enum Fault {
    Usage,
    Memory,
    Random,
    /// So many bytes of memory would do.
    Small(u64),
    Large,
    /// The far file.
    File(io::Error),
    /// Before the first line.
    Start(Refused),
    /// At the line of this number, counted from 1: there are no more than so many lines that may be printed.
    Full(u64, usize),
    /// The same where lines are counted, and nothing is printed.
    Uncounted(u64, usize),
    /// There is no memory for this line: there would be for so many short ones; so many were printed.
    NoMemory(u64, usize, usize),
    /// This line is longer than so many bytes; so many were printed.
    Long(u64, usize, usize),
    /// The far side, at this line; so many were printed.
    Line(u64, Refused, usize),
    Input(u64, io::Error, usize),
    /// The far side, when so many lines were printed with their counts.
    Lost(u64, Refused),
    Output(u64, io::Error),
    /// Who reads the output is gone.
    Closed,
}

/// What an end comes to.
pub fn ended(end: End, printed: usize, room: &Room) -> Result<(), Fault> {
    let at = end.lines.saturating_add(1);
    match end.why {
        Why::Done => Ok(()),
        Why::Refused(Refused::Memory | Refused::NoPointer) => {
            if printed == room.lines {
                return Err(Fault::Full(at, printed));
            }
            Err(Fault::NoMemory(at, room.lines, printed))
        }
        Why::Refused(Refused::Length) => Err(Fault::Long(at, room.longest, printed)),
        Why::Refused(why) => Err(Fault::Line(at, why, printed)),
        Why::Input(e) => Err(Fault::Input(at, e, printed)),
        Why::Output(e) => {
            if e.kind() == ErrorKind::BrokenPipe {
                return Err(Fault::Closed);
            }
            Err(Fault::Output(at, e))
        }
        Why::TooMany => Err(Fault::Large),
    }
}

/// What an end comes to where lines were counted, of which so many are different.
pub fn ended_counts(counted: Counted, lines: usize, room: &Room) -> Result<(), Fault> {
    let why = match counted.ending {
        Ending::Done => Why::Done,
        Ending::Refused(Refused::Memory | Refused::NoPointer) => {
            if lines == room.lines {
                return Err(Fault::Uncounted(counted.lines.saturating_add(1), lines));
            }
            Why::Refused(Refused::Memory)
        }
        Ending::Refused(why) => Why::Refused(why),
        Ending::Input(e) => Why::Input(e),
        Ending::TooMany => Why::TooMany,
        Ending::Lost(shown, why) => return Err(Fault::Lost(shown, why)),
        Ending::Output(e) => Why::Output(e),
    };
    let end = End {
        lines: counted.lines,
        why,
    };
    ended(end, 0, room)
}

// Why the far side or memory refused.
fn cause(why: &Refused) -> &'static str {
    match why {
        Refused::Memory => "no memory",
        Refused::NoRoom => "no room, as the far file takes nothing more: is its disk full?",
        Refused::Device => "the far file can't be read",
        Refused::Damaged => "the far file gave other bytes than were put there",
        _ => "the far side refused",
    }
}

/// Says what was wrong in a line. The program's status: 2 where the arguments are wrong, else 1.
pub fn tell(rt: &HostRuntime, fault: &Fault, input: Option<&str>) -> ExitCode {
    let file = input.unwrap_or("standard input");
    let _ = match fault {
        Fault::Usage => {
            eprintln!(rt; "usage: far_uniq [-m SIZE] [-d FOLDER] [-c] [-s] [-z] [FILE..]")
        }
        Fault::Memory => eprintln!(rt; "far_uniq: no memory; nothing was printed"),
        Fault::Random => {
            eprintln!(rt; "far_uniq: the system gives no random bytes; nothing was printed")
        }
        Fault::Small(least) => eprintln!(rt;
            "far_uniq: too little memory: -m {least} would do; nothing was printed"
        ),
        Fault::Large => eprintln!(rt; "far_uniq: too much for this program"),
        Fault::File(e) => eprintln!(rt; "far_uniq: no far file: {e}; nothing was printed"),
        Fault::Start(why) => eprintln!(rt; "far_uniq: {}; nothing was printed", cause(why)),
        Fault::NoMemory(at, lines, printed) => eprintln!(rt;
            "far_uniq: {file}: line {at}: no memory; -m has room for {lines} lines of up to 511 bytes, and for fewer longer ones; {printed} lines were printed"
        ),
        Fault::Long(at, longest, printed) => eprintln!(rt;
            "far_uniq: {file}: line {at} has more than {longest} bytes, a 64th of -m; {printed} lines were printed"
        ),
        Fault::Full(at, lines) => eprintln!(rt;
            "far_uniq: {file}: line {at} would be new beyond {lines}, all that -m has room for; they were printed"
        ),
        Fault::Uncounted(at, lines) => eprintln!(rt;
            "far_uniq: {file}: line {at} would be new beyond {lines}, all that -m has room for with -c; nothing was printed"
        ),
        Fault::Lost(shown, why) => eprintln!(rt;
            "far_uniq: {}, after {shown} lines were printed with their counts",
            cause(why)
        ),
        Fault::Line(at, why, printed) => eprintln!(rt;
            "far_uniq: {file}: line {at}: {}; {printed} lines were printed",
            cause(why)
        ),
        Fault::Input(at, e, printed) => eprintln!(rt;
            "far_uniq: {file}: can't be read at line {at}: {e}; {printed} lines were printed"
        ),
        Fault::Output(at, e) => eprintln!(rt;
            "far_uniq: can't write at line {at}: {e}; what was written is how the right output begins"
        ),
        Fault::Closed => Ok(()),
    };
    match fault {
        Fault::Usage => ExitCode::from(2),
        _ => ExitCode::FAILURE,
    }
}
