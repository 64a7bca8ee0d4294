//! Talks about rounds: logs are chosen, marked, waited for and emptied.

use super::talk::is_answered;

/// A round moves what was used lately, sends the rest far, and gives the log back.
pub const PLAIN_ROUND: &str = "\
heap 4 1
  ok
new 0 8 1
  pointer 0
new 0 8 1
  pointer 1
open 0
  ok
write 0 0 0 0102030405060708
  ok
close 0
  ok
new 0 4088 1
  pointer 2
round oldest 1 9
  round done moved 1 far 1 dropped 0 freed 1
where 0 0
  near 2 0 -
where 0 1
  far -
log 0
  log 0 free live 0 dead 0 unused 4096
log 1
  log 1 sealed live 4096 dead 0 unused 0
log 2
  log 2 open live 16 dead 0 unused 4080
audit
  audit near 2 far 1 live 4112
open 0
  ok
read 0 0 0 8
  data 0102030405060708
read 0 1 0 8
  data 0000000000000000
where 0 1
  near 2 2 h
";

/// A round makes room where all but the reserve is used up.
const RESERVE: &str = "\
heap 3 1
  ok
new 0 4088 1
  pointer 0
new 0 4088 1
  pointer 1
new 0 8 1
  refused 2
drop 0 0
  ok
round oldest 1 9
  round done moved 0 far 0 dropped 0 freed 1
new 0 8 1
  pointer 0
log 0
  log 0 open live 16 dead 0 unused 4080
";

/// A scope from before the round's epoch is waited for.
const WAITED: &str = "\
heap 4 1
  ok
new 0 8 1
  pointer 0
new 0 4088 1
  pointer 1
open 0
  ok
view 0 0
  ok
select oldest 1
  selected 0
mark 9
  marked 1 waiting 1
wait
  refused 18 0 0
close 0
  ok
wait
  clear
evacuate 9
  evacuated moved 1 far 0 dropped 0 freed 1 done
";

/// A scope that opens at an epoch read before the round views nothing where it lay.
const STALE_EPOCH: &str = "\
heap 4 1
  ok
new 0 8 1
  pointer 0
open 0
  ok
write 0 0 0 aa
  ok
close 0
  ok
new 0 4088 1
  pointer 1
epoch 0
  epoch 0
select oldest 1
  selected 0
mark 9
  marked 1 waiting 1
wait
  clear
open 0
  ok
try 0 0
  refused 14 e600000000010008
read 0 0 0 1
  data aa
evacuate 9
  evacuated moved 0 far 0 dropped 0 freed 1 done
";

/// What the scope views already gives the same view after it was marked.
const VIEWED_BEFORE: &str = "\
heap 4 1
  ok
new 0 8 1
  pointer 0
new 0 4088 1
  pointer 1
open 0
  ok
view 0 0
  ok
select oldest 1
  selected 0
mark 9
  marked 1 waiting 1
write 0 0 0 bb
  ok
wait
  refused 18 0 0
close 0
  ok
wait
  clear
evacuate 9
  evacuated moved 1 far 0 dropped 0 freed 1 done
open 0
  ok
read 0 0 0 1
  data bb
";

/// Owners move what they view, and nothing is left for the evacuator.
const OWNER_FIRST: &str = "\
heap 4 1
  ok
new 0 8 1
  pointer 0
new 0 8 1
  pointer 1
new 0 4088 1
  pointer 2
select oldest 1
  selected 0
mark 9
  marked 2 waiting 1
wait
  clear
open 0
  ok
view 0 0
  ok
view 0 1
  ok
evacuate 9
  evacuated moved 0 far 0 dropped 0 freed 1 done
";

/// A hot object goes far where no room is left: the owner's move took log 3, the last free one.
const HOT_WITHOUT_ROOM: &str = "\
heap 4 1
  ok
new 0 4088 1
  pointer 0
new 0 4088 1
  pointer 1
new 0 4088 1
  pointer 2
open 0
  ok
view 0 0
  ok
close 0
  ok
select oldest 2
  selected 0 1
mark 9
  marked 2 waiting 1
wait
  clear
open 0
  ok
view 0 1
  ok
evacuate 9
  evacuated moved 0 far 1 dropped 0 freed 2 done
where 0 0
  far -
";

/// A script that names a log that isn't sealed, or one twice, begins no round.
const BAD_CHOICES: &str = "\
heap 4 1
  ok
new 0 8 1
  pointer 0
new 0 4088 1
  pointer 1
select script 1 1
  refused 17 1
select script 2 0 0
  refused 17 0
mark 1
  refused 12
";

/// No round begins at the last epoch.
const LAST_EPOCH: &str = "\
heap 4 1 4611686018427387903
  ok
new 0 8 1
  pointer 0
new 0 4088 1
  pointer 1
select oldest 1
  refused 13
";

/// Nor after the one that reached it.
const LAST_BUT_ONE: &str = "\
heap 4 1 4611686018427387902
  ok
new 0 8 1
  pointer 0
new 0 4088 1
  pointer 1
round oldest 1 9
  round done moved 0 far 1 dropped 0 freed 1
round oldest 1 9
  refused 13
epoch 0
  epoch 4611686018427387903
";

/// A chosen log that was given back may be opened anew within the round.
const OPENED_ANEW: &str = "\
heap 4 1
  ok
new 0 4088 1
  pointer 0
new 0 4088 1
  pointer 1
new 0 4088 1
  pointer 2
open 0
  ok
view 0 1
  ok
close 0
  ok
round oldest 2 9
  round done moved 1 far 1 dropped 0 freed 2
where 0 1
  near 0 0 -
log 0
  log 0 open live 4096 dead 0 unused 0
";

/// A round that ends at its limit stands where it is.
const LIMITS: &str = "\
heap 4 1
  ok
new 0 8 1
  pointer 0
new 0 4088 1
  pointer 1
round oldest 1 0
  round limit marking
round oldest 1 1
  refused 12
abort
  ok
round oldest 1 1
  round limit waiting
abort
  ok
round oldest 1 2
  round limit evacuating
evacuate 9
  evacuated moved 0 far 1 dropped 0 freed 1 done
";

/// Two logs are never enough for a round.
const NOTHING_SEALED: &str = "\
heap 2 1
  ok
new 0 4088 1
  pointer 0
new 0 8 1
  refused 2
select oldest 1
  selected none
";

/// A wait that can't end uses up all turns at once.
const HUGE_LIMIT: &str = "\
heap 4 1
  ok
new 0 8 1
  pointer 0
new 0 4088 1
  pointer 1
open 0
  ok
view 0 0
  ok
round oldest 1 18446744073709551615
  round limit waiting
round oldest 1 1
  refused 12
where 0 0
  near 0 0 he
wait
  refused 18 0 0
close 0
  ok
wait
  clear
evacuate 18446744073709551615
  evacuated moved 1 far 0 dropped 0 freed 1 done
where 0 0
  near 2 0 -
round oldest 64 18446744073709551615
  round done moved 0 far 1 dropped 0 freed 1
audit
  audit near 1 far 1 live 16
";

/// A view without room leaves MOVE, which a later view takes away where the object isn't to be evacuated any more.
const ASKED_TO_MOVE: &str = "\
heap 4 1
  ok
new 0 4088 1
  pointer 0
new 0 4088 1
  pointer 1
new 0 4088 1
  pointer 2
select oldest 2
  selected 0 1
mark 2
  marked 2 waiting 1
mark 0
  refused 12
evacuate 1
  refused 12
open 0
  ok
view 0 1
  ok
where 0 1
  near 3 0 h
view 0 0
  refused 2
where 0 0
  near 0 0 hem
try 0 0
  refused 14 f600000000010ff8
abort
  ok
where 0 0
  near 0 0 hm
try 0 0
  refused 14 d600000000010ff8
select oldest 1
  selected 0
read 0 0 4087 1
  data 00
where 0 0
  near 0 0 h
mark 1
  marked 1 waiting 2
where 0 0
  near 0 0 he
drop 0 0
  refused 9
abort
  ok
log 0
  log 0 sealed live 4096 dead 0 unused 0
log 1
  log 1 sealed live 0 dead 4096 unused 0
";

/// What is far is fetched where room is; the last free log is kept in reserve.
const FAR_AND_NEAR: &str = "\
heap 3 1
  ok
new 0 4088 7
  pointer 0
new 0 9 1
  pointer 1
open 0
  ok
write 0 0 0 c0ffee
  ok
close 0
  ok
round oldest 1 9
  round done moved 1 far 0 dropped 0 freed 1
round oldest 1 9
  round done moved 0 far 1 dropped 0 freed 1
new 0 4088 1
  pointer 2
round oldest 1 9
  round done moved 0 far 1 dropped 0 freed 1
audit
  audit near 1 far 2 live 4096
where 0 0
  far -
open 0
  ok
try 0 0
  refused 14 0400000000070ff8
where 0 0
  far h
read 0 0 0 4
  data c0ffee00
where 0 0
  near 1 0 h
view 0 1
  refused 2
read 0 1 0 9
  refused 2
where 0 1
  far h
try 0 1
  refused 14 4400000000010009
close 0
  ok
drop 0 2
  ok
round leastlive 1 9
  round done moved 0 far 0 dropped 0 freed 1
open 0
  ok
write 0 1 8 01
  ok
read 0 1 0 9
  data 000000000000000001
where 0 1
  near 0 0 h
audit
  audit near 2 far 0 live 4120
";

/// A far object is dropped, and its pointer given to a new one, of zeros.
const FAR_DROPPED: &str = "\
heap 4 1
  ok
new 0 8 1
  pointer 0
open 0
  ok
write 0 0 0 ffffffffffffffff
  ok
close 0
  ok
new 0 4088 1
  pointer 1
round oldest 1 9
  round done moved 1 far 0 dropped 0 freed 1
new 0 4088 1
  pointer 2
round leastlive 1 9
  round done moved 0 far 1 dropped 0 freed 1
where 0 0
  far -
audit
  audit near 2 far 1 live 8192
drop 0 0
  ok
drop 0 0
  refused 7
audit
  audit near 2 far 0 live 8192
new 0 8 1
  pointer 0
open 0
  ok
read 0 0 0 8
  data 0000000000000000
";

/// Logs are gone through in the order in which they were chosen; those given back are named anew; an abort keeps ages.
const CHOSEN_ORDER: &str = "\
heap 5 1
  ok
new 0 4088 1
  pointer 0
new 0 2036 1
  pointer 1
new 0 2036 1
  pointer 2
new 0 4088 1
  pointer 3
new 0 8 1
  pointer 4
drop 0 1
  ok
select leastlive 64
  selected 1 0 2
abort
  ok
select script 2 2 0
  selected 2 0
mark 1
  marked 1
where 0 3
  near 2 0 e
where 0 0
  near 0 0 -
logs
  log 0 chosen live 4096 dead 0 unused 0
  log 1 sealed live 2048 dead 2048 unused 0
  log 2 chosen live 4096 dead 0 unused 0
  log 3 open live 16 dead 0 unused 4080
  log 4 free live 0 dead 0 unused 4096
mark 1
  marked 1 waiting 1
wait
  clear
evacuate 1
  evacuated moved 0 far 1 dropped 0 freed 1
logs
  log 0 chosen live 4096 dead 0 unused 0
  log 1 sealed live 2048 dead 2048 unused 0
  log 2 free live 0 dead 0 unused 4096
  log 3 open live 16 dead 0 unused 4080
  log 4 free live 0 dead 0 unused 4096
abort
  ok
select oldest 64
  selected 0 1
abort
  ok
abort
  refused 12
";

/// Logs without live objects are given back where no object is asked for.
const DROPPED_LOGS: &str = "\
heap 5 2
  ok
new 0 4088 1
  pointer 0
new 0 4088 1
  pointer 1
new 1 4088 1
  pointer 256
new 1 8 1
  pointer 257
drop 0 0
  ok
drop 1 256
  ok
select oldest 3
  selected 0 1 2
mark 0
  marked 0
mark 1
  marked 1 waiting 1
evacuate 0
  refused 12
epoch 0
  epoch 1
open 1
  ok
wait
  clear
evacuate 0
  evacuated moved 0 far 0 dropped 0 freed 1
evacuate 0
  evacuated moved 0 far 0 dropped 0 freed 0
drop 0 1
  ok
evacuate 0
  evacuated moved 0 far 0 dropped 0 freed 2 done
audit
  audit near 1 far 0 live 16
";

/// An owner that was seen clear isn't waited for again; those after the first that is open aren't looked at.
const SEEN_CLEAR: &str = "\
heap 4 3 5
  ok
new 0 8 1
  pointer 0
new 0 4088 1
  pointer 1
epoch 0
  epoch 5
epoch 1
  epoch 5
open 2
  ok
select oldest 1
  selected 0
mark 1
  marked 1 waiting 6
wait
  refused 18 2 5
open 1
  ok
wait
  refused 18 2 5
open 0
  ok
close 2
  ok
wait
  clear
evacuate 9
  evacuated moved 0 far 1 dropped 0 freed 1 done
new 0 4088 1
  pointer 2
close 0
  ok
epoch 2
  epoch 6
select oldest 1
  selected 1
mark 9
  marked 1 waiting 7
wait
  refused 18 1 5
open 2
  ok
close 1
  ok
wait
  refused 18 2 6
close 2
  ok
open 2
  ok
wait
  clear
";

/// Each command belongs to its phase.
const PHASES: &str = "\
heap 4 1
  ok
new 0 8 1
  pointer 0
new 0 4088 1
  pointer 1
wait
  refused 12
mark 1
  refused 12
evacuate 1
  refused 12
abort
  refused 12
select oldest 0
  selected none
round leastlive 0 9
  round none
select script 0 0
  refused 17 0
select script 1 255
  refused 17 255
select oldest 1
  selected 0
select oldest 1
  refused 12
wait
  refused 12
evacuate 0
  refused 12
round oldest 1 1
  refused 12
mark 0
  marked 0
mark 18446744073709551615
  marked 1 waiting 1
mark 1
  refused 12
evacuate 1
  refused 12
select script 1 9
  refused 12
wait
  clear
wait
  refused 12
evacuate 1
  evacuated moved 0 far 1 dropped 0 freed 1 done
wait
  refused 12
abort
  refused 12
";

const ROUNDS: [&str; 21] = [
    PLAIN_ROUND,
    RESERVE,
    WAITED,
    STALE_EPOCH,
    VIEWED_BEFORE,
    OWNER_FIRST,
    HOT_WITHOUT_ROOM,
    BAD_CHOICES,
    LAST_EPOCH,
    LAST_BUT_ONE,
    OPENED_ANEW,
    LIMITS,
    NOTHING_SEALED,
    HUGE_LIMIT,
    ASKED_TO_MOVE,
    FAR_AND_NEAR,
    FAR_DROPPED,
    CHOSEN_ORDER,
    DROPPED_LOGS,
    SEEN_CLEAR,
    PHASES,
];

#[test]
fn rounds_are_answered(rt: HostRuntime) {
    for talk in ROUNDS {
        assert!(rt; is_answered(rt.alloc(), talk), "at {talk}");
    }
}
