//! Talks about epochs, as talks.rt has about all else.

use super::talk::is_answered;

/// The epoch is the first one until a round raises it; it is read with the scope closed.
const EPOCHS: &str = "\
heap 4 2 4611686018427387903
  ok
epoch 0
  epoch 4611686018427387903
epoch 0
  epoch 4611686018427387903
open 0
  ok
epoch 0
  refused 6
epoch 1
  epoch 4611686018427387903
epoch 2
  refused 8
close 0
  ok
close 0
  refused 5
open 1
  ok
new 1 8 1
  pointer 256
read 1 256 0 8
  data 0000000000000000
epoch 1
  refused 6
close 1
  ok
epoch 1
  epoch 4611686018427387903
";

/// A heap begins at epoch 0 where its line says none.
const FIRST_EPOCH: &str = "\
heap 2 8
  ok
epoch 7
  epoch 0
epoch 8
  refused 8
";

/// Or at the one that it says.
const SAID_EPOCH: &str = "\
heap 2 1 7
  ok
open 0
  ok
close 0
  ok
epoch 0
  epoch 7
";

const TALKS: [&str; 3] = [EPOCHS, FIRST_EPOCH, SAID_EPOCH];

#[test]
fn epochs_are_told(rt: HostRuntime) {
    for talk in TALKS {
        assert!(rt; is_answered(rt.alloc(), talk), "at {talk}");
    }
}
