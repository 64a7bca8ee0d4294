//! Different values compare as different.

use far_replay::{End, RunFault};

const FAULTS: [RunFault; 3] = [RunFault::Read, RunFault::Write, RunFault::Memory];

// Whether a fault is equal to the one of its own number, and to no other.
fn is_alone(number: usize, fault: RunFault) -> bool {
    for (at, other) in FAULTS.iter().enumerate() {
        if (fault == *other) != (at == number) {
            return false;
        }
    }
    true
}

#[test]
fn ends_and_faults_differ(rt: HostRuntime) {
    assert!(rt; End::Ran != End::Refused);
    assert!(rt; is_alone(0, RunFault::Read) && is_alone(1, RunFault::Write));
    assert!(rt; is_alone(2, RunFault::Memory));
}
