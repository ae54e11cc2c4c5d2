//! A count of faults at both of its ends.
use crate::causes::raised;

#[test]
fn counts_stand_still_at_their_end(rt: HostRuntime) {
    for (before, after) in [
        (0, 1),
        (6, 7),
        (u64::MAX - 1, u64::MAX),
        (u64::MAX, u64::MAX),
    ] {
        assert_eq!(rt; raised(before), after);
    }
}
