//! Logarithms that were worked out by hand.
use fixed_log::{lg, ln_ratio};

#[test]
fn logarithms_worked_by_hand(rt: HostRuntime) {
    for (m, want) in [
        (1, 0),
        (2, 16777216),
        (3, 26591258),
        (25, 77910978),
        (81, 106365032),
        (1 << 67, 1124073472),
    ] {
        assert_eq!(rt; lg(m), want, "lg of {m}");
    }
    assert_eq!(rt; ln_ratio(20736, 25600), -3535313);
    assert_eq!(rt; ln_ratio(7, 7), 0);
}
