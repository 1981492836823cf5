use rh_layout::*;

// The homes at 3 bits, worked out by hand from the multiplier.
const HOMES: &[(usize, &[u64])] = &[
    (0, &[0, 5, 13]),
    (1, &[2, 10]),
    (2, &[7, 15]),
    (3, &[4, 12]),
    (4, &[1, 9, 17, 22]),
    (5, &[6, 14]),
    (6, &[3, 11]),
    (7, &[8, 16, 21]),
];

#[test]
fn homes_at_three_bits(rt: HostRuntime) {
    for &(cell, keys) in HOMES {
        for key in keys {
            assert_eq!(rt; home(3, *key), cell, "of {key}");
        }
    }
}

#[test]
fn the_limits_are_these(rt: HostRuntime) {
    assert_eq!(rt; MAX_KEY, 4_611_686_018_427_387_902);
    assert_eq!(rt; MIN_BITS, 3);
    assert_eq!(rt; MAX_BITS, 18);
}

// The homes at 18 bits of these powers of 2 are the digits of the multiplier 0x9e37_79b9_7f4a_7c15
// from the highest bit on, 18 bits at a time, and its last 10 bits.
#[test]
fn the_multiplier_is_this(rt: HostRuntime) {
    for (power, digits) in [(0, 0x278dd), (18, 0x39b97), (36, 0x3d29f), (54, 0x15 << 8)] {
        assert_eq!(rt; home(18, 1 << power), digits, "of 2 to the {power}");
    }
}
