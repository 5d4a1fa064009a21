use pv_numeric::is_multiple;

/// Two integers, and whether the first is a multiple of the second.
const MULTIPLES: [(i128, i128, bool); 10] = [
    (6, 3, true),
    (7, 3, false),
    (-6, 3, true),
    (6, -3, true),
    (-7, -3, false),
    (0, 5, true),
    (0, 0, true),
    (1, 0, false),
    (i128::MIN, -1, true),
    (i128::MIN, i128::MAX, false),
];

#[test]
fn multiples_of_all_signs(rt: HostRuntime) {
    for (n, m, want) in MULTIPLES {
        assert_eq!(rt; is_multiple(n, m), want, "at {n} and {m}");
    }
}
