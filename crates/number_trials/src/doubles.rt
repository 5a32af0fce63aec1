// Real: rounding, the two zeros, the infinities and not-a-number.
use scalar::Scalar;
use std::process::Abort;

const LARGEST: f64 = 1.7976931348623157e308;

const SMALLEST: f64 = 5e-324;

// The same double: all not-a-numbers are one, and the zeros differ.
fn same(x: f64, y: f64) -> bool {
    if x.is_nan() || y.is_nan() {
        x.is_nan() && y.is_nan()
    } else {
        x == y && x.is_sign_negative() == y.is_sign_negative()
    }
}

fn check_same(rt: &impl Abort, found: f64, expected: f64) {
    assert!(rt; same(found, expected), "{found} in place of {expected}");
}

// Two operations at x and y of each case, against what the first and the second are to give.
fn check_operations<F: Fn(f64, f64) -> f64, G: Fn(f64, f64) -> f64>(
    rt: &impl Abort,
    first: F,
    second: G,
    cases: &[(f64, f64, f64, f64)],
)
    requires first { F.IsAlwaysCallable first }
    requires second { G.IsAlwaysCallable second }
{
    for (x, y, by_first, by_second) in cases {
        check_same(rt, first(*x, *y), *by_first);
        check_same(rt, second(*x, *y), *by_second);
    }
}

#[test]
fn sums_and_differences(rt: HostRuntime) {
    check_operations(
        &rt,
        f64::sum,
        f64::difference,
        &[
            (0.1, 0.2, 0.30000000000000004, -0.1),
            (0.3, 0.1, 0.4, 0.19999999999999998),
            (1.0, 0.9, 1.9, 0.09999999999999998),
            (
                9007199254740992.0,
                1.0,
                9007199254740992.0,
                9007199254740991.0,
            ),
            (
                9007199254740992.0,
                3.0,
                9007199254740996.0,
                9007199254740989.0,
            ),
            (LARGEST, LARGEST, f64::INFINITY, 0.0),
            (LARGEST, 1.0, LARGEST, LARGEST),
            (f64::INFINITY, f64::INFINITY, f64::INFINITY, f64::NAN),
            (f64::INFINITY, f64::NEG_INFINITY, f64::NAN, f64::INFINITY),
            (SMALLEST, SMALLEST, 1e-323, 0.0),
            (0.0, 0.0, 0.0, 0.0),
            (0.0, -0.0, 0.0, 0.0),
            (-0.0, 0.0, 0.0, -0.0),
            (-0.0, -0.0, -0.0, 0.0),
            (f64::NAN, 1.0, f64::NAN, f64::NAN),
        ],
    );
}

#[test]
fn products_and_quotients(rt: HostRuntime) {
    check_operations(
        &rt,
        f64::product,
        f64::quotient,
        &[
            (1.0, 3.0, 3.0, 0.3333333333333333),
            (2.0, 3.0, 6.0, 0.6666666666666666),
            (1.1, 1.1, 1.2100000000000002, 1.0),
            (0.1, 3.0, 0.30000000000000004, 0.03333333333333333),
            (1e308, 10.0, f64::INFINITY, 1e307),
            (-1e308, 10.0, f64::NEG_INFINITY, -1e307),
            (LARGEST, SMALLEST, 8.881784197001251e-16, f64::INFINITY),
            (SMALLEST, 2.0, 1e-323, 0.0),
            (-5e-324, 2.0, -1e-323, -0.0),
            (0.0, 0.0, 0.0, f64::NAN),
            (1.0, 0.0, 0.0, f64::INFINITY),
            (1.0, -0.0, -0.0, f64::NEG_INFINITY),
            (-1.0, f64::INFINITY, f64::NEG_INFINITY, -0.0),
            (0.0, f64::INFINITY, f64::NAN, 0.0),
            (f64::INFINITY, f64::INFINITY, f64::INFINITY, f64::NAN),
            (f64::NAN, 0.0, f64::NAN, f64::NAN),
        ],
    );
}

#[test]
fn zero_is_the_positive_one(rt: HostRuntime) {
    check_same(&rt, f64::zero(), 0.0);
}

#[test]
fn fit_when_finite_and_not_zero(rt: HostRuntime) {
    for (x, fit) in [
        (1.0, true),
        (-0.5, true),
        (LARGEST, true),
        (SMALLEST, true),
        (-5e-324, true),
        (0.0, false),
        (-0.0, false),
        (f64::INFINITY, false),
        (f64::NEG_INFINITY, false),
        (f64::NAN, false),
    ] {
        assert_eq!(rt; x.fit(), fit, "{}", x);
    }
}
