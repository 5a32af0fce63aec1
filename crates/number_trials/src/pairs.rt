// Pairs over doubles, over check numbers and over pairs.
use scalar::{Check, Pair, Scalar};
use std::fmt::Debug;
use std::process::Abort;
use std::test::Fail;

fn pair<T>((re, im): (T, T)) -> Pair<T> {
    Pair { re, im }
}

fn check_pair((re, im): (u32, u32)) -> Pair<Check> {
    pair((Check::new(re), Check::new(im)))
}

// Two pairs, and what each operation gives of them.
struct Case<N> {
    x: (N, N),
    y: (N, N),
    sum: (N, N),
    difference: (N, N),
    product: (N, N),
    quotient: (N, N),
}

const REAL_PAIRS: [Case<f64>; 5] = [
    Case {
        x: (10.0, 5.0),
        y: (3.0, 4.0),
        sum: (13.0, 9.0),
        difference: (7.0, 1.0),
        product: (10.0, 55.0),
        quotient: (2.0, -1.0),
    },
    Case {
        x: (1.0, 0.0),
        y: (0.0, 1.0),
        sum: (1.0, 1.0),
        difference: (1.0, -1.0),
        product: (0.0, 1.0),
        quotient: (0.0, -1.0),
    },
    Case {
        x: (2.0, 4.0),
        y: (4.0, 2.0),
        sum: (6.0, 6.0),
        difference: (-2.0, 2.0),
        product: (0.0, 20.0),
        quotient: (0.8, 0.6),
    },
    Case {
        x: (1.0, 1.0),
        y: (1.0, -1.0),
        sum: (2.0, 0.0),
        difference: (0.0, 2.0),
        product: (2.0, 0.0),
        quotient: (0.0, 1.0),
    },
    Case {
        x: (0.5, -2.0),
        y: (0.0, 4.0),
        sum: (0.5, 2.0),
        difference: (0.5, -6.0),
        product: (8.0, 2.0),
        quotient: (-0.5, -0.125),
    },
];

const CHECK_PAIRS: [Case<u32>; 5] = [
    Case {
        x: (10, 5),
        y: (3, 4),
        sum: (13, 9),
        difference: (7, 1),
        product: (10, 55),
        quotient: (2, 250),
    },
    Case {
        x: (1, 0),
        y: (0, 1),
        sum: (1, 1),
        difference: (1, 250),
        product: (0, 1),
        quotient: (0, 250),
    },
    Case {
        x: (2, 4),
        y: (4, 2),
        sum: (6, 6),
        difference: (249, 2),
        product: (0, 20),
        quotient: (51, 101),
    },
    Case {
        x: (200, 7),
        y: (13, 250),
        sum: (213, 6),
        difference: (187, 8),
        product: (97, 142),
        quotient: (188, 15),
    },
    Case {
        x: (0, 1),
        y: (2, 3),
        sum: (2, 4),
        difference: (249, 249),
        product: (248, 2),
        quotient: (174, 116),
    },
];

fn check_operations<N: Copy, T: Scalar + PartialEq + Debug, F: Fn((N, N)) -> T>(
    rt: &impl Abort,
    of: F,
    cases: &[Case<N>],
)
    requires { F.IsAlwaysCallable of }
{
    for case in cases {
        let (x, y) = (of(case.x), of(case.y));
        assert_eq!(rt; x.sum(y), of(case.sum));
        assert_eq!(rt; x.difference(y), of(case.difference));
        assert_eq!(rt; x.product(y), of(case.product));
        assert_eq!(rt; x.quotient(y), of(case.quotient));
    }
}

#[test]
fn real_pairs(rt: HostRuntime) {
    // a closure, since a generic function passed by its name is not proved
    check_operations(&rt, |parts| pair(parts), &REAL_PAIRS);
}

#[test]
fn check_pairs(rt: HostRuntime) {
    check_operations(&rt, check_pair, &CHECK_PAIRS);
}

#[test]
fn fit_of_real_pairs(rt: HostRuntime) {
    for (x, fit) in [
        ((3.0, 4.0), true),
        ((0.0, -1.0), true),
        ((1e150, 1e150), true),
        ((0.0, 0.0), false),
        ((0.0, -0.0), false),
        ((1e200, 0.0), false),
        ((1e-200, 1e-200), false),
        ((f64::INFINITY, 0.0), false),
        ((1.0, f64::NAN), false),
    ] {
        assert_eq!(rt; pair(x).fit(), fit);
    }
}

#[test]
fn all_check_pairs_but_zero_are_fit(rt: HostRuntime) {
    assert_eq!(rt; Pair::<Check>::zero(), check_pair((0, 0)));
    for re in 0..251u32 {
        for im in 0..251u32 {
            assert_eq!(rt; check_pair((re, im)).fit(), re != 0 || im != 0);
        }
    }
}

#[test]
fn pairs_of_pairs(rt: HostRuntime) {
    let x = pair((check_pair((1, 2)), check_pair((3, 4))));
    assert_eq!(rt; x.sum(Pair::<Pair<Check>>::zero()), x);
    // (1 + 2i)(1 + 2i) − (3 + 4i)(3 + 4i) and twice (1 + 2i)(3 + 4i)
    assert_eq!(rt;
        x.product(x),
        pair((check_pair((4, 231)), check_pair((241, 20))))
    );
}

#[test]
fn written_with_both_parts(rt: HostRuntime) -> Result<(), Fail> {
    let heap = rt.alloc();
    assert_eq!(rt; check_pair((2, 250)).to_string(heap)?.as_str(), "(2, 250)");
    assert_eq!(rt; pair((2.0, -0.5)).to_string(heap)?.as_str(), "(2, -0.5)");
    Ok(())
}
