// Which arithmetics are exact, and a quotient multiplied back.
use exact::{Exactness, undone};
use scalar::{Check, Pair};

#[test]
fn check_numbers_are_exact_and_doubles_are_not(rt: HostRuntime) {
    assert_eq!(rt; Check::is_exact(), true);
    assert_eq!(rt; Pair::<Check>::is_exact(), true);
    assert_eq!(rt; f64::is_exact(), false);
    assert_eq!(rt; Pair::<f64>::is_exact(), false);
}

#[test]
fn check_quotients_multiply_back(rt: HostRuntime) {
    for x in 0..251u32 {
        for p in 1..251u32 {
            assert_eq!(rt; undone(Check::new(x), Check::new(p)), Check::new(x));
        }
        assert_eq!(rt; undone(Check::new(x), Check::new(0)), Check::new(0));
    }
}

#[test]
fn rounded_quotients_need_not(rt: HostRuntime) {
    assert_eq!(rt; undone(1.0, 3.0), 1.0);
    assert_eq!(rt; undone(1.0, 49.0), 0.9999999999999999);
    let x = Pair { re: 3.0, im: 2.0 };
    let p = Pair { re: 2.0, im: 4.0 };
    assert_eq!(rt;
        undone(x, p),
        Pair {
            re: 3.0,
            im: 1.9999999999999998,
        }
    );
}
