// Check numbers, against plain integers.
use scalar::{Check, Scalar};
use std::test::Fail;

#[test]
fn made_from_any_number(rt: HostRuntime) {
    for (number, residue) in [
        (0, 0),
        (1, 1),
        (250, 250),
        (251, 0),
        (252, 1),
        (1000, 247),
        (2147483648, 187),
        (4294967295, 122),
    ] {
        assert_eq!(rt; Check::new(number).value(), residue, "{}", number);
    }
}

#[test]
fn sums_differences_and_products_of_all(rt: HostRuntime) {
    for x in 0..251u32 {
        for y in 0..251u32 {
            let (a, b) = (Check::new(x), Check::new(y));
            let sum = if x + y < 251 { x + y } else { x + y - 251 };
            let difference = if y <= x { x - y } else { x + 251 - y };
            assert_eq!(rt; a.sum(b).value(), sum);
            assert_eq!(rt; a.difference(b).value(), difference);
            assert_eq!(rt; a.product(b).value(), x * y % 251);
        }
    }
}

// The only number below 251 whose product with p leaves 1, found by trying all.
fn tried_inverse(p: u8) -> u32 {
    (0..251u32)
        .find(|q| u32::from(p) * *q % 251 == 1)
        .unwrap_or(0)
}

#[test]
fn inverses_of_all(rt: HostRuntime) {
    assert_eq!(rt; Check::new(0).inverse(), Check::new(0));
    for p in 1..251u8 {
        let inverse = tried_inverse(p);
        let divisor = Check::new(u32::from(p));
        assert_eq!(rt; divisor.inverse().value(), inverse, "{}", p);
        assert_eq!(rt;
            Check::new(1).quotient(divisor),
            Check::new(inverse),
            "{}",
            p
        );
    }
}

#[test]
fn quotients(rt: HostRuntime) {
    for (x, p, quotient) in [
        (4, 2, 2),
        (2, 4, 126),
        (1, 2, 126),
        (1, 3, 84),
        (250, 250, 1),
        (5, 0, 0),
        (0, 7, 0),
        (1, 250, 250),
        (9, 13, 20),
    ] {
        assert_eq!(rt;
            Check::new(x).quotient(Check::new(p)).value(),
            quotient,
            "{}",
            x
        );
    }
}

#[test]
fn all_but_zero_are_fit(rt: HostRuntime) {
    assert_eq!(rt; Check::zero(), Check::new(0));
    assert_eq!(rt; Check::zero().fit(), false);
    for x in 1..251u32 {
        assert!(rt; Check::new(x).fit(), "{}", x);
    }
}

#[test]
fn written_as_digits(rt: HostRuntime) -> Result<(), Fail> {
    assert_eq!(rt; Check::new(0).to_string(rt.alloc())?.as_str(), "0");
    assert_eq!(rt; Check::new(501).to_string(rt.alloc())?.as_str(), "250");
    Ok(())
}
