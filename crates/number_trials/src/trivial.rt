// The trivial arithmetic, always zero and never fit, meets the promises of a Scalar too.
ghost use Rattle.std.specs.Prelude.{false};

use scalar::Scalar;

#[derive(Clone, Copy, PartialEq, Eq, Debug)]
struct Trivial {
    number: u8,
}

const ZERO: Trivial = Trivial { number: 0 };

impl Scalar for Trivial {
    ghost meaning = { record { zero = record { number = 0 }; sum = λ x y. record { number = 0 }; difference = λ x y. record { number = 0 }; product = λ x y. record { number = 0 }; quotient = λ x y. record { number = 0 }; fit = λ x. false } };

    fn zero() -> Trivial {
        ZERO
    }

    fn sum(self, _other: Trivial) -> Trivial {
        ZERO
    }

    fn difference(self, _other: Trivial) -> Trivial {
        ZERO
    }

    fn product(self, _other: Trivial) -> Trivial {
        ZERO
    }

    fn quotient(self, _divisor: Trivial) -> Trivial {
        ZERO
    }

    fn fit(self) -> bool {
        false
    }
}

#[test]
fn always_zero_and_never_fit(rt: HostRuntime) {
    let (x, y) = (Trivial { number: 7 }, Trivial { number: 3 });
    assert_eq!(rt; x.sum(y), ZERO);
    assert_eq!(rt; x.quotient(y), ZERO);
    assert_eq!(rt; x.fit(), false);
}
