// Real: the IEEE 754 double, each operation rounded once.
ghost use Rattle.scalar.specs.Real.{real};

use super::arithmetic::Scalar;

impl Scalar for f64 {
    ghost meaning = { real };

    fn zero() -> f64 {
        0.0
    }

    fn sum(self, other: f64) -> f64 {
        self + other
    }

    fn difference(self, other: f64) -> f64 {
        self - other
    }

    fn product(self, other: f64) -> f64 {
        self * other
    }

    fn quotient(self, divisor: f64) -> f64 {
        self / divisor
    }

    fn fit(self) -> bool {
        self.is_finite() && self != f64::zero()
    }
}
