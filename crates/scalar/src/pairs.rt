// Pairs (a, b) that stand for a + bi, over any arithmetic.
ghost use Rattle.std.specs.Prelude.{◌≡◌};
ghost use Rattle.scalar.specs.Pairs.{pairs, magnitude_squared};

use super::arithmetic::Scalar;

#[derive(Clone, Copy, PartialEq, Eq, Debug)]
pub struct Pair<T> {
    pub re: T,
    pub im: T,
}

// cc + dd for (c, d), the square of its magnitude.
fn squared_magnitude<T: Scalar>(y: Pair<T>) -> T
    ensures { result ≡ magnitude_squared T.Scalar.meaning y }
{
    y.re.product(y.re).sum(y.im.product(y.im))
}

impl<T: Scalar> Scalar for Pair<T> {
    ghost meaning = { pairs T.Scalar.meaning };

    fn zero() -> Pair<T> {
        Pair {
            re: T::zero(),
            im: T::zero(),
        }
    }

    fn sum(self, other: Pair<T>) -> Pair<T> {
        Pair {
            re: self.re.sum(other.re),
            im: self.im.sum(other.im),
        }
    }

    fn difference(self, other: Pair<T>) -> Pair<T> {
        Pair {
            re: self.re.difference(other.re),
            im: self.im.difference(other.im),
        }
    }

    fn product(self, other: Pair<T>) -> Pair<T> {
        Pair {
            re: self
                .re
                .product(other.re)
                .difference(self.im.product(other.im)),
            im: self.re.product(other.im).sum(self.im.product(other.re)),
        }
    }

    fn quotient(self, divisor: Pair<T>) -> Pair<T> {
        let m = squared_magnitude(divisor);
        let re = self.re.product(divisor.re).sum(self.im.product(divisor.im));
        let im = self
            .im
            .product(divisor.re)
            .difference(self.re.product(divisor.im));
        Pair {
            re: re.quotient(m),
            im: im.quotient(m),
        }
    }

    fn fit(self) -> bool {
        squared_magnitude(self).fit()
    }
}
