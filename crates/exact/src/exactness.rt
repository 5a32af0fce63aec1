// Which kinds of number are exact.
ghost use Rattle.exact.specs.Telling.{TellsExact};

use scalar::{Check, Pair, Scalar};

// An arithmetic of which it is known whether it is exact.
pub trait Exactness: Scalar {
    fn is_exact() -> bool
        ensures { TellsExact Self.Scalar.meaning result };
}

impl Exactness for f64 {
    fn is_exact() -> bool {
        false
    }
}

impl Exactness for Check {
    fn is_exact() -> bool {
        true
    }
}

// One impl for all pairs is no plainer: they are exact only where −1 is no square in T, so T would need a further trait with that law.
impl Exactness for Pair<f64> {
    fn is_exact() -> bool {
        false
    }
}

impl Exactness for Pair<Check> {
    fn is_exact() -> bool {
        true
    }
}
