// The one trait that every rule of the solver is written over.
ghost use Rattle.std.specs.Prelude.{◌≡◌};
ghost use Rattle.scalar.specs.Meaning.{Meaning};

// A kind of number. `meaning` says what each function gives, for all operands, and code for any Scalar is proved from it alone.
pub trait Scalar: Copy {
    ghost meaning: { Meaning Self };

    fn zero() -> Self
        ensures { result ≡ meaning.zero };

    fn sum(self, other: Self) -> Self
        ensures { result ≡ meaning.sum self other };

    fn difference(self, other: Self) -> Self
        ensures { result ≡ meaning.difference self other };

    fn product(self, other: Self) -> Self
        ensures { result ≡ meaning.product self other };

    fn quotient(self, divisor: Self) -> Self
        ensures { result ≡ meaning.quotient self divisor };

    // Whether the number may stand as a pivot.
    fn fit(self) -> bool
        ensures { result ≡ meaning.fit self };
}
