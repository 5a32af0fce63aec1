// How check numbers are made, and their arithmetic.
ghost use Rattle.std.specs.Prelude.{◌≡◌, ◌%◌};
ghost use Rattle.scalar.specs.Residues.{check_of, inverse_of, Inverse, check};

use super::super::arithmetic::Scalar;
use super::Check;
use super::inverses::inverse_at;

// By a cast: `try_from` would add a branch that is never taken.
fn remainder(number: u32) -> u8
    ensures { result ≡ number % 251 }
{
    (number % 251) as u8
}

impl Check {
    // The check number of any number: its remainder by 251. No `From`, which loses nothing.
    pub fn new(number: u32) -> Check
        ensures { result ≡ check_of number }
    {
        Check {
            residue: remainder(number),
        }
    }

    // The number itself, 0 to 250.
    pub fn value(self) -> u32
        ensures { result ≡ self.residue }
    {
        u32::from(self.residue)
    }

    // The number whose product with this one is 1; 0 for 0.
    pub fn inverse(self) -> Check
        ensures value { result ≡ inverse_of self }
        ensures inverts { Inverse self result }
    {
        Check::new(u32::from(inverse_at(usize::from(self.residue))))
    }
}

impl Scalar for Check {
    ghost meaning = { check };

    fn zero() -> Check {
        Check::new(0)
    }

    fn sum(self, other: Check) -> Check {
        Check::new(self.value() + other.value())
    }

    fn difference(self, other: Check) -> Check {
        Check::new(self.value() + (251 - other.value()))
    }

    fn product(self, other: Check) -> Check {
        Check::new(self.value() * other.value())
    }

    fn quotient(self, divisor: Check) -> Check {
        self.product(divisor.inverse())
    }

    fn fit(self) -> bool {
        self.value() != 0
    }
}
