// How numbers are written: a check number as its decimal digits, a pair as (a, b).
ghost use Rattle.std.specs.Prelude.{Some};
ghost use Rattle.scalar.specs.Shown.{check_text, pair_text};

use super::pairs::Pair;
use super::residues::Check;
use std::fmt;

impl fmt::Display for Check {
    ghost output = { λ x. Some (check_text x) };

    fn fmt<W: fmt::Write>(&self, f: &mut fmt::Formatter<W>) -> fmt::Result {
        let value = self.value();
        write!(f, "{value}")
    }
}

impl<T: fmt::Display> fmt::Display for Pair<T> {
    ghost output = { λ x. pair_text (T.Display.output x.re) (T.Display.output x.im) };

    fn fmt<W: fmt::Write>(&self, f: &mut fmt::Formatter<W>) -> fmt::Result {
        let re = &self.re;
        let im = &self.im;
        write!(f, "({re}, {im})")
    }
}
