// What follows from exactness, for any arithmetic, and how doubles fall short of it.
ghost use Rattle.std.specs.Prelude.{◌≡◌, true};
ghost use Rattle.exact.specs.Exact.{Exact};
ghost use Rattle.scalar.specs.Pairs.{pairs};
ghost use Rattle.scalar.specs.Residues.{check};
ghost use Rattle.exact.specs.Field.{Field};
ghost use Rattle.exact.specs.FitDoubles.{FitDoubles};
ghost use Rattle.exact.specs.Rounding.{Rounds};
ghost use Rattle.exact.specs.Squares.{MinusOneNoSquare};

use scalar::Scalar;

// x divided by p and multiplied by p again: x itself, where the arithmetic is exact and p is fit.
pub fn undone<T: Scalar>(x: T, p: T) -> T
    ensures value { result ≡ T.Scalar.meaning.product (T.Scalar.meaning.quotient x p) p }
    ensures exact { Exact T.Scalar.meaning → T.Scalar.meaning.fit p ≡ true → result ≡ x }
{
    x.quotient(p).product(p)
}

// An exact arithmetic is a field, and pairs over it are exact where −1 is no square.
pub fn exact_is_field<T: Scalar>()
    ensures field { Exact T.Scalar.meaning → Field T.Scalar.meaning }
    ensures of_pairs { Exact T.Scalar.meaning → MinusOneNoSquare T.Scalar.meaning → Exact (pairs T.Scalar.meaning) }
{}

// No check number times itself is −1.
pub fn minus_one_is_no_square()
    ensures { MinusOneNoSquare check }
{}

// Which doubles are fit, and doubles at which a law of exact arithmetics fails.
pub fn laws_of_doubles()
    ensures fit { FitDoubles }
    ensures rounding { Rounds }
{}
