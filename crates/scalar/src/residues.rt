// Check: the whole numbers 0 to 250 modulo 251.
ghost use Rattle.std.specs.Prelude.{◌<◌};

mod inverses;
pub mod operations;

// A check number. None outside the range exists.
#[derive(Clone, Copy, PartialEq, Eq, Debug)]
pub struct Check {
    residue: u8,
    ghost small: { residue < 251 },
}
