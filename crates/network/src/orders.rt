// The order in which a network's rows and columns are taken.
ghost use Rattle.std.specs.Prelude.{◌≡◌, vec_len};

use super::permutations::Permutation;

mod reading;
mod tellers;

pub(crate) use reading::OrderSheet;

#[derive(Drop)]
pub struct Order {
    rows: Permutation,
    columns: Permutation,
    ghost same: { vec_len rows.numbers ≡ vec_len columns.numbers },
}
