// The numbers that a network is factored with: doubles for direct current, pairs of them for alternating current, and exact check numbers.
#![tactic(auto)]

mod arithmetic;
mod doubles;
mod pairs;
mod residues;
mod shown;

pub use arithmetic::Scalar;
pub use pairs::Pair;
pub use residues::Check;
