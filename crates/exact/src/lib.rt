// What exact means, and which arithmetics are exact.
#![tactic(auto)]

mod exactness;
mod theorems;

pub use exactness::Exactness;
pub use theorems::{exact_is_field, laws_of_doubles, minus_one_is_no_square, undone};
