// The two sheets that a station sends: the network's entries, and the order in which its pivots are taken.
#![tactic(auto)]

mod entries;
mod limits;
mod matrices;
mod networks;
mod numbers;
mod orders;
mod permutations;

pub use entries::Entry;
pub use limits::{MAX_COLUMNS, MAX_ENTRIES};
pub use matrices::Permuted;
pub use networks::Network;
pub use numbers::Reader;
pub use orders::Order;
pub use permutations::Permutation;
