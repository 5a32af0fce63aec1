// The permuted matrix B: a network in the order in which its pivots are taken.
ghost use Rattle.std.specs.Prelude.{◌≡◌, vec_len};

use super::networks::Network;
use super::orders::Order;

mod reading;
mod tellers;

#[derive(Drop)]
pub struct Permuted {
    network: Network,
    order: Order,
    ghost same_size: { vec_len order.rows.numbers ≡ network.n },
}
