// A network as its sheet tells it.
ghost use Rattle.std.specs.Prelude.{◌≡◌, ℕ, ◌+◌, ◌<◌, ◌≤◌, true, get_or, vec_len, slice_index_or};
ghost use Rattle.network.specs.Entries.{after, origin};

use super::entries::Entry;

mod reading;
mod tellers;

pub(crate) use reading::NetworkSheet;

#[derive(Drop)]
pub struct Network {
    n: u16,
    entries: Vec<Entry>,
    ghost columns_fit: { (1 ≤ n) × (n ≤ 512) },
    ghost entries_fit: { (1 ≤ vec_len entries) × (vec_len entries ≤ 8192) },
    ghost inside: { (t : ℕ) → t < vec_len entries → ((get_or entries.items t origin).row < n) × ((get_or entries.items t origin).column < n) },
    ghost rising: { (t : ℕ) → t + 1 < vec_len entries → after (slice_index_or entries.items (t + 1) origin) (slice_index_or entries.items t origin) ≡ true },
}
