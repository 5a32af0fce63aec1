// A list in which each of 0 to n - 1 stands once.
ghost use Rattle.std.specs.Prelude.{◌≡◌, ℕ, ◌<◌, ◌≤◌, vec_len, slice_index};
ghost use Rattle.network.specs.Permutations.{position};

mod reading;
mod tellers;

pub(crate) use reading::NumberList;

#[derive(Drop)]
pub struct Permutation {
    numbers: Vec<u16>,
    // the index of each number, found at the number itself: no list beside the first, but a map from 0 to n - 1
    positions: Vec<u16>,
    ghost small: { vec_len numbers ≤ 512 },
    ghost long: { vec_len positions ≡ vec_len numbers },
    ghost below: { (i : ℕ) → i < vec_len numbers → slice_index numbers.items i < vec_len numbers },
    ghost stands: { (v : ℕ) → v < vec_len numbers → (position numbers.items v < vec_len numbers) × (slice_index numbers.items (position numbers.items v) ≡ v) },
    ghost back: { (i : ℕ) → i < vec_len numbers → position numbers.items (slice_index numbers.items i) ≡ i },
    ghost told: { (v : ℕ) → v < vec_len numbers → slice_index positions.items v ≡ position numbers.items v },
}
