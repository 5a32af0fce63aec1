// What a permutation tells.
ghost use Rattle.std.specs.Prelude.{◌≡◌, if◌then◌else◌, Some, None, vec_len, nat_lt, slice_index};
ghost use Rattle.network.specs.Permutations.{position};

use super::Permutation;

impl Permutation {
    pub fn size(&self) -> usize
        ensures { result ≡ vec_len self.now.numbers }
    {
        self.numbers.len()
    }

    // Its numbers, by index.
    pub fn numbers(&self) -> &[u16]
        ensures { result.now ≡ self.now.numbers.items }
    {
        self.numbers.as_slice()
    }

    // The number at an index, if there is such an index.
    pub fn number(&self, index: usize) -> Option<u16>
        ensures { result ≡ (if nat_lt index (vec_len self.now.numbers) then Some (slice_index self.now.numbers.items index) else None) }
    {
        self.numbers.get(index).copied()
    }

    // The index at which a number stands, if it is one of them.
    pub fn position(&self, number: u16) -> Option<u16>
        ensures { result ≡ (if nat_lt number (vec_len self.now.numbers) then Some (position self.now.numbers.items number) else None) }
    {
        self.positions.get(usize::from(number)).copied()
    }
}
