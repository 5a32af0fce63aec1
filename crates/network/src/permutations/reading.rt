// Judges a list of numbers in a sheet and reads it.
ghost use Rattle.std.specs.Prelude.{◌≡◌, ◌/◌, ◌≤◌, false, not, ◌&&◌, IfOk, length, nat_lt, slice_index_or};
ghost use Rattle.refusals.specs.Checks.{Passes};
ghost use Rattle.network.specs.OrderSheet.{numbers_checked};
ghost use Rattle.network.specs.Permutations.{Distinct, Inverts};
ghost use Rattle.network.specs.Words.{words_from};

use super::super::limits::MAX_COLUMNS;
use super::super::numbers::Reader;
use super::Permutation;
use refusals::Refusal;
use std::alloc::{AllocError, Global};

// by a cast, since a constant calls no function
const MARKS: usize = MAX_COLUMNS as usize;

// Whether a number has a mark, and it is not set.
fn is_new(seen: &[bool], number: u16) -> bool
    ensures { result ≡ (nat_lt number (length seen.now) && not (slice_index_or seen.now number false)) }
{
    seen.get(usize::from(number)).is_some_and(|mark| !*mark)
}

// The bytes of n numbers in which each of 0 to n - 1 stands once.
#[derive(Clone, Copy)]
pub(crate) struct NumberList<'a> {
    bytes: &'a [u8],
    ghost few: { length bytes.now ≤ 1024 },
    ghost distinct: { Distinct (words_from bytes.now 0) },
}

impl<'a> NumberList<'a> {
    // Refuses the first number that is n or more, or met before; the first index is called `base`.
    // The limit on the bytes is required here and by the two callers: a type for bytes before their check would be made and taken apart within one call.
    pub(crate) fn check(bytes: &'a [u8], base: usize) -> Result<NumberList<'a>, Refusal>
        requires { (length bytes.now ≤ 1024) × (base ≤ 512) }
        ensures { Passes (numbers_checked (length bytes.now / 2) (words_from bytes.now 0) base) (λ list. list.bytes.now ≡ bytes.now) result }
    {
        // an array, since no memory is asked for yet
        let mut marks = [false; MARKS];
        let seen = &mut marks[..bytes.len() / 2];
        for (i, number) in Reader::new(bytes, 0).enumerate() {
            if !is_new(seen, number) {
                return Err(Refusal::OrderNumber(base + i));
            }
            seen[usize::from(number)] = true;
        }
        Ok(NumberList { bytes })
    }

    // The index of each of its numbers.
    fn positions(&self, heap: Global, numbers: &[u16]) -> Result<Vec<u16>, AllocError>
        requires { numbers.now ≡ words_from self.now.bytes.now 0 }
        ensures { IfOk result (λ v. Inverts v.items numbers.now) }
    {
        let mut positions = vec![in heap; 0u16; numbers.len()]?;
        for (i, number) in numbers.iter().enumerate() {
            // by a cast: `try_from` would add a branch that is never taken, and `(0u16..).zip(numbers)` is no plainer than `enumerate`
            positions[usize::from(*number)] = i as u16;
        }
        Ok(positions)
    }

    pub(crate) fn read(&self, heap: Global) -> Result<Permutation, AllocError>
        ensures { IfOk result (λ p. p.numbers.items ≡ words_from self.now.bytes.now 0) }
    {
        let numbers: Vec<u16> = Reader::new(self.bytes, 0).collect(heap)?;
        let positions = self.positions(heap, &numbers)?;
        Ok(Permutation { numbers, positions })
    }
}
