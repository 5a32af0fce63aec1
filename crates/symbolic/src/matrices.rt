// A permuted matrix with its filled pattern: the levels of its columns, the places of its entries, and whether its diagonal is filled.
ghost use Rattle.std.specs.Prelude.{◌≡◌, ◌<◌, map, length, vec_len, IfOk, option_map, nat_lt, filter};
ghost use Rattle.std.specs.List.{range_with_len};
ghost use Rattle.network.specs.NetworkSheet.{pattern};
ghost use Rattle.network.specs.OrderSheet.{orders};
ghost use Rattle.network.specs.Permuted.{place_in};
ghost use Rattle.elimination.specs.Plans.{diagonals_checked, entry_place, levels_of, stored_place};
ghost use Rattle.symbolic.specs.Filling.{HoldsAll, filled_of};

use super::levels::level_after;
use super::patterns::{Filled, entries_above};
use network::{Entry, Permuted};
use refusals::Refusal;
use std::alloc::{AllocError, Global};

// A permuted matrix and the filled places that its entries come to.
#[derive(Drop)]
pub(crate) struct FilledMatrix {
    pub(crate) matrix: Permuted,
    pub(crate) filled: Filled,
    ghost holds: { HoldsAll matrix filled },
}

impl FilledMatrix {
    // The level of each column, from the first on.
    pub(crate) fn find_levels(&self, heap: Global) -> Result<Vec<u16>, AllocError>
        ensures { let m = self.now.matrix in IfOk result (λ v. v.items ≡ levels_of (filled_of m) m.network.n) }
    {
        let mut levels = Vec::new(heap);
        for column in &self.filled.columns {
            let level = level_after(&levels, self.filled.awaited_of(*column));
            levels.push(level)?;
        }
        Ok(levels)
    }

    // The place of an entry among the filled ones.
    fn place_of(&self, entry: Entry) -> usize
        requires row { entry.row < self.now.matrix.network.n }
        requires column { entry.column < self.now.matrix.network.n }
        ensures { let m = self.now.matrix in result ≡ stored_place (filled_of m) m.network.n entry.row entry.column }
    {
        let column = self.filled.columns[usize::from(entry.column)];
        column.start + entries_above(self.filled.entries_of(column), entry.row)
    }

    // The place of an entry of the network sheet, if it lies inside.
    fn place_of_entry(&self, entry: Entry) -> Option<usize>
        ensures { let m = self.now.matrix in result ≡ option_map (λ place. stored_place (filled_of m) m.network.n place.row place.column) (place_in (vec_len m.order.rows.numbers) (orders m.order) entry) }
    {
        let place = self.matrix.order().place(entry)?;
        Some(self.place_of(place))
    }

    // The place of each entry of the network sheet.
    pub(crate) fn find_places(&self, heap: Global) -> Result<Vec<usize>, AllocError>
        ensures { let m = self.now.matrix in IfOk result (λ v. v.items ≡ map (entry_place (pattern m.network) (orders m.order)) (range_with_len 0 (vec_len m.network.entries))) }
    {
        self.matrix
            .network()
            .entries()
            .iter()
            .filter_map(|entry| self.place_of_entry(*entry))
            .collect(heap)
    }

    // Every diagonal place has to be filled.
    pub(crate) fn check_diagonals(&self) -> Result<(), Refusal>
        ensures { let m = self.now.matrix in result ≡ diagonals_checked (filled_of m) m.network.n }
    {
        for (k, column) in self.filled.columns.iter().enumerate() {
            if !self.filled.has_diagonal(*column, k) {
                return Err(Refusal::DiagonalNotFilled(k));
            }
        }
        Ok(())
    }
}
