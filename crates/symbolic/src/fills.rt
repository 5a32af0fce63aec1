// The filled pattern, column by column: a column has its entries and, of each column that it awaits, the rows below that one's diagonal.
ghost use Rattle.std.specs.Prelude.{◌≡◌, ℕ, ◌<◌, false, ◌&&◌, ◌||◌, All, map, length, nat_lt, slice_index_or, vec_len};
ghost use Rattle.network.specs.Permutations.{met};
ghost use Rattle.elimination.specs.Plans.{limit_checked};
ghost use Rattle.elimination.specs.Storage.{row_of};
ghost use Rattle.symbolic.specs.Filling.{Holds};
ghost use Rattle.symbolic.specs.Marks.{marks_in};
ghost use Rattle.symbolic.specs.Tables.{filled_from};
ghost use Rattle.symbolic.specs.Trying.{Tries};

use super::patterns::Filled;
use super::tables::Table;
use network::Entry;
use refusals::Refusal;
use std::alloc::Global;

// at most so many places are filled
pub const MAX_FILLED: usize = 8192;

// Marks those rows of a column's entries that lie below row j.
fn spread(marks: &mut [bool], entries: &[Entry], j: usize)
    requires { All (λ entry. entry.row < length marks.old) entries.now }
    ensures { (i : ℕ) → i < length marks.old → slice_index_or marks.new i false ≡ (slice_index_or marks.old i false || (nat_lt j i && met i (map row_of entries.now))) }
{
    for entry in entries {
        let i = usize::from(entry.row);
        if i > j {
            marks[i] = true;
        }
    }
}

// Marks the filled rows of the column after those that are stored.
fn fill_column(marks: &mut [bool], table: &Table<'_>, filled: &Filled)
    requires long { length marks.old ≡ table.now.n }
    requires inside { vec_len filled.now.columns < table.now.n }
    requires holds { Holds (filled_from table.now) table.now.n (vec_len filled.now.columns) filled.now }
    ensures { marks.new ≡ marks_in (filled_from table.now) table.now.n (vec_len filled.now.columns) }
{
    table.copy_column(filled.columns.len(), marks);
    for (j, column) in filled.columns.iter().enumerate() {
        // the marks change on the way, so each is read where it stands
        if marks[j] {
            spread(marks, filled.entries_of(*column), j);
        }
    }
}

// The filled pattern of the matrix whose entries are in a table, unless it is too large.
pub(crate) fn fill(heap: Global, table: &Table<'_>) -> Result<Filled, Refusal>
    ensures { let f = filled_from table.now in let n = table.now.n in Tries (limit_checked f n) (Holds f n n) result }
{
    let mut filled = Filled::new(heap);
    let mut marks = vec![in heap; false; table.n]?;
    for k in 0..table.n {
        fill_column(&mut marks, table, &filled);
        filled.add_column(&marks)?;
        if filled.entries.len() > MAX_FILLED {
            return Err(Refusal::FillLimit(k));
        }
    }
    Ok(filled)
}
