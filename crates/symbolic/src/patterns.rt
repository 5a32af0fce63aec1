// The filled pattern, stored column after column.
ghost use Rattle.std.specs.Prelude.{◌≡◌, ℕ, ◌+◌, ◌<◌, ◌≤◌, ◌&&◌, ◌++◌, All, map, length, filter, vec_len, ◌==◌, nat_lt, OnOk, slice_index_or, slice_range};
ghost use Rattle.network.specs.Entries.{origin};
ghost use Rattle.elimination.specs.Fill.{Places};
ghost use Rattle.elimination.specs.Plans.{in_column};
ghost use Rattle.symbolic.specs.Marks.{marks_in, marked_rows};

use network::Entry;
use std::alloc::{AllocError, Global};

// Where a column stands among the filled entries.
#[derive(Clone, Copy)]
pub(crate) struct Column {
    pub(crate) start: usize,
    // the place of its diagonal, filled or not; the rows of the entries from start to it are the columns that it awaits
    pub(crate) diagonal: usize,
    // the start of the next column; kept here too, so that a column is a value of its own
    pub(crate) end: usize,
    ghost above: { start ≤ diagonal },
    ghost below: { diagonal ≤ end },
}

// The filled places of the columns so far. That it holds them is no ghost field: where memory is wanting, a part of a column's entries may stay.
#[derive(Drop)]
pub(crate) struct Filled {
    // the filled entries, by column, then by row
    pub(crate) entries: Vec<Entry>,
    pub(crate) columns: Vec<Column>,
    ghost inside: { All (λ column. column.end ≤ vec_len entries) columns.items },
}

// How many entries stand above a row; by a loop, as in `width`, since a chain of `filter` and `count` is slow.
pub(crate) fn entries_above(entries: &[Entry], row: u16) -> usize
    ensures { result ≡ length (filter (λ entry. nat_lt entry.row row) entries.now) }
{
    let mut above = 0;
    for entry in entries {
        if entry.row < row {
            above += 1;
        }
    }
    above
}

// Adds the marked rows of column k. A row is narrowed by a cast: `try_from` would add a branch that is never taken, and `(0u16..).zip(marks)` is no plainer than `enumerate`.
fn gather(entries: &mut Vec<Entry>, marks: &[bool], k: u16) -> Result<(), AllocError>
    requires { length marks.now ≤ 512 }
    ensures items { OnOk result (entries.new.items ≡ entries.old.items ++ map (in_column k) (marked_rows marks.now)) }
    ensures grows { vec_len entries.old ≤ vec_len entries.new }
{
    for (i, marked) in marks.iter().enumerate() {
        if *marked {
            entries.push(Entry {
                row: i as u16,
                column: k,
            })?;
        }
    }
    Ok(())
}

impl Filled {
    ghost use Rattle.symbolic.specs.Filling.{Holds};

    // With no column.
    pub(crate) fn new(heap: Global) -> Filled
        ensures { (f : Places) (n : ℕ) → Holds f n 0 result }
    {
        Filled {
            entries: Vec::new(heap),
            columns: Vec::new(heap),
        }
    }

    // Adds the next column, whose filled rows are marked. Where memory is wanting, a part of its entries may stay.
    pub(crate) fn add_column(&mut self, marks: &[bool]) -> Result<(), AllocError>
        requires few { length marks.now ≤ 512 }
        requires inside { vec_len self.old.columns < length marks.now }
        ensures { let k = vec_len self.old.columns in OnOk result ((f : Places) (n : ℕ) → marks.now ≡ marks_in f n k → Holds f n k self.old → Holds f n (k + 1) self.new) }
    {
        // by a cast, as the rows
        let k = self.columns.len() as u16;
        let start = self.entries.len();
        gather(&mut self.entries, marks, k)?;
        self.columns.push(Column {
            start,
            diagonal: start + entries_above(&self.entries[start..], k),
            end: self.entries.len(),
        })?;
        Ok(())
    }

    // The filled entries of a column.
    pub(crate) fn entries_of(&self, column: Column) -> &[Entry]
        requires { column.end ≤ vec_len self.now.entries }
        ensures { result.now ≡ slice_range self.now.entries.items column.start column.end }
    {
        &self.entries[column.start..column.end]
    }

    // Its entries above the diagonal: their rows are the columns that it awaits.
    pub(crate) fn awaited_of(&self, column: Column) -> &[Entry]
        requires { column.end ≤ vec_len self.now.entries }
        ensures { result.now ≡ slice_range self.now.entries.items column.start column.diagonal }
    {
        &self.entries[column.start..column.diagonal]
    }

    // Whether the diagonal place of column k is filled: the column goes on there with its own number.
    pub(crate) fn has_diagonal(&self, column: Column, k: usize) -> bool
        requires { column.end ≤ vec_len self.now.entries }
        ensures { result ≡ (nat_lt column.diagonal column.end && (slice_index_or self.now.entries.items column.diagonal origin).row == k) }
    {
        let Column { diagonal, end, .. } = column;
        diagonal < end && usize::from(self.entries[diagonal].row) == k
    }
}
