// The entries of a network: the places where its matrix may hold a number.
ghost use Rattle.std.specs.Prelude.{◌≡◌, IfNone};
ghost use Rattle.network.specs.Entries.{after};

use super::numbers::Reader;
use std::fmt;

// Entries are in order by column, then by row.
#[derive(Clone, Copy, PartialEq, Eq, PartialOrd, Ord)]
pub struct Entry {
    pub column: u16,
    pub row: u16,
}

impl Entry {
    // Whether it comes after another.
    pub fn is_after(self, other: Entry) -> bool
        ensures { result ≡ after self other }
    {
        // two comparisons, since `self > other` takes half as long again; they are the same
        let after = other.column < self.column
            || (other.column == self.column && other.row < self.row);
        let derived = self > other;
        prove!(after == derived);
        after
    }
}

// Shown with its row first, as an entry is written, though its column comes first in the order.
impl fmt::Debug for Entry {
    fn fmt<W: fmt::Write>(&self, f: &mut fmt::Formatter<W>) -> fmt::Result {
        f.debug_struct("Entry")
            .field("row", &self.row)
            .field("column", &self.column)
            .finish()
    }
}

// Reads entries whose rows stand in one list and whose columns in another. A `zip` of two readers is no plainer: each user would make entries of pairs, and what is left would be told of two lists.
#[derive(Drop)]
pub(crate) struct EntryReader<'a> {
    rows: Reader<'a>,
    columns: Reader<'a>,
}

impl<'a> EntryReader<'a> {
    // The rows stand from the first position on, the columns from the second.
    pub(crate) fn new(bytes: &'a [u8], rows: usize, columns: usize) -> EntryReader<'a>
        ensures rows { (result.rows.bytes.now ≡ bytes.now) × (result.rows.at ≡ rows) }
        ensures columns { (result.columns.bytes.now ≡ bytes.now) × (result.columns.at ≡ columns) }
    {
        EntryReader {
            rows: Reader::new(bytes, rows),
            columns: Reader::new(bytes, columns),
        }
    }
}

impl Iterator for EntryReader<'_> {
    type Item = Entry;

    ghost use Rattle.std.specs.Iterator.{YieldsFirst, item_count};
    ghost use Rattle.network.specs.EntryReading.{entries_left};

    ghost next_gives = { YieldsFirst entries_left };

    ghost remaining = { item_count entries_left };

    // The columns, which stand last in a sheet, are read first: where they end, no number is read again as a row.
    #[tactic(auto, using(crate::proofs::EntryPairs::first_pair, crate::proofs::Reading::first_left))]
    fn next(&mut self) -> Option<Entry>
        ensures steps { YieldsFirst entries_left self.old result self.new }
        ensures unread { IfNone result (self.new.rows.at ≡ self.old.rows.at) }
    {
        let column = self.columns.next()?;
        let row = self.rows.next()?;
        Some(Entry { column, row })
    }
}
