// A table of a matrix's entries.
ghost use Rattle.std.specs.Prelude.{◌≡◌, ◌*◌, ◌<◌, ◌≤◌, length};

// Whether a matrix of n columns has an entry at each place, row by row.
#[derive(Clone, Copy)]
pub(crate) struct Table<'a> {
    pub(crate) n: usize,
    pub(crate) marks: &'a [bool],
    ghost few: { n ≤ 512 },
    ghost whole: { length marks.now ≡ n * n },
}

impl Table<'_> {
    ghost use Rattle.symbolic.specs.Marks.{marks_in};
    ghost use Rattle.symbolic.specs.Tables.{tabled};

    // Whether there is an entry in row i of column k. Its place is worked out, since a slice has one index.
    fn has_entry(&self, i: usize, k: usize) -> bool
        requires row { i < self.now.n }
        requires column { k < self.now.n }
        ensures { result ≡ tabled self.now i k }
    {
        self.marks[i * self.n + k]
    }

    // Marks the rows in which column k has an entry, and no others.
    pub(crate) fn copy_column(&self, k: usize, marks: &mut [bool])
        requires long { length marks.old ≡ self.now.n }
        requires inside { k < self.now.n }
        ensures { marks.new ≡ marks_in (tabled self.now) self.now.n k }
    {
        for (i, mark) in marks.iter_mut().enumerate() {
            *mark = self.has_entry(i, k);
        }
    }
}
