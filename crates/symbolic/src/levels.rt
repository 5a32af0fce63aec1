// Levels: a column stands one above the highest column that it awaits. The sequence takes the columns level by level.
ghost use Rattle.std.specs.Prelude.{◌≡◌, ◌<◌, ◌≤◌, ◌++◌, All, map, length, IfOk, OnOk};
ghost use Rattle.elimination.specs.Plans.{level_past, of_level, sequence_of, cluster_levels_of};
ghost use Rattle.elimination.specs.Storage.{row_of};

use network::Entry;
use std::alloc::{AllocError, Global};

// One above the highest of the awaited columns, which are the rows of these entries, or 0 where there is none.
pub(crate) fn level_after(levels: &[u16], awaited: &[Entry]) -> u16
    requires inside { All (λ entry. entry.row < length levels.now) awaited.now }
    requires low { All (λ level. level < 512) levels.now }
    ensures { result ≡ level_past levels.now (map row_of awaited.now) }
{
    awaited
        .iter()
        .map(|entry| levels[usize::from(entry.row)] + 1)
        .max()
        .unwrap_or(0)
}

// Adds the columns of one level, rising. A column is narrowed by a cast: `try_from` would add a branch that is never taken, and `(0u16..).zip(levels)` is no plainer than `enumerate`.
fn add_level(sequence: &mut Vec<u16>, levels: &[u16], level: usize) -> Result<(), AllocError>
    requires { length levels.now ≤ 512 }
    ensures { OnOk result (sequence.new.items ≡ sequence.old.items ++ of_level levels.now level) }
{
    for (k, other) in levels.iter().enumerate() {
        if usize::from(*other) == level {
            sequence.push(k as u16)?;
        }
    }
    Ok(())
}

// The columns by level and within a level by number.
pub(crate) fn find_sequence(heap: Global, levels: &[u16]) -> Result<Vec<u16>, AllocError>
    requires { length levels.now ≤ 512 }
    ensures { IfOk result (λ v. v.items ≡ sequence_of levels.now) }
{
    let mut sequence = Vec::new(heap);
    for level in 0..levels.len() {
        add_level(&mut sequence, levels, level)?;
    }
    Ok(sequence)
}

// How many columns a level has. An iterator through them for this and for add_level would be longer than both, and a stable sort by level in place of add_level would need that two orders of one list are the same.
fn width(levels: &[u16], level: usize) -> usize
    ensures { result ≡ length (of_level levels.now level) }
{
    let mut columns = 0;
    for other in levels {
        if usize::from(*other) == level {
            columns += 1;
        }
    }
    columns
}

// How many levels have at least threshold columns, before the first that has fewer.
pub(crate) fn count_cluster_levels(levels: &[u16], threshold: u16) -> usize
    ensures { result ≡ cluster_levels_of levels.now threshold }
{
    (0..levels.len())
        .take_while(|level| width(levels, *level) >= usize::from(threshold))
        .count()
}
