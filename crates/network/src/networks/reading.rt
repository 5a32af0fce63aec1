// Judges a network sheet and reads it.
ghost use Rattle.std.specs.Prelude.{◌≡◌, IfOk, Ok};
ghost use Rattle.refusals.specs.Checks.{Answers, Passes, passed};
ghost use Rattle.network.specs.Entries.{entries_of};
ghost use Rattle.network.specs.EntryReading.{entries_left};
ghost use Rattle.network.specs.NetworkSheet.{head_checked, entry_checked, entries_checked, network_checked, network_of, pattern};
ghost use Rattle.refusals.specs.Judging.{Judges};
ghost use Rattle.network.specs.Wrong.{NetworkWrong};

use super::super::entries::{Entry, EntryReader};
use super::super::limits::{MAX_COLUMNS, MAX_ENTRIES};
use super::super::numbers::Reader;
use super::Network;
use refusals::Refusal;
use std::alloc::{AllocError, Global};

// The n and e at the head of a network sheet, where they are within their limits and its length goes with them.
#[derive(Clone, Copy)]
struct Head<'a> {
    sheet: &'a [u8],
    n: u16,
    e: u16,
    ghost checked: { head_checked sheet.now ≡ Ok (n, e) },
}

impl<'a> Head<'a> {
    fn check(sheet: &'a [u8]) -> Result<Head<'a>, Refusal>
        ensures { Passes (head_checked sheet.now) (λ head. head.sheet.now ≡ sheet.now) result }
    {
        let mut reader = Reader::new(sheet, 0);
        let cut = Refusal::NetworkCut(sheet.len());
        let n = reader.next().ok_or(cut)?;
        let e = reader.next().ok_or(cut)?;
        if !(1..=MAX_COLUMNS).contains(&n) {
            return Err(Refusal::ColumnCount(n));
        }
        if !(1..=MAX_ENTRIES).contains(&e) {
            return Err(Refusal::EntryCount(e));
        }
        if sheet.len() != 4 + 4 * usize::from(e) {
            return Err(Refusal::NetworkLength(sheet.len()));
        }
        Ok(Head { sheet, n, e })
    }

    // The entries, one after another.
    fn entries(&self) -> EntryReader<'a>
        ensures { entries_left result ≡ entries_of self.now.sheet.now self.now.e }
    {
        EntryReader::new(self.sheet, 4, 4 + 2 * usize::from(self.e))
    }

    fn check_entries(&self) -> Result<(), Refusal>
        ensures { result ≡ entries_checked self.now.sheet.now self.now.n self.now.e }
    {
        let mut before = None;
        for (t, entry) in self.entries().enumerate() {
            check_entry(self.n, t, before, entry)?;
            before = Some(entry);
        }
        Ok(())
    }
}

fn check_entry(n: u16, t: usize, before: Option<Entry>, entry: Entry) -> Result<(), Refusal>
    ensures { result ≡ entry_checked n t before entry }
{
    if entry.row >= n || entry.column >= n {
        return Err(Refusal::EntryOutside(t));
    }
    if let Some(other) = before
        && !entry.is_after(other)
    {
        return Err(Refusal::EntryNotAfter(t));
    }
    Ok(())
}

// A network sheet that is in order.
#[derive(Clone, Copy)]
pub(crate) struct NetworkSheet<'a> {
    head: Head<'a>,
    ghost checked: { entries_checked head.sheet.now head.n head.e ≡ passed },
}

impl<'a> NetworkSheet<'a> {
    // The sheet, or the first thing that is wrong with it.
    pub(crate) fn check(sheet: &'a [u8]) -> Result<NetworkSheet<'a>, Refusal>
        ensures { Passes (network_checked sheet.now) (λ checked. checked.head.sheet.now ≡ sheet.now) result }
    {
        let head = Head::check(sheet)?;
        head.check_entries()?;
        Ok(NetworkSheet { head })
    }

    // n, the number of columns.
    pub(crate) fn size(&self) -> u16
        ensures { result ≡ self.now.head.n }
    {
        self.head.n
    }

    pub(crate) fn read(&self, heap: Global) -> Result<Network, AllocError>
        ensures { IfOk result (λ m. pattern m ≡ network_of self.now.head.sheet.now) }
    {
        let n = self.head.n;
        let entries = self.head.entries().collect(heap)?;
        Ok(Network { n, entries })
    }
}

impl Network {
    // Reads a network sheet, or says what is wrong with it first.
    pub fn read(heap: Global, sheet: &[u8]) -> Result<Network, Refusal>
        ensures answers { Answers (network_checked sheet.now) (λ m. pattern m ≡ network_of sheet.now) result }
        ensures judges { Judges (NetworkWrong sheet.now) result }
    {
        Ok(NetworkSheet::check(sheet)?.read(heap)?)
    }
}
