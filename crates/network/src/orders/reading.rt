// Judges an order sheet and reads it.
ghost use Rattle.std.specs.Prelude.{◌≡◌, ◌≤◌, IfOk, length};
ghost use Rattle.refusals.specs.Checks.{Answers, Passes};
ghost use Rattle.network.specs.OrderSheet.{size_checked, order_checked, order_of, orders};
ghost use Rattle.refusals.specs.Judging.{Judges};
ghost use Rattle.network.specs.Wrong.{OrderWrong};

use super::super::networks::Network;
use super::super::numbers::Reader;
use super::super::permutations::NumberList;
use super::Order;
use refusals::Refusal;
use std::alloc::{AllocError, Global};

// Its length, and then its n, which has to be the network's.
fn check_size(sheet: &[u8], n: u16) -> Result<(), Refusal>
    ensures { result ≡ size_checked n sheet.now }
{
    let wrong_length = Refusal::OrderLength(sheet.len());
    if sheet.len() != 2 + 4 * usize::from(n) {
        return Err(wrong_length);
    }
    let found = Reader::new(sheet, 0).next().ok_or(wrong_length)?;
    if found != n {
        return Err(Refusal::OrderSize(found));
    }
    Ok(())
}

// An order sheet that is in order: the bytes of its row order and of its column order.
#[derive(Clone, Copy)]
pub(crate) struct OrderSheet<'a> {
    rows: NumberList<'a>,
    columns: NumberList<'a>,
    ghost same: { length rows.bytes.now ≡ length columns.bytes.now },
}

impl<'a> OrderSheet<'a> {
    ghost use Rattle.network.specs.OrderReading.{listed, lists_checked};

    // Both lists, or the first number that is wrong: the columns are counted on from the rows.
    fn check_lists(rows: &'a [u8], columns: &'a [u8]) -> Result<OrderSheet<'a>, Refusal>
        requires few { length rows.now ≤ 1024 }
        requires same { length rows.now ≡ length columns.now }
        ensures { Passes (lists_checked rows.now columns.now) (λ checked. (checked.rows.bytes.now ≡ rows.now) × (checked.columns.bytes.now ≡ columns.now)) result }
    {
        let n = rows.len() / 2;
        let rows = NumberList::check(rows, 0)?;
        let columns = NumberList::check(columns, n)?;
        Ok(OrderSheet { rows, columns })
    }

    // The order sheet of a network of n columns, or the first thing that is wrong with it.
    pub(crate) fn check(sheet: &'a [u8], n: u16) -> Result<OrderSheet<'a>, Refusal>
        requires { n ≤ 512 }
        ensures { Passes (order_checked n sheet.now) (λ checked. listed checked ≡ order_of n sheet.now) result }
    {
        check_size(sheet, n)?;
        let (rows, columns) = sheet[2..].split_at(2 * usize::from(n));
        OrderSheet::check_lists(rows, columns)
    }

    pub(crate) fn read(&self, heap: Global) -> Result<Order, AllocError>
        ensures { IfOk result (λ o. orders o ≡ listed self.now) }
    {
        let rows = self.rows.read(heap)?;
        let columns = self.columns.read(heap)?;
        Ok(Order { rows, columns })
    }
}

impl Order {
    // Reads the order sheet of a network, or says what is wrong with it first.
    pub fn read(heap: Global, sheet: &[u8], network: &Network) -> Result<Order, Refusal>
        ensures answers { Answers (order_checked network.now.n sheet.now) (λ o. orders o ≡ order_of network.now.n sheet.now) result }
        ensures judges { Judges (OrderWrong network.now.n sheet.now) result }
    {
        Ok(OrderSheet::check(sheet, network.size())?.read(heap)?)
    }
}
