// Sheets that are not in order: which number, layer and place each is refused with.
use super::sheets;
use network::Permuted;
use refusals::Refusal;
use std::alloc::{AllocError, Global};
use std::process::Abort;
use std::test::Fail;

struct Damage<'a> {
    name: &'a str,
    // the index and the new value of each number that is changed
    edits: &'a [(usize, u16)],
    // of the sheet, in bytes
    length: usize,
    // what the sheet is refused with
    number: u8,
    place: u64,
}

// a case in a line: its name, its edits, its length, and the number and the place that it is refused with
macro_rules! damage {
    ($name:literal, $edits:expr, $length:literal bytes => $number:literal at $place:literal) => {
        Damage {
            name: $name,
            edits: &$edits,
            length: $length,
            number: $number,
            place: $place,
        }
    };
}

// Of the worked network: n is number 0, e is number 1, entry t has its row at 2 + t and its column at 12 + t.
const NETWORKS: [Damage; 29] = [
    damage!("no bytes", [], 0 bytes => 1 at 0),
    damage!("three bytes", [], 3 bytes => 1 at 3),
    damage!("three bytes, whatever n would be", [(0, 513)], 3 bytes => 1 at 3),
    damage!("n and e alone", [], 4 bytes => 1 at 4),
    damage!("one byte short", [], 43 bytes => 1 at 43),
    damage!("one byte long", [], 45 bytes => 1 at 45),
    damage!("e one too many for the length", [(1, 11)], 44 bytes => 1 at 44),
    damage!("n is 0", [(0, 0)], 44 bytes => 2 at 0),
    damage!("n is 513", [(0, 513)], 44 bytes => 2 at 513),
    damage!("n is 65535", [(0, 65535)], 44 bytes => 2 at 65535),
    damage!("n with its bytes exchanged", [(0, 1024)], 44 bytes => 2 at 1024),
    damage!("n is looked at before e", [(0, 513), (1, 0)], 44 bytes => 2 at 513),
    damage!("n is looked at before the length", [(0, 0)], 4 bytes => 2 at 0),
    damage!("e is 0", [(1, 0)], 44 bytes => 2 at 0),
    damage!("e is 0 in a sheet of that length", [(1, 0)], 4 bytes => 2 at 0),
    damage!("e is 8193", [(1, 8193)], 44 bytes => 2 at 8193),
    damage!("e is 65535", [(1, 65535)], 44 bytes => 2 at 65535),
    damage!("the first row is n", [(2, 4)], 44 bytes => 3 at 0),
    damage!("the last row is n", [(11, 4)], 44 bytes => 3 at 9),
    damage!("the last column is n", [(21, 4)], 44 bytes => 3 at 9),
    damage!("a row of 65535", [(7, 65535)], 44 bytes => 3 at 5),
    damage!("outside comes before not after", [(6, 4), (16, 0)], 44 bytes => 3 at 4),
    damage!("n 3 leaves row 3 outside", [(0, 3)], 44 bytes => 3 at 3),
    damage!("equal entries", [(3, 0)], 44 bytes => 4 at 1),
    damage!("columns in order but rows not", [(2, 2), (3, 0)], 44 bytes => 4 at 1),
    damage!("the last row before the one before", [(11, 0)], 44 bytes => 4 at 9),
    damage!("a column that falls", [(21, 2)], 44 bytes => 4 at 9),
    damage!("entry 1 misplaced, entry 2 outside", [(3, 0), (4, 4)], 44 bytes => 4 at 1),
    damage!("entry 1 outside, entry 2 misplaced", [(3, 4), (14, 0)], 44 bytes => 3 at 1),
];

// Of the plain order: n is number 0, the row order stands from 1 on and the column order from 5 on.
const ORDERS: [Damage; 22] = [
    damage!("no bytes", [], 0 bytes => 1 at 0),
    damage!("n alone", [], 2 bytes => 1 at 2),
    damage!("one byte short", [], 17 bytes => 1 at 17),
    damage!("one byte long", [], 19 bytes => 1 at 19),
    damage!("the length is looked at before n", [(0, 5)], 22 bytes => 1 at 22),
    damage!("n is 3", [(0, 3)], 18 bytes => 2 at 3),
    damage!("n is 5", [(0, 5)], 18 bytes => 2 at 5),
    damage!("n is 0", [(0, 0)], 18 bytes => 2 at 0),
    damage!("n with its bytes exchanged", [(0, 1024)], 18 bytes => 2 at 1024),
    damage!("n is looked at before the numbers", [(0, 5), (1, 9)], 18 bytes => 2 at 5),
    damage!("the first row number is n", [(1, 4)], 18 bytes => 5 at 0),
    damage!("the last row number is n", [(4, 4)], 18 bytes => 5 at 3),
    damage!("a row number of 65535", [(2, 65535)], 18 bytes => 5 at 1),
    damage!("a row number twice", [(3, 1)], 18 bytes => 5 at 2),
    damage!("the last row number met before", [(4, 0)], 18 bytes => 5 at 3),
    damage!("the first column number is n", [(5, 4)], 18 bytes => 5 at 4),
    damage!("the last column number is n", [(8, 4)], 18 bytes => 5 at 7),
    damage!("a column number twice", [(6, 0)], 18 bytes => 5 at 5),
    damage!("the last column number met before", [(8, 2)], 18 bytes => 5 at 7),
    damage!("rows are looked at before columns", [(4, 0), (5, 9)], 18 bytes => 5 at 3),
    damage!("two wrong in one list", [(2, 0), (3, 9)], 18 bytes => 5 at 1),
    damage!("a repeated number before a large one", [(7, 1), (8, 4)], 18 bytes => 5 at 6),
];

impl Damage<'_> {
    fn sheet(&self, heap: Global, whole: &[u16]) -> Result<Vec<u8>, AllocError> {
        let numbers = sheets::changed(heap, whole, self.edits)?;
        sheets::bytes(heap, &numbers, self.length)
    }

    fn check_refusal(&self, rt: &impl Abort, refusal: Refusal, letter: char) {
        let name = self.name;
        assert_eq!(rt; refusal.number(), self.number, "{name}");
        assert_eq!(rt; refusal.layer().letter(), letter, "{name}");
        assert_eq!(rt; refusal.place(), self.place, "{name}");
    }
}

// Each damage of a whole sheet, read together with the other sheet, is refused as it says.
fn check_refused<R: Abort + AllocGlobal, F: Fn(&[u8]) -> Result<Permuted, Refusal>>(
    rt: &R,
    whole: &[u16],
    letter: char,
    damages: &[Damage],
    read: F,
) -> Result<(), Fail>
    requires { F.IsAlwaysCallable read }
{
    for damage in damages {
        let sheet = damage.sheet(rt.alloc(), whole)?;
        match read(&sheet) {
            Ok(_) => panic!(rt; "{}: it was granted", damage.name),
            Err(refusal) => damage.check_refusal(rt, refusal, letter),
        }
    }
    Ok(())
}

#[test]
fn network_sheets(rt: HostRuntime) -> Result<(), Fail> {
    let heap = rt.alloc();
    let order = sheets::bytes(heap, &sheets::PLAIN, 18)?;
    check_refused(
        &rt,
        &sheets::WORKED,
        'N',
        &NETWORKS,
        |network| Permuted::read(heap, network, &order),
    )
}

#[test]
fn order_sheets(rt: HostRuntime) -> Result<(), Fail> {
    let heap = rt.alloc();
    let network = sheets::bytes(heap, &sheets::WORKED, 44)?;
    check_refused(
        &rt,
        &sheets::PLAIN,
        'O',
        &ORDERS,
        |order| Permuted::read(heap, &network, order),
    )
}
