// The reader, the order of entries and the lines that refusals are shown as.
use network::{Entry, Reader};
use refusals::Refusal;
use std::test::Fail;

#[test]
fn reader_takes_low_bytes_first(rt: HostRuntime) {
    let mut reader = Reader::new(&[1, 2, 255, 255, 0, 1, 9], 0);
    assert_eq!(rt; reader.next(), Some(513));
    assert_eq!(rt; reader.next(), Some(65535));
    assert_eq!(rt; reader.next(), Some(256));
    assert_eq!(rt; reader.next(), None, "one byte is left");
    assert_eq!(rt; reader.next(), None);
}

#[test]
fn reader_starts_anywhere(rt: HostRuntime) {
    for (at, first) in [
        (0, Some(1)),
        (1, Some(512)),
        (2, Some(2)),
        (3, None),
        (4, None),
        (usize::MAX, None),
    ] {
        assert_eq!(rt; Reader::new(&[1, 0, 2, 0], at).next(), first);
    }
    assert_eq!(rt; Reader::new(&[], 0).next(), None);
}

#[test]
fn reader_is_an_iterator(rt: HostRuntime) -> Result<(), Fail> {
    let numbers: Vec<u16> = Reader::new(&[9, 1, 2, 255, 255, 0], 1).collect(rt.alloc())?;
    assert_eq!(rt; numbers.as_slice(), [513, 65535].as_slice());
    Ok(())
}

#[test]
fn entries_by_column_then_row(rt: HostRuntime) {
    let cases = [
        ((0, 1), (0, 0), true),
        ((0, 1), (5, 0), true),
        ((2, 1), (1, 1), true),
        ((1, 1), (1, 1), false),
        ((0, 1), (1, 1), false),
        ((9, 0), (0, 1), false),
    ];
    for ((row, column), (other_row, other_column), after) in cases {
        let other = Entry {
            row: other_row,
            column: other_column,
        };
        assert_eq!(rt; Entry { row, column }.is_after(other), after);
    }
}

#[test]
fn entries_are_shown_row_first(rt: HostRuntime) -> Result<(), Fail> {
    let entry = Entry { row: 1, column: 2 };
    let text = format!(in rt.alloc(); "{:?}", entry)?;
    assert_eq!(rt; text.as_str(), "Entry { row: 1, column: 2 }");
    Ok(())
}

#[test]
fn lines_of_refusals(rt: HostRuntime) -> Result<(), Fail> {
    let cases = [
        (
            Refusal::OutOfMemory,
            "refused: 0 M 0: there is not enough memory",
        ),
        (
            Refusal::NetworkCut(3),
            "refused: 1 N 3: the network sheet has 3 bytes, too few for n and e",
        ),
        (
            Refusal::ColumnCount(513),
            "refused: 2 N 513: n is 513, but a network has 1 to 512 columns",
        ),
        (
            Refusal::EntryCount(0),
            "refused: 2 N 0: e is 0, but a network has 1 to 8192 entries",
        ),
        (
            Refusal::NetworkLength(43),
            "refused: 1 N 43: the network sheet has 43 bytes, not 4 and 4 for each entry",
        ),
        (
            Refusal::EntryOutside(9),
            "refused: 3 N 9: entry 9 has a row or a column that is n or more",
        ),
        (
            Refusal::EntryNotAfter(1),
            "refused: 4 N 1: entry 1 does not come after the one before, by column, then by row",
        ),
        (
            Refusal::OrderLength(17),
            "refused: 1 O 17: the order sheet has 17 bytes, not 2 and 4 for each column",
        ),
        (
            Refusal::OrderSize(5),
            "refused: 2 O 5: the order sheet's n is 5, not the network's",
        ),
        (
            Refusal::OrderNumber(3),
            "refused: 5 O 3: order entry 3 is out of range or repeated",
        ),
    ];
    for (refusal, line) in cases {
        assert_eq!(rt; refusal.to_string(rt.alloc())?.as_str(), line);
    }
    Ok(())
}
