// Sheets that are in order, and what is told of them.
use super::sheets;
use network::{Entry, Network, Order, Permutation, Permuted};
use std::alloc::{AllocError, Global};
use std::process::Abort;
use std::test::Fail;

fn entry(row: u16, column: u16) -> Entry {
    Entry { row, column }
}

fn check_numbers(rt: &impl Abort, order: &Permutation, numbers: &[u16]) {
    assert_eq!(rt; order.size(), numbers.len());
    assert_eq!(rt; order.numbers(), numbers);
    for (i, number) in numbers.iter().enumerate() {
        assert_eq!(rt; order.number(i), Some(*number));
        assert_eq!(rt; order.position(*number), u16::try_from(i).ok());
    }
    assert_eq!(rt; order.number(numbers.len()), None);
    assert_eq!(rt; order.position(4), None);
}

// The worked network, with the row order 3 1 0 2 and the column order 1 0 3 2.
fn exchanged(heap: Global) -> Result<Permuted, Fail> {
    let network = sheets::bytes(heap, &sheets::WORKED, 44)?;
    let order = sheets::bytes(heap, &[4, 3, 1, 0, 2, 1, 0, 3, 2], 18)?;
    Ok(Permuted::read(heap, &network, &order)?)
}

#[test]
fn worked_network(rt: HostRuntime) -> Result<(), Fail> {
    let heap = rt.alloc();
    let sheet = sheets::bytes(heap, &sheets::WORKED, 44)?;
    let network = Network::read(heap, &sheet)?;
    assert_eq!(rt; network.size(), 4);
    let entries = [
        entry(0, 0),
        entry(2, 0),
        entry(1, 1),
        entry(3, 1),
        entry(0, 2),
        entry(2, 2),
        entry(3, 2),
        entry(0, 3),
        entry(1, 3),
        entry(3, 3),
    ];
    assert_eq!(rt; network.entries().len(), 10);
    assert_eq!(rt; network.entries(), entries.as_slice());
    Ok(())
}

#[test]
fn orders_and_positions(rt: HostRuntime) -> Result<(), Fail> {
    let heap = rt.alloc();
    let matrix = exchanged(heap)?;
    check_numbers(&rt, matrix.order().rows(), &[3, 1, 0, 2]);
    check_numbers(&rt, matrix.order().columns(), &[1, 0, 3, 2]);
    let sheet = sheets::bytes(heap, &[4, 2, 3, 0, 1, 3, 2, 1, 0], 18)?;
    let order = Order::read(heap, &sheet, matrix.network())?;
    check_numbers(&rt, order.rows(), &[2, 3, 0, 1]);
    check_numbers(&rt, order.columns(), &[3, 2, 1, 0]);
    assert_eq!(rt; order.place(entry(0, 0)), Some(entry(2, 3)));
    assert_eq!(rt; order.place(entry(3, 4)), None);
    assert_eq!(rt; order.place(entry(4, 3)), None);
    Ok(())
}

#[test]
fn places_in_the_permuted_matrix(rt: HostRuntime) -> Result<(), Fail> {
    let matrix = exchanged(rt.alloc())?;
    let places = [
        entry(2, 1),
        entry(3, 1),
        entry(1, 0),
        entry(0, 0),
        entry(2, 3),
        entry(3, 3),
        entry(0, 3),
        entry(2, 2),
        entry(1, 2),
        entry(0, 2),
    ];
    for (t, place) in places.into_iter().enumerate() {
        assert_eq!(rt; matrix.place(t), Some(place));
    }
    assert_eq!(rt; matrix.place(10), None);
    Ok(())
}

#[test]
fn marks_row_by_row(rt: HostRuntime) -> Result<(), Fail> {
    let heap = rt.alloc();
    let marks = exchanged(heap)?.marks(heap)?;
    let expected = "x.xxx.x..xxx.x.x";
    assert_eq!(rt; marks.len(), expected.len());
    for (mark, sign) in marks.iter().zip(expected.chars()) {
        assert_eq!(rt; *mark, sign == 'x');
    }
    Ok(())
}

// A network of n columns with e entries, 16 to a column from row 0 on, as a sheet.
fn full(heap: Global, n: u16, e: u16) -> Result<Vec<u8>, AllocError> {
    let mut numbers = vec![in heap; n, e]?;
    numbers.extend((0..e).map(|t| t % 16))?;
    numbers.extend((0..e).map(|t| t / 16))?;
    let length = numbers.len().saturating_mul(2);
    sheets::bytes(heap, &numbers, length)
}

#[test]
fn largest_and_smallest(rt: HostRuntime) -> Result<(), Fail> {
    let heap = rt.alloc();
    for (n, e) in [(512, 8192), (512, 8191), (512, 1), (16, 256), (1, 1)] {
        let network = Network::read(heap, &full(heap, n, e)?)?;
        assert_eq!(rt; network.size(), n);
        assert_eq!(rt; network.entries().len(), usize::from(e));
    }
    match Network::read(heap, &full(heap, 512, 8193)?) {
        Ok(_) => Err(Fail::new("e 8193 was granted")),
        Err(refusal) => {
            assert_eq!(rt; (refusal.number(), refusal.place()), (2, 8193));
            Ok(())
        },
    }
}
