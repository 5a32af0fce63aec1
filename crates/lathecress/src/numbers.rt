// The arithmetics at work on the worked network's values.
ghost use Rattle.std.specs.Prelude.{◌≡◌, ℕ, if◌then◌else◌, codes, pos};
ghost use Rattle.std.specs.Float.{binary64};
ghost use Rattle.std.specs.Float.Ieee.{of_int};
ghost use Rattle.scalar.specs.Pairs.{pair};
ghost use Rattle.scalar.specs.Residues.{check_of};

use super::failures::Failure;
use super::{print_list, worked};
use exact::{Exactness, undone};
use scalar::{Check, Pair, Scalar};
use std::fmt::Display;
use std::io;

// each column's heading, and how wide it is
const COLUMNS: [(&str, usize); 10] = [
    ("kind", 10),
    ("exact", 5),
    ("x", 7),
    ("p", 7),
    ("p fit", 5),
    ("x + p", 7),
    ("x - p", 8),
    ("x * p", 9),
    ("x / p", 18),
    ("x / p * p", 0),
];

// A kind of number that a value of the network is turned into. No `From<u8>`: a check number keeps the remainder alone.
trait FromValue: Sized {
    ghost of_value: { ℕ → Self };

    fn from_value(value: u8) -> Self
        ensures { result ≡ of_value value };
}

impl FromValue for f64 {
    ghost of_value = { λ n. of_int binary64 (pos n) };

    fn from_value(value: u8) -> f64 {
        f64::from(value)
    }
}

impl FromValue for Check {
    ghost of_value = { check_of };

    fn from_value(value: u8) -> Check {
        Check::new(u32::from(value))
    }
}

fn pair_of<T: FromValue>(re: u8, im: u8) -> Pair<T>
    ensures { result ≡ pair (T.of_value re) (T.of_value im) }
{
    Pair {
        re: T::from_value(re),
        im: T::from_value(im),
    }
}

fn yes_or_no(answer: bool) -> &'static str
    ensures { result.now ≡ (if answer then codes "yes" else codes "no") }
{
    if answer { "yes" } else { "no" }
}

// A line of the table, its cells in columns.
fn print_line<T: Display>(rt: &HostRuntime, cells: &[T]) -> io::Result<()> {
    for (cell, (_, width)) in cells.iter().zip(COLUMNS) {
        print!(rt; "  {cell:<width$}")?;
    }
    println!(rt; "")
}

// Two numbers, and what their arithmetic makes of them.
fn print_row<T: Exactness + Display>(
    rt: &HostRuntime,
    kind: &str,
    x: T,
    p: T,
) -> Result<(), Failure> {
    let heap = rt.alloc();
    let cells = [
        kind.to_string(heap)?,
        yes_or_no(T::is_exact()).to_string(heap)?,
        x.to_string(heap)?,
        p.to_string(heap)?,
        yes_or_no(p.fit()).to_string(heap)?,
        x.sum(p).to_string(heap)?,
        x.difference(p).to_string(heap)?,
        x.product(p).to_string(heap)?,
        x.quotient(p).to_string(heap)?,
        undone(x, p).to_string(heap)?,
    ];
    print_line(rt, &cells)?;
    Ok(())
}

// Real and check numbers, then pairs of both.
pub fn print_numbers(rt: &HostRuntime) -> Result<(), Failure> {
    print_list(rt, "values", &worked::VALUES)?;
    print_list(rt, "check numbers", &worked::VALUES.map(Check::from_value))?;
    println!(rt; "arithmetic")?;
    print_line(rt, &COLUMNS.map(|(heading, _)| heading))?;
    for (x, p) in [(2, 4), (9, 13), (2, 0)] {
        print_row(rt, "real", f64::from_value(x), f64::from_value(p))?;
        print_row(rt, "check", Check::from_value(x), Check::from_value(p))?;
    }
    for ((a, b), (c, d)) in [((3, 2), (2, 4)), ((10, 5), (3, 4))] {
        print_row::<Pair<f64>>(rt, "real pair", pair_of(a, b), pair_of(c, d))?;
        print_row::<Pair<Check>>(rt, "check pair", pair_of(a, b), pair_of(c, d))?;
    }
    Ok(())
}
