// Reads a network and the order of its pivots, and prints what they hold, or why they are refused.
#![tactic(auto)]

mod failures;
mod numbers;
mod pictures;
mod worked;

use failures::Failure;
use network::Permuted;
use std::alloc::AllocError;
use std::fmt::Display;
use std::process::ExitCode;
use std::{env, fs, io};

const HELP: &str = "\
lathecress: a proved sparse solver for cable networks

  lathecress                      work on the embedded worked network
  lathecress check NETWORK ORDER  read a network sheet and an order sheet
  lathecress --help               print this

check prints n, e, the row order, the column order and the permuted pattern,
a line for each row: x where there is an entry and . where there is none.
On the embedded network the values, their check numbers and a table of each
arithmetic at work follow.
Sheets that are not in order are refused by one line,
  refused: NUMBER LAYER PLACE: what it means
and the exit status is 1. docs/FORMATS.md has the sheets and the refusals.";

// A name and a list, in one line.
fn print_list<T: Display>(rt: &HostRuntime, name: &str, items: &[T]) -> io::Result<()> {
    print!(rt; "{name}")?;
    for item in items {
        print!(rt; " {item}")?;
    }
    println!(rt; "")
}

fn print_pattern(rt: &HostRuntime, matrix: &Permuted) -> Result<(), Failure> {
    let heap = rt.alloc();
    let marks = matrix.marks(heap)?;
    println!(rt; "pattern")?;
    for row in marks.chunks(usize::from(matrix.network().size())) {
        let text = pictures::row(heap, row)?;
        println!(rt; "  {text}")?;
    }
    Ok(())
}

fn print_matrix(rt: &HostRuntime, matrix: &Permuted) -> Result<(), Failure> {
    let n = matrix.network().size();
    let e = matrix.network().entries().len();
    println!(rt; "n {n}")?;
    println!(rt; "e {e}")?;
    print_list(rt, "row order", matrix.order().rows().numbers())?;
    print_list(rt, "column order", matrix.order().columns().numbers())?;
    print_pattern(rt, matrix)
}

fn check_sheets(rt: &HostRuntime, network: &[u8], order: &[u8]) -> Result<(), Failure> {
    let matrix = Permuted::read(rt.alloc(), network, order)?;
    print_matrix(rt, &matrix)
}

fn sheet(rt: &HostRuntime, path: &str) -> Result<Vec<u8>, Failure> {
    fs::read(rt, path).try_map_err(|error| Ok(Failure::Unread(path.to_string(rt.alloc())?, error)))
}

// Words that name no job.
fn misused(rt: &HostRuntime, first: &str) -> Result<Failure, AllocError> {
    Ok(match first {
        "check" => Failure::CheckMisused,
        "--help" => Failure::HelpMisused,
        _ => Failure::NoCommand(first.to_string(rt.alloc())?),
    })
}

fn run(rt: &HostRuntime) -> Result<(), Failure> {
    let words: Vec<String> = env::args(rt)?.skip(1).collect(rt.alloc())?;
    match words.as_slice() {
        [] => {
            check_sheets(rt, &worked::NETWORK, &worked::ORDER)?;
            numbers::print_numbers(rt)
        }
        [help] if help.as_str() == "--help" => {
            println!(rt; "{HELP}")?;
            Ok(())
        }
        [check, network, order] if check.as_str() == "check" => {
            let network = sheet(rt, network.as_str())?;
            let order = sheet(rt, order.as_str())?;
            check_sheets(rt, &network, &order)
        }
        [first, ..] => Err(misused(rt, first.as_str())?),
    }
}

fn main(rt: HostRuntime) -> io::Result<ExitCode> {
    match run(&rt) {
        Ok(()) => Ok(ExitCode::SUCCESS),
        Err(failure) => {
            match failure {
                Failure::TurnedDown(_) => println!(rt; "{failure}")?,
                _ => eprintln!(rt; "{failure}")?,
            }
            Ok(ExitCode::FAILURE)
        }
    }
}
