// The permuted pattern as text: a line for each row, `x` where there is an entry and `.` where there is none.
ghost use Rattle.std.specs.Prelude.{◌≡◌, map, IfOk, string_bytes};
ghost use Rattle.lathecress.specs.Pictures.{sign_of};

use std::alloc::{AllocError, Global};

fn sign(mark: bool) -> char
    ensures { result ≡ sign_of mark }
{
    if mark { 'x' } else { '.' }
}

pub fn row(heap: Global, marks: &[bool]) -> Result<String, AllocError>
    ensures { IfOk result (λ s. string_bytes s ≡ map sign_of marks.now) }
{
    marks.iter().map(|mark| sign(*mark)).collect(heap)
}
