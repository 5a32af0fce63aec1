// Sheets for the tests.
use std::alloc::{AllocError, Global};

// The worked network: n 4, e 10, then the rows, then the columns.
pub const WORKED: [u16; 22] = [
    4, 10, 0, 2, 1, 3, 0, 2, 3, 0, 1, 3, 0, 0, 1, 1, 2, 2, 2, 3, 3, 3,
];

pub const PLAIN: [u16; 9] = [4, 0, 1, 2, 3, 0, 1, 2, 3];

// The numbers as bytes, cut or filled with zeros to a length.
pub fn bytes(heap: Global, numbers: &[u16], length: usize) -> Result<Vec<u8>, AllocError> {
    let mut sheet = Vec::new(heap);
    for number in numbers {
        sheet.extend_from_slice(&number.to_le_bytes())?;
    }
    sheet.resize(length, 0)?;
    Ok(sheet)
}

// The numbers with some of them changed: the index of each and its new value.
pub fn changed(
    heap: Global,
    numbers: &[u16],
    edits: &[(usize, u16)],
) -> Result<Vec<u16>, AllocError> {
    let mut all = numbers.to_vec(heap)?;
    for (index, value) in edits {
        if let Some(number) = all.get_mut(*index) {
            *number = *value;
        }
    }
    Ok(all)
}
