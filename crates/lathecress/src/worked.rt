// The worked network: 4 columns, 10 entries, plain orders, as the sheets that a station would send.

// n and e, then the rows 0 2 1 3 0 2 3 0 1 3, then the columns 0 0 1 1 2 2 2 3 3 3
pub const NETWORK: [u8; 44] = [
    4, 0, 10, 0, //
    0, 0, 2, 0, 1, 0, 3, 0, 0, 0, 2, 0, 3, 0, 0, 0, 1, 0, 3, 0, //
    0, 0, 0, 0, 1, 0, 1, 0, 2, 0, 2, 0, 2, 0, 3, 0, 3, 0, 3, 0,
];

// n, then the row order 0 1 2 3, then the column order 0 1 2 3
pub const ORDER: [u8; 18] = [
    4, 0, //
    0, 0, 1, 0, 2, 0, 3, 0, //
    0, 0, 1, 0, 2, 0, 3, 0,
];

// the value of each entry, in the sheet's order
pub const VALUES: [u8; 10] = [2, 4, 4, 2, 6, 13, 3, 2, 8, 9];
