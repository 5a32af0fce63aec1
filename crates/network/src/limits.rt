// How large a network may be.

// of n, the number of its columns
pub const MAX_COLUMNS: u16 = 512;

// of e, the number of its entries
pub const MAX_ENTRIES: u16 = 8192;
