// The numbers of the format. Everything else goes by these names.

// The bytes of a block.
pub const BLOCK: usize = 512;

// The bytes of an entry, and the entries that a block has room for.
pub const ENTRY: usize = 8;

pub const ENTRIES: usize = 63;

// The same of the shorter stored form.
pub const STORED_ENTRY: usize = 6;

pub const STORED_ENTRIES: usize = 84;

// The first of the links that lead to one item only.
pub const FIRST_SINGLE: u16 = 32768;
