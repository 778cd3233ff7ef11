//! Where everything is in the file.
//!
//! The file is a row of pages. Page 0 is the mark page, which holds the magic and the gate; the pages
//! after it up to the header's, and those after the journal, are homes: a change may replace them.

/// How many bytes a page has.
pub const PAGE_SIZE: usize = 512;

/// How many pages a change may have.
pub const CHANGE_LIMIT: usize = 80;

/// How many bytes the magic has, at the start of the mark page.
pub const MAGIC_SIZE: usize = 8;

/// Which byte of the file is the gate.
pub const GATE_AT: u64 = 16;

/// The gate byte that opens the gate. With any other the gate is closed.
pub const OPEN_GATE: u8 = 1;

/// The gate byte that a settling leaves.
pub const CLOSED_GATE: u8 = 0;

/// Which page the journal's header is. The pages from 1 to the one before it are homes.
pub const HEADER_PAGE: u32 = 4;

/// At which byte of the header the numbers of the pages begin, four bytes each.
pub const NUMBERS_AT: usize = 8;

/// Which page the journal's first image is.
pub const FIRST_IMAGE: u32 = 5;

/// The first page after the journal. It and all later ones are homes.
pub const FIRST_HOME: u32 = 85;

/// How many pages a file has at least: all those up to the journal's last.
pub const LEAST_PAGES: u32 = 85;
