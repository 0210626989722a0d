// How the work area is laid out; specs/Layout.antt says what each part is for and holds the same numbers for the definitions.
// The length is the one that build and compare ask for.
// Kept as parts of one array of cells and not as an array of items, since the caller lends the work area as one (include/lubiranguk.h),
// and what an item holds is told of these places (`item_of` of specs/Memory.antt).
use number::limits::{PAIRS, RULES, SCRATCH};
use pool::POOL_CELLS;

// So many items are held at most: the pairs of a comparison, and its entry.
pub const ITEMS: usize = PAIRS + 1;

pub const NOTHING_CELL: usize = POOL_CELLS + SCRATCH;

pub const VECTORS_AT: usize = NOTHING_CELL + RULES;

pub const SHEETS_AT: usize = VECTORS_AT + ITEMS * RULES;

pub const PARENTS_AT: usize = SHEETS_AT + ITEMS;

pub const BYTES_AT: usize = PARENTS_AT + ITEMS;

pub const WORK_LENGTH: usize = BYTES_AT + ITEMS;
