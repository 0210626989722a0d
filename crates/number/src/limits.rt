// Every number that document 01 fixes, or a request of document 02 after it, or that we chose, where the paper is silent (RULES_FILE, SCRATCH), once, for the code; specs/Limits.antt holds the same for the definitions.
// A contract is stated with those and met with these, so the two cannot drift apart where a proof uses them.

// Numbers in files: what one group of seven bits can hold, and two.
pub const GROUP: usize = 128;

pub const TWO_GROUPS: usize = GROUP * GROUP;

// Versions: of books the first and the last, and the only one of sheets.
pub const FIRST_VERSION: usize = 1;

pub const LAST_VERSION: usize = 2;

pub const SHEET_VERSION: usize = 1;

// Rule books: rules of a book, the largest kind, nodes of all rules together.
pub const RULES: usize = 32;

pub const KINDS: usize = 16383;

pub const NODES: usize = 512;

// The codes of nodes.
pub const CODE_NOTHING: usize = 0;

pub const CODE_EMPTY: usize = 1;

pub const CODE_RANGE: usize = 2;

pub const CODE_CAT: usize = 3;

pub const CODE_ALT: usize = 4;

pub const CODE_STAR: usize = 5;

pub const CODE_EITHER: usize = 6;

pub const CODE_AND: usize = 7;

pub const CODE_NOT: usize = 8;

// Bytes: how many there are, and the largest.
pub const BYTES: usize = 256;

pub const LAST_BYTE: usize = 255;

// Either stands for a letter from a to z, and the capital stands this much below it.
pub const FIRST_LETTER: usize = 97;

pub const LAST_LETTER: usize = 122;

pub const CAPITAL: usize = 32;

// Tables: states of a table, and the cells that its targets fill.
pub const STATES: usize = 255;

pub const TABLE_CELLS: usize = STATES * BYTES;

// The walk: tree nodes of a normal-form result, distinct terms of the held vectors, held pairs, bytes of a shown text.
pub const TREE_NODES: usize = 255;

pub const POOL: usize = 2048;

pub const PAIRS: usize = 512;

pub const SHOWN_TEXT: usize = 512;

// Rules typed as text: parentheses that may be open, and the bytes that a call asks for its book.
pub const DEEP: usize = 32;

pub const TYPED_AREA: usize = 4096;

// Programs: bytes of a rule book's file, of standard input, of a sheet's file and of typed rules.
pub const BOOK_FILE: usize = 4096;

pub const TEXT_FILE: usize = 32768;

pub const SHEET_FILE: usize = 65536;

pub const RULES_FILE: usize = 32768;

// Lent work areas: the most cells that a call may ask for, so that a cell's number fits sixteen bits.
pub const WORK_CELLS: usize = 65536;

// The cells in which one term is made and counted, a derivative or a rule's normal form: no paper's number but ours.
pub const SCRATCH: usize = 34816;
