// The nodes of a typed expression, laid one after the other in postfix order into cells that have room for 512.
// Past that a count stays at 513 and what is laid is lost: such a text is out of range, and only that is still asked.
#![tactic(auto)]

ghost use Rattle.std.specs.Prelude.{◌≡◌, ◌<◌, length};
ghost use Rattle.book.specs.declared.Node.TheVariants.{Range};
ghost use Rattle.typed.specs.Exp.{postfix};
ghost use Rattle.typed.specs.Exp.Exp.{set as set_exp};
ghost use Rattle.typed.specs.Sets.{sets};
ghost use Rattle.laid.specs.Laid.{pack, mark_of, AddsCell, Adds, Again, Marked};
ghost use Rattle.laid.specs.Tables.{set_at, range_nodes};

pub mod writing;

use number::limits::{CODE_ALT, CODE_CAT, CODE_EMPTY, CODE_RANGE, CODE_STAR, NODES};

// The count of more nodes than there is room for.
const OVER: usize = NODES + 1;

// Nodes in cells: a code, and for a range its bounds above it.
// Kept as packed numbers, since `lay` promises what it does with every u32 and `range_cell` promises `pack`: a type of cells would ask more of callers.
pub const EMPTY: u32 = CODE_EMPTY as u32;

pub(crate) const RANGE: u32 = CODE_RANGE as u32;

pub const CAT: u32 = CODE_CAT as u32;

pub const ALT: u32 = CODE_ALT as u32;

const STAR: u32 = CODE_STAR as u32;

// A range of bytes.
#[derive(Clone, Copy)]
struct Span {
    pub lo: u8,
    pub hi: u8,
}

// The byte ranges of the twelve sets, one to four for each; STARTS tells where those of a set begin and those before it end.
// Kept as one table with its starts: document 01 names a constant table of twenty-three.
const RANGES: [Span; 23] = [
    Span { lo: b'0', hi: b'9' },
    Span { lo: b'A', hi: b'Z' },
    Span { lo: b'a', hi: b'z' },
    Span { lo: b'A', hi: b'Z' },
    Span { lo: b'a', hi: b'z' },
    Span { lo: 9, hi: 9 },
    Span { lo: b' ', hi: b' ' },
    Span { lo: 0, hi: 31 },
    Span { lo: 127, hi: 127 },
    Span { lo: b'0', hi: b'9' },
    Span { lo: b'!', hi: b'~' },
    Span { lo: b'a', hi: b'z' },
    Span { lo: b' ', hi: b'~' },
    Span { lo: b'!', hi: b'/' },
    Span { lo: b':', hi: b'@' },
    Span { lo: b'[', hi: b'`' },
    Span { lo: b'{', hi: b'~' },
    Span { lo: 9, hi: 13 },
    Span { lo: b' ', hi: b' ' },
    Span { lo: b'A', hi: b'Z' },
    Span { lo: b'0', hi: b'9' },
    Span { lo: b'A', hi: b'F' },
    Span { lo: b'a', hi: b'f' },
];

const STARTS: [usize; 13] = [0, 3, 5, 7, 9, 10, 11, 12, 13, 17, 19, 20, 23];

// One node more, where there is room.
// Kept as a count of 513 past the room: its promise `AddsCell` says so, and a wrong byte further on is still told first.
pub fn lay(cells: &mut [u32; NODES], top: usize, x: u32) -> usize
    ensures { AddsCell cells.old top x cells.new result }
{
    if top < NODES {
        cells[top] = x;
        return top + 1;
    }
    OVER
}

// The nodes from start on once more.
// Kept as a loop over `lay`, which counts on to 513 where there is no room.
fn again(cells: &mut [u32; NODES], start: usize, top: usize) -> usize
    ensures { Again cells.old start top cells.new result }
{
    let mut t = top;
    if top <= NODES {
        for i in start..top {
            let x = cells[i];
            t = lay(cells, t, x);
        }
    }
    t
}

// A mark after the item whose nodes begin at start: R* is R, Star; R+ is R, R, Star, Cat; R? is R, Empty, Alt.
pub fn mark(cells: &mut [u32; NODES], start: usize, top: usize, c: u8) -> usize
    ensures { Marked (mark_of c) cells.old start top cells.new result }
{
    match c {
        b'*' => lay(cells, top, STAR),
        b'+' => {
            let twice = again(cells, start, top);
            let starred = lay(cells, twice, STAR);
            lay(cells, starred, CAT)
        }
        _ => {
            let empty = lay(cells, top, EMPTY);
            lay(cells, empty, ALT)
        }
    }
}

// The cell of a range.
pub fn range_cell(lo: u8, hi: u8) -> u32
    ensures { result ≡ pack (Range lo hi) }
{
    ((lo as u32) * 256 + hi as u32) * 8 + RANGE
}

// One range of a set, joined to those before it.
fn lay_range(cells: &mut [u32; NODES], top: usize, r: Span, joined: bool) -> usize
    ensures { Adds cells.old top (range_nodes r joined) cells.new result }
{
    let x = range_cell(r.lo, r.hi);
    let t = lay(cells, top, x);
    if joined {
        return lay(cells, t, ALT);
    }
    t
}

// The nodes of a set, by its number.
pub fn lay_set(cells: &mut [u32; NODES], top: usize, k: usize) -> usize
    requires { k < length sets }
    ensures { Adds cells.old top (postfix (set_exp (set_at k))) cells.new result }
{
    let from = STARTS[k];
    let end = STARTS[k + 1];
    let mut t = top;
    for i in from..end {
        t = lay_range(cells, t, RANGES[i], from < i);
    }
    t
}
