// What program sheet puts out: the sheet of the table that a book builds, for its file; or a refusal's line, to be printed.
// Both stand at the front of one buffer, and the answer tells which it is.
#![tactic(auto)]

ghost use Rattle.std.specs.Prelude.{◌≤◌, length};
ghost use Rattle.number.specs.Limits.{states, table_cells};
ghost use Rattle.table.specs.Formed.{longest_sheet};
ghost use Rattle.vector.specs.Layout.{work_length};
ghost use Rattle.built.specs.Calls.{build_book};
ghost use Rattle.programs.specs.Print.{sheet_built, sheet_of};
ghost use Rattle.sheet_bytes.specs.Put.{Puts, Makes};

use number::Refusal;
use number::limits::{BOOK_FILE, STATES, TABLE_CELLS};
use vector::layout::WORK_LENGTH;

// A refusal that stands at the front of the buffer as a line of text, and where the line ends.
#[derive(Clone, Copy, PartialEq, Eq)]
pub struct Line {
    pub refusal: Refusal,
    pub end: usize,
}

// Where the book's sheet ends, built in lent memory that is large enough.
fn sheet_in(
    book: &[u8],
    labels: &mut [u8],
    targets: &mut [u8],
    work: &mut [u64],
    out: &mut [u8],
) -> Result<usize, Refusal>
    requires states_in_bounds { states ≤ length labels.old }
    requires table_cells_in_bounds { table_cells ≤ length targets.old }
    requires work_length_in_bounds { work_length ≤ length work.old }
    requires longest_sheet_in_bounds { longest_sheet ≤ length out.old }
    ensures { Makes (sheet_built (build_book book.now)) out.old out.new result }
{
    let count = building::build(book, labels, targets, work)?;
    writing::write_sheet(count, labels, targets, out)
}

// The same in memory of its own; more bytes than a book may have stand for one that is missing or too long.
fn sheet(book: &[u8], out: &mut [u8]) -> Result<usize, Refusal>
    requires { longest_sheet ≤ length out.old }
    ensures { Makes (sheet_of book.now) out.old out.new result }
{
    if BOOK_FILE < book.len() {
        return Err(Refusal::Input);
    }
    let mut labels = [0u8; STATES];
    let mut targets = [0u8; TABLE_CELLS];
    let mut work = [0u64; WORK_LENGTH];
    sheet_in(book, &mut labels, &mut targets, &mut work, out)
}

// All that program sheet puts out for the bytes of its book: a sheet and where it ends, or the line of a refusal.
// The room stays a clause: an array of just that length would ask more of callers.
pub fn sheet_bytes(book: &[u8], out: &mut [u8]) -> Result<usize, Line>
    requires { longest_sheet ≤ length out.old }
    ensures { Puts (sheet_of book.now) out.old out.new result }
{
    // Kept as a match: the arm of a refusal writes its line to `out`, so each arm shows what stands there.
    match sheet(book, out) {
        Ok(end) => Ok(end),
        Err(refusal) => {
            let end = lines::put_refused(refusal, out, 0);
            Err(Line { refusal, end })
        }
    }
}
