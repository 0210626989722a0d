// From a rule book to a table in lent memory, or refused exactly at the stated limits.
// The walk starts at the book's vector 0 and fills the table area; what is behind the table, and the work area, is 0 afterwards.
#![tactic(auto)]

ghost use Rattle.std.specs.Prelude.{◌≤◌, length};
ghost use Rattle.number.specs.Limits.{states, table_cells};
ghost use Rattle.vector.specs.Layout.{work_length};
ghost use Rattle.start.specs.Start.{rules_in, Opened};
ghost use Rattle.built.specs.Build.{build_rules};
ghost use Rattle.built.specs.Calls.{build_book};
ghost use Rattle.filled.specs.Tabled.{Tabled};
ghost use Rattle.building.specs.Promises.{Roomy, Builds};

use number::Refusal;
use number::limits::{BYTES, STATES, TABLE_CELLS};
use pool::HEADS;
use table::fill;
use vector::layout::WORK_LENGTH;

// The table of a book that is read, with `n` rules.
fn build_rules(
    book: &[u8],
    n: usize,
    cells: &mut [u64],
    labels: &mut [u8],
    targets: &mut [u8],
) -> Result<usize, Refusal>
    requires opened { Opened book.now n }
    requires roomy { Roomy labels.old targets.old cells.old }
    ensures { Tabled (build_rules (rules_in book.now)) labels.new targets.new result }
{
    let mut index = [0u16; HEADS];
    let begun = start::begun(book, n, &mut index, cells)?;
    filled::fill_table(&mut index, cells, begun.held, n, labels, targets)
}

// The table of a book, at the front of the table area.
fn build_book(
    book: &[u8],
    cells: &mut [u64],
    labels: &mut [u8],
    targets: &mut [u8],
) -> Result<usize, Refusal>
    requires { Roomy labels.old targets.old cells.old }
    ensures { Tabled (build_book book.now) labels.new targets.new result }
{
    let (n, _) = checking::check_book(book)?;
    build_rules(book, n, cells, labels, targets)
}

// With room: only the front of the work area is lent on, so that a cell's number fits sixteen bits.
fn build_part(
    book: &[u8],
    labels: &mut [u8],
    targets: &mut [u8],
    work: &mut [u64],
) -> Result<usize, Refusal>
    requires states_in_bounds { states ≤ length labels.old }
    requires table_cells_in_bounds { table_cells ≤ length targets.old }
    requires work_length_in_bounds { work_length ≤ length work.old }
    ensures { Tabled (build_book book.now) labels.new targets.new result }
{
    build_book(book, &mut work[0..WORK_LENGTH], labels, targets)
}

// A book is built into the table area. Cells of that area past the table are made 0, and all of them after a refusal, as is the work area;
// only where an area is too small is nothing changed.
// Kept as three areas: C lends them so.
pub fn build(
    book: &[u8],
    labels: &mut [u8],
    targets: &mut [u8],
    work: &mut [u64],
) -> Result<usize, Refusal>
    ensures { Builds book.now labels.old targets.old work.old
        labels.new targets.new work.new result }
{
    let labels_end = labels.len();
    let targets_end = targets.len();
    if labels_end < STATES {
        return Err(Refusal::Room);
    }
    if targets_end < TABLE_CELLS {
        return Err(Refusal::Room);
    }
    if work.len() < WORK_LENGTH {
        return Err(Refusal::Room);
    }
    let built = build_part(book, labels, targets, work);
    vector::clear(work);
    let count = built.unwrap_or(0);
    fill(labels, count, labels_end, 0);
    fill(targets, count * BYTES, targets_end, 0);
    built
}
