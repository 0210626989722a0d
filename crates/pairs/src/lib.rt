// The pairs that texts reach: the walk over a book's vectors beside a table, in the work area.
// The walk is the build's, beside the table with an entry in front of it; it goes row by row and is finished before anything is answered.
#![tactic(auto)]

ghost use Rattle.std.specs.Prelude.{◌<◌, ◌≤◌, length};
ghost use Rattle.number.specs.Limits.{bytes, work_cells};
ghost use Rattle.walk.specs.Walk.{row, rows, walk_from};
ghost use Rattle.pool.specs.Index.{Indexed};
ghost use Rattle.vector.specs.Layout.{items, work_length};
ghost use Rattle.vector.specs.Memory.{held_of};
ghost use Rattle.steps.specs.Step.{Indexes};
ghost use Rattle.start.specs.Start.{rules_in, Opened};
ghost use Rattle.pairs.specs.Promises.{by_targets, HasRow, Closed, Beside, Ends};

use number::Refusal;
use number::limits::BYTES;
use pool::HEADS;
use steps::Extent;
use vector::layout::{ITEMS, SHEETS_AT};

// The row of item `i`: one step for each run of bytes that no range tells apart and that lead the table to one state.
// Kept apart from row::fill_row: that one writes each run, this one reads where it ends.
fn walk_row(
    index: &mut [u16],
    cells: &mut [u64],
    held: Extent,
    n: usize,
    i: usize,
    targets: &[u8],
) -> Result<Extent, Refusal>
    requires beside { Beside cells.old n held.top held.count targets.now }
    requires closed { Closed targets.now }
    requires i_lt_count { i < held.count }
    requires indexed { Indexed index.old cells.old held.top }
    ensures ends { Ends n targets.now cells.new
        (row (by_targets targets.now) i bytes 0 (held_of cells.old n held.top held.count)) result }
    ensures follows { Indexes index.new cells.new result }
{
    let place = pair::number_told(cells, n, held.count, i);
    let base = pair::state_of(cells[SHEETS_AT + i] as usize) * BYTES;
    let mut next = held;
    let mut c: usize = 0;
    // Kept as a `while`, since a turn goes on by a whole run of bytes.
    while c < BYTES {
        let at = base + c;
        let to = targets[at] as usize + 1;
        let full = Refusal::Pairs(place);
        let went = steps::step(index, cells, next, n, i, place, c, to, ITEMS, full)?;
        next = went.held;
        let edge = vector::edge_of(cells, vector::load(cells, i), n, c);
        c = table::run_end(targets, at, base + edge) - base;
    }
    Ok(next)
}

// The rows of all items, those found on the way too.
// Kept apart from filled::fill_rows: that one writes the targets that this one reads, and promises another thing.
fn walk_rows(
    index: &mut [u16],
    cells: &mut [u64],
    held: Extent,
    n: usize,
    targets: &[u8],
) -> Result<Extent, Refusal>
    requires beside { Beside cells.old n held.top held.count targets.now }
    requires closed { Closed targets.now }
    requires indexed { Indexed index.old cells.old held.top }
    ensures { Ends n targets.now cells.new
        (rows (by_targets targets.now) items 0 (held_of cells.old n held.top held.count)) result }
{
    let mut next = held;
    let mut i: usize = 0;
    // Kept as a `while`: a row adds items, and the end of a range would stand before the first.
    while i < next.count {
        next = walk_row(index, cells, next, n, i, targets)?;
        i += 1;
    }
    Ok(next)
}

// The whole walk of a book's `n` rules beside a table's targets.
pub fn walk_from<'a>(
    book: &'a [u8],
    n: usize,
    cells: &mut [u64],
    targets: &'a [u8],
) -> Result<Extent, Refusal>
    requires opened { Opened book.now n }
    requires work_length_in_bounds { work_length ≤ length cells.old }
    requires cells_len_bound { length cells.old ≤ work_cells }
    requires closed { Closed targets.now }
    requires has_row { HasRow targets.now 0 }
    ensures { Ends n targets.now cells.new
        (walk_from (by_targets targets.now) (rules_in book.now)) result }
{
    let mut index = [0u16; HEADS];
    let begun = start::begun(book, n, &mut index, cells)?;
    walk_rows(&mut index, cells, begun.held, n, targets)
}
