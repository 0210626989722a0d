// One row of a table: the walk goes on from one item, byte by byte, and the numbers that it comes to are the row's 256 targets.
// A row goes run by run: one derivative for each run of bytes that no range tells apart.
#![tactic(auto)]

ghost use Rattle.std.specs.Prelude.{◌<◌};
ghost use Rattle.pool.specs.Index.{Indexed};
ghost use Rattle.steps.specs.Step.{Indexes};
ghost use Rattle.row.specs.Fill.{Fillable, RowFilled};

use number::Refusal;
use number::limits::{BYTES, STATES};
use steps::Extent;
use table::fill;

// The row of item `i` goes into its 256 targets, run by run; the answer tells what is held then.
// `Fillable` stays a clause: the fact has one name, and it is of areas that are lent.
pub fn fill_row(
    index: &mut [u16],
    cells: &mut [u64],
    held: Extent,
    n: usize,
    i: usize,
    targets: &mut [u8],
) -> Result<Extent, Refusal>
    requires fillable { Fillable cells.old n held.top held.count targets.old }
    requires i_lt_count { i < held.count }
    requires indexed { Indexed index.old cells.old held.top }
    ensures row_filled { RowFilled cells.old n held.top held.count i targets.old cells.new targets.new result }
    ensures follows { Indexes index.new cells.new result }
{
    let base = i * BYTES;
    let mut next = held;
    let mut byte: usize = 0;
    // Kept as a `while`, since a turn goes on by a whole run of bytes.
    while byte < BYTES {
        let edge = vector::edge_of(cells, vector::load(cells, i), n, byte);
        let full = Refusal::States(i);
        let made = steps::step(index, cells, next, n, i, i, byte, 0, STATES, full)?;
        fill(targets, base + byte, base + edge, made.number as u8);
        next = made.held;
        byte = edge;
    }
    Ok(next)
}
