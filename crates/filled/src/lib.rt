// A table area filled from what the walk holds: the rows of all items, those found on the way too, and their labels.
// Only the table's front is written; the rest of the area is left to the call above.
#![tactic(auto)]

ghost use Rattle.std.specs.Prelude.{◌≡◌, ◌≤◌, length};
ghost use Rattle.number.specs.Limits.{states};
ghost use Rattle.number.specs.Lists.{written};
ghost use Rattle.walk.specs.Walk.{rows};
ghost use Rattle.pool.specs.Index.{Indexed};
ghost use Rattle.vector.specs.Memory.{items_of, held_of};
ghost use Rattle.built.specs.Build.{alone, built_of};
ghost use Rattle.row.specs.Fill.{Fillable};
ghost use Rattle.filled.specs.Tabled.{RowsFilled, Labelled, labels_of, Tabled};

use number::Refusal;
use steps::Extent;

// The rows of all items, those found on the way too; the answer tells what is held then.
fn fill_rows(
    index: &mut [u16],
    cells: &mut [u64],
    held: Extent,
    n: usize,
    targets: &mut [u8],
) -> Result<Extent, Refusal>
    requires fillable { Fillable cells.old n held.top held.count targets.old }
    requires indexed { Indexed index.old cells.old held.top }
    ensures { RowsFilled cells.old n held.top held.count targets.old cells.new targets.new result }
{
    let mut next = held;
    let mut i: usize = 0;
    // Kept as a `while`: a row adds items, and the end of a range would stand before the first.
    while i < next.count {
        next = row::fill_row(index, cells, next, n, i, targets)?;
        i += 1;
    }
    Ok(next)
}

// The label of each item.
fn fill_labels(cells: &[u64], n: usize, count: usize, labels: &mut [u8])
    requires { Labelled cells.now n count labels.old }
    ensures { labels.new ≡ written labels.old 0 (labels_of (items_of cells.now n count)) }
{
    for i in 0..count {
        labels[i] = vector::label_of(cells, vector::load(cells, i), 0, n) as u8;
    }
}

// The table of what is held and of all that is found from there.
pub fn fill_table(
    index: &mut [u16],
    cells: &mut [u64],
    held: Extent,
    n: usize,
    labels: &mut [u8],
    targets: &mut [u8],
) -> Result<usize, Refusal>
    requires fillable { Fillable cells.old n held.top held.count targets.old }
    requires states_in_bounds { states ≤ length labels.old }
    requires indexed { Indexed index.old cells.old held.top }
    ensures { Tabled (built_of (rows alone states 0 (held_of cells.old n held.top held.count)))
        labels.new targets.new result }
{
    let made = fill_rows(index, cells, held, n, targets)?;
    fill_labels(cells, n, made.count, labels);
    Ok(made.count)
}
