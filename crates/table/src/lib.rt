// Tables in lent memory: labels hold one cell a state and targets 256. Whether they are a table is tested here; sheets are read
// and written in the crates loading and writing.
#![tactic(auto)]

ghost use Rattle.std.specs.Prelude.{◌≡◌, ℕ, ◌-◌, ◌≤◌, ◌<◌, ltb, length, replicate};
ghost use Rattle.number.specs.Lists.{written};
ghost use Rattle.table.specs.Table.{all};
ghost use Rattle.table.specs.Promises.{Tests, RunTo};

use number::limits::{BYTES, RULES, STATES};

// The longest sheet: version and count in three bytes, and for each state a label, a run count in two bytes, and 256 runs of three,
// since a target of 128 and up takes two.
pub const LONGEST_SHEET: usize = 3 + STATES * (3 + 3 * BYTES);

// One value into the cells from `from` to `end`.
// Kept beside the library's `fill`, by which it is made: docs/PROMISES.md names it.
pub fn fill(cells: &mut [u8], from: usize, end: usize, value: u8)
    requires { (from ≤ end) × (end ≤ length cells.old) }
    ensures { cells.new ≡ written cells.old from (replicate (end - from) value) }
{
    cells[from..end].fill(value);
}

// Each cell is below a limit. The largest is tested for all, so that many are compared at a time: `all` looks at one after another,
// which took more than ten times as long over the 65,280 targets that are tested at each call.
fn all_below(cells: &[u8], limit: usize) -> bool
    ensures { result ≡ all (λ (x : ℕ). ltb x limit) cells.now }
{
    match cells.iter().copied().max() {
        Some(most) => (most as usize) < limit,
        None => true,
    }
}

// Lent memory holds a table of `count` states.
// The count is tested before it is multiplied, so that no product can wrap.
// Kept as three parameters, here and in all calls: C lends them so, and the theorems of answers speak of the three.
pub fn well_formed(count: usize, labels: &[u8], targets: &[u8]) -> bool
    ensures { Tests count labels.now targets.now result }
{
    if count < 1 || STATES < count || labels.len() < count || targets.len() < count * BYTES {
        return false;
    }
    all_below(&labels[..count], RULES + 1) && all_below(&targets[..count * BYTES], count)
}

// Where the run of one target that starts at `from` ends: the first place with another target, or `end`.
// Kept as a part of one slice: callers go on in it from place to place, and the answer is a place there.
pub fn run_end(targets: &[u8], from: usize, end: usize) -> usize
    requires { (from < end) × (end ≤ length targets.now) }
    ensures { RunTo targets.now from end result }
{
    let target = targets[from];
    let behind = &targets[from + 1..end];
    match behind.iter().position(|other| *other != target) {
        Some(more) => from + 1 + more,
        None => end,
    }
}
