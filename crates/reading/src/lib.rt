// A sheet read into lent memory, state by state and run by run, each cell written as it is read.
// Each reader follows its definition of table's Sheet and requires room for what it reads; what a refused one has left is not told.
#![tactic(auto)]

ghost use Rattle.std.specs.Prelude.{◌*◌, ◌≤◌, IfOk, length};
ghost use Rattle.number.specs.Limits.{states, bytes, table_cells};
ghost use Rattle.table.specs.Sheet.{read_runs, read_states, read_sheet};
ghost use Rattle.reading.specs.Promises.{LaysRow, LaysRows, LaysTable};

use number::Refusal;
use number::limits::{BYTES, RULES, SHEET_VERSION, STATES};

// So many runs of a state of a sheet of s states go into its row; before the first, s stands for the target, which is none.
fn read_runs(
    sheet: &[u8],
    at: usize,
    s: usize,
    count: usize,
    row: &mut [u8],
) -> Result<(usize, usize), Refusal>
    requires { (1 ≤ s) × (s ≤ states) × (bytes ≤ length row.old) }
    ensures { LaysRow (read_runs sheet.now s count at) s
        row.old 0 row.new result }
{
    let mut place = at;
    let mut covered = 0;
    let mut before = s;
    for _ in 0..count {
        let (len, at_target) = number::read_field(sheet, place, 1, BYTES)?;
        let end = covered + len;
        if BYTES < end {
            return Err(Refusal::Runs(place));
        }
        let (target, next) = number::read_field(sheet, at_target, 0, s - 1)?;
        if target == before {
            return Err(Refusal::Runs(at_target));
        }
        row[covered..end].fill(target as u8);
        covered = end;
        before = target;
        place = next;
    }
    if covered < BYTES {
        return Err(Refusal::Runs(place));
    }
    Ok((s, place))
}

// All states of a sheet of s states.
fn read_states(
    sheet: &[u8],
    at: usize,
    s: usize,
    labels: &mut [u8],
    targets: &mut [u8],
) -> Result<(usize, usize), Refusal>
    requires { (1 ≤ s) × (s ≤ states) × (s ≤ length labels.old) × (s * bytes ≤ length targets.old) }
    ensures { LaysRows (read_states sheet.now s at) s 0
        labels.old targets.old labels.new targets.new result }
{
    let mut place = at;
    for i in 0..s {
        let (label, at_count) = number::read_field(sheet, place, 0, RULES)?;
        let (count, at_runs) = number::read_field(sheet, at_count, 1, BYTES)?;
        labels[i] = label as u8;
        let row = &mut targets[i * BYTES..i * BYTES + BYTES];
        let (_, next) = read_runs(sheet, at_runs, s, count, row)?;
        place = next;
    }
    Ok((s, place))
}

// A whole sheet.
pub fn read_sheet(
    sheet: &[u8],
    labels: &mut [u8],
    targets: &mut [u8],
) -> Result<(usize, usize), Refusal>
    requires { (states ≤ length labels.old) × (table_cells ≤ length targets.old) }
    ensures laid { LaysTable (read_sheet sheet.now)
        labels.old targets.old labels.new targets.new result }
    ensures few { IfOk result (λ read. read.0 ≤ states) }
{
    let (_, at_count) = number::read_field(sheet, 0, SHEET_VERSION, SHEET_VERSION)?;
    let (s, at_states) = number::read_field(sheet, at_count, 1, STATES)?;
    let (_, end) = read_states(sheet, at_states, s, labels, targets)?;
    if end < sheet.len() {
        return Err(Refusal::Tail(end));
    }
    Ok((s, end))
}
