// Rows of a table as a sheet has them, each as its runs: first how long a row will be, then its bytes.
// Each function follows its definition of table's Sheet; writing puts rows together to a sheet.
#![tactic(auto)]

ghost use Rattle.std.specs.Prelude.{◌≡◌, ◌+◌, ◌≤◌, ◌<◌, length};
ghost use Rattle.number.specs.Limits.{bytes};
ghost use Rattle.number.specs.Lists.{Writes};
ghost use Rattle.table.specs.Sheet.{runs_of, write_runs, write_row};

// How many runs a row has.
fn count_runs(row: &[u8]) -> usize
    ensures { result ≡ length (runs_of row.now) }
{
    row.chunk_by(|a, b| a == b).count()
}

// How many bytes these runs take.
fn runs_length(row: &[u8]) -> usize
    requires { length row.now ≤ bytes }
    ensures { result ≡ length (write_runs (runs_of row.now)) }
{
    let mut len: usize = 0;
    for run in row.chunk_by(|a, b| a == b) {
        len += number::number_width(run.len()) + number::number_width(run[0] as usize);
    }
    len
}

// How many bytes a row takes.
// The length stays a clause, here and below: an array of 256 would ask more than at most 256.
pub fn row_length(row: &[u8]) -> usize
    requires { length row.now ≤ bytes }
    ensures { result ≡ length (write_row row.now) }
{
    number::number_width(count_runs(row)) + runs_length(row)
}

// The runs of a row go into `out` from `at` on.
// The answer is the place after them, as for every writer here.
fn write_runs(row: &[u8], out: &mut [u8], at: usize) -> usize
    requires short { length row.now ≤ bytes }
    requires room { at + length (write_runs (runs_of row.now)) ≤ length out.old }
    ensures { Writes (write_runs (runs_of row.now))
        out.old out.new at result }
{
    let mut next = at;
    for run in row.chunk_by(|a, b| a == b) {
        let at_target = number::write_number(run.len(), out, next);
        next = number::write_number(run[0] as usize, out, at_target);
    }
    next
}

// A row: its count of runs, then the runs.
pub fn write_row(row: &[u8], out: &mut [u8], at: usize) -> usize
    requires short { length row.now ≤ bytes }
    requires room { at + length (write_row row.now) ≤ length out.old }
    ensures { Writes (write_row row.now)
        out.old out.new at result }
{
    let at_runs = number::write_number(count_runs(row), out, at);
    write_runs(row, out, at_runs)
}
