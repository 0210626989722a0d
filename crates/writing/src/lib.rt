// A table written as its sheet: first how long the sheet will be, then its bytes.
// Each function follows its definition of table's Sheet over a whole table; write_sheet is the call, and takes every input.
#![tactic(auto)]

ghost use Rattle.std.specs.Prelude.{◌≡◌, ◌+◌, ◌*◌, ◌≤◌, length};
ghost use Rattle.number.specs.Limits.{states, bytes};
ghost use Rattle.number.specs.Lists.{Writes};
ghost use Rattle.table.specs.Sheet.{write_states, write_sheet};
ghost use Rattle.table.specs.Promises.{WritesSheet};
ghost use Rattle.writing.specs.WritingLaws.{whole};

use number::Refusal;
use number::limits::{BYTES, SHEET_VERSION};

// How many bytes the states take.
fn states_length(labels: &[u8], targets: &[u8]) -> usize
    requires { (length labels.now ≤ states) × (length targets.now ≡ length labels.now * bytes) }
    ensures { result ≡ length (write_states labels.now targets.now) }
{
    let mut len: usize = 0;
    for (i, label) in labels.iter().enumerate() {
        let cell = i * BYTES;
        len += number::number_width(*label as usize)
            + runs::row_length(&targets[cell..cell + BYTES]);
    }
    len
}

// How many bytes the sheet takes.
fn sheet_length(labels: &[u8], targets: &[u8]) -> usize
    requires { (length labels.now ≤ states) × (length targets.now ≡ length labels.now * bytes) }
    ensures { result ≡ length (write_sheet (whole labels.now targets.now)) }
{
    let head = number::number_width(SHEET_VERSION) + number::number_width(labels.len());
    head + states_length(labels, targets)
}

// The states: each its label, then its row.
fn write_states(labels: &[u8], targets: &[u8], out: &mut [u8], at: usize) -> usize
    requires table { (length labels.now ≤ states) × (length targets.now ≡ length labels.now * bytes) }
    requires room { at + length (write_states labels.now targets.now) ≤ length out.old }
    ensures { Writes (write_states labels.now targets.now)
        out.old out.new at result }
{
    let mut next = at;
    for (i, label) in labels.iter().enumerate() {
        let cell = i * BYTES;
        let at_row = number::write_number(*label as usize, out, next);
        next = runs::write_row(&targets[cell..cell + BYTES], out, at_row);
    }
    next
}

// A table is written as its sheet, if it is well formed and the sheet has room.
pub fn write_sheet<'a>(
    count: usize,
    labels: &'a [u8],
    targets: &'a [u8],
    out: &mut [u8],
) -> Result<usize, Refusal>
    ensures { WritesSheet count labels.now targets.now
        out.old out.new result }
{
    if !table::well_formed(count, labels, targets) {
        return Err(Refusal::Loaded);
    }
    let labels = &labels[..count];
    let targets = &targets[..count * BYTES];
    if out.len() < sheet_length(labels, targets) {
        return Err(Refusal::Room);
    }
    let at_count = number::write_number(SHEET_VERSION, out, 0);
    let at_states = number::write_number(count, out, at_count);
    Ok(write_states(labels, targets, out, at_states))
}
