// A sheet loaded: read into the table area, with all of the area that is not its table made 0.
// The call takes every input and leaves what table's Calls says.
#![tactic(auto)]

ghost use Rattle.table.specs.Promises.{Loads};

use number::Refusal;
use number::limits::{BYTES, STATES, TABLE_CELLS};
use reading::read_sheet;

// A sheet is read into the table area. The area is gone over once: the states that were read stay, all else is made 0.
pub fn load(sheet: &[u8], labels: &mut [u8], targets: &mut [u8]) -> Result<usize, Refusal>
    ensures { Loads sheet.now labels.old targets.old
        labels.new targets.new result }
{
    if labels.len() < STATES || targets.len() < TABLE_CELLS {
        return Err(Refusal::Room);
    }
    let read = read_sheet(sheet, labels, targets);
    let (count, _) = read.unwrap_or((0, 0));
    labels[count..].fill(0);
    targets[count * BYTES..].fill(0);
    read.and(Ok(count))
}
