// Laid nodes written to bytes, as a rule book has them.
// Each writer answers the place after what it wrote; a cell takes at most seven bytes, whatever it holds.
ghost use Rattle.std.specs.Prelude.{◌+◌, ◌*◌, ◌≤◌, length};
ghost use Rattle.number.specs.Lists.{Writes};
ghost use Rattle.laid.specs.Bytes.{cell_bytes, cells_bytes};

use crate::RANGE;
use number::write_number;

// A node: its code, and a range's bounds.
fn write_cell(x: u32, out: &mut [u8], at: usize) -> usize
    requires { at + 7 ≤ length out.old }
    ensures { Writes (cell_bytes x) out.old out.new at result }
{
    let first = write_number((x % 8) as usize, out, at);
    if x % 8 != RANGE {
        return first;
    }
    let bounds = (x / 8) as usize;
    let second = write_number(bounds / 256, out, first);
    write_number(bounds % 256, out, second)
}

// The nodes, one after the other.
pub fn write_cells(cells: &[u32], out: &mut [u8], at: usize) -> usize
    requires { at + length cells.now * 7 ≤ length out.old }
    ensures { Writes (cells_bytes cells.now) out.old out.new at result }
{
    let mut p = at;
    for x in cells {
        p = write_cell(*x, out, p);
    }
    p
}
