// What is shown once the walk is finished: the first pair whose labels differ, by the shortest, lowest text that leads to it.
// The text is read back from item to item, each with the byte that led to it.
#![tactic(auto)]

ghost use Rattle.std.specs.Prelude.{◌≡◌, ◌+◌, ◌≤◌, length};
ghost use Rattle.number.specs.Lists.{Writes};
ghost use Rattle.vector.specs.Memory.{text_of};
ghost use Rattle.shown.specs.Promises.{Legible, Sees, Traced, Blank, Shows};

use vector::layout::{BYTES_AT, PARENTS_AT, SHEETS_AT};
use verdict::Difference;

// An item whose labels differ, the book's label and the table's.
#[derive(Clone, Copy)]
struct Seen {
    item: usize,
    by_book: usize,
    by_table: usize,
}

// The first of the items past the entry whose labels differ, with both labels.
fn first_differing<'a>(cells: &'a [u64], n: usize, count: usize, labels: &'a [u8]) -> Option<Seen>
    requires { Legible cells.now n count labels.now }
    ensures { Sees cells.now n count labels.now result }
{
    for k in 1..count {
        let by_book = vector::label_of(cells, vector::load(cells, k), 0, n);
        let state = pair::state_of(cells[SHEETS_AT + k] as usize);
        let by_table = labels[state] as usize;
        if by_book != by_table {
            return Some(Seen {
                item: k,
                by_book,
                by_table,
            });
        }
    }
    None
}

// How long the text of item `k` is: a byte for each step back to the entry.
fn text_length(cells: &[u64], k: usize) -> usize
    requires { Traced cells.now (k + 1) }
    ensures { result ≡ length (text_of cells.now k) }
{
    let mut item = k;
    let mut len: usize = 0;
    // Kept as a `while`: it goes back from item to item by their parents, and no index is counted.
    while 0 < item {
        item = cells[PARENTS_AT + item] as usize;
        len += 1;
    }
    len
}

// Writes the text of item `k` to the front of the area and answers its length.
// The last byte is found first, so the text is written from its end to its front.
fn write_text(cells: &[u64], k: usize, area: &mut [u8]) -> usize
    requires traced { Traced cells.now (k + 1) }
    requires k_in_bounds { k ≤ length area.old }
    ensures { Writes (text_of cells.now k) area.old area.new 0 result }
{
    let len = text_length(cells, k);
    let mut item = k;
    let mut left = len;
    // Kept as a `while`: from item to item, as above.
    while 0 < item {
        left -= 1;
        area[left] = cells[BYTES_AT + item] as u8;
        item = cells[PARENTS_AT + item] as usize;
    }
    len
}

// What is answered once the walk is finished, with the text written if there is one.
// `Blank` stays a clause: the fact has one name, and it is of an area that is lent.
pub fn show<'a>(
    cells: &'a [u64],
    n: usize,
    count: usize,
    labels: &'a [u8],
    area: &mut [u8],
) -> Option<Difference>
    requires legible { Legible cells.now n count labels.now }
    requires traced { Traced cells.now count }
    requires blank { Blank area.old }
    ensures { Shows cells.now n count labels.now area.old area.new result }
{
    let seen = first_differing(cells, n, count, labels)?;
    let len = write_text(cells, seen.item, area);
    Some(Difference {
        len,
        by_book: seen.by_book,
        by_table: seen.by_table,
    })
}
