// Comparing a book with a table in lent memory: the same, or the shortest, lowest text that they cut differently.
// A table that is not well formed is refused first, then the book; then the walk is finished, and what it found is shown.
#![tactic(auto)]

ghost use Rattle.std.specs.Prelude.{◌≤◌, length};
ghost use Rattle.number.specs.Limits.{work_cells};
ghost use Rattle.vector.specs.Layout.{work_length};
ghost use Rattle.shown.specs.Promises.{Blank, Answers};
ghost use Rattle.comparing.specs.Promises.{Comparable, Rules, loaded_of, Compares};

use number::Refusal;
use number::limits::{BYTES, SHOWN_TEXT};
use vector::layout::WORK_LENGTH;
pub use verdict::Difference;

// A book's `n` rules against a table's labels and targets, which are cut to its states.
fn compare_rules<'a>(
    book: &'a [u8],
    n: usize,
    labels: &'a [u8],
    targets: &'a [u8],
    area: &mut [u8],
    cells: &mut [u64],
) -> Result<Option<Difference>, Refusal>
    requires { Comparable book.now n labels.now targets.now area.old cells.old }
    ensures { Rules book.now labels.now targets.now
        area.old area.new result }
{
    let held = pairs::walk_from(book, n, cells, targets)?;
    Ok(shown::show(cells, n, held.count, labels, area))
}

// Past Room: a table that is not well formed is refused before the book is read.
fn compare_loaded<'a>(
    book: &'a [u8],
    count: usize,
    labels: &'a [u8],
    targets: &'a [u8],
    area: &mut [u8],
    cells: &mut [u64],
) -> Result<Option<Difference>, Refusal>
    requires blank { Blank area.old }
    requires work_length_in_bounds { work_length ≤ length cells.old }
    requires cells_len_bound { length cells.old ≤ work_cells }
    ensures { Answers (loaded_of book.now count labels.now targets.now)
        area.old area.new result }
{
    if !table::well_formed(count, labels, targets) {
        return Err(Refusal::Loaded);
    }
    let (n, _) = checking::check_book(book)?;
    let end = count * BYTES;
    let ls = &labels[0..count];
    let ts = &targets[0..end];
    compare_rules(book, n, ls, ts, area, cells)
}

// With room: only the front of the work area is lent on, so that a cell's number fits sixteen bits.
fn compare_part<'a>(
    book: &'a [u8],
    count: usize,
    labels: &'a [u8],
    targets: &'a [u8],
    area: &mut [u8],
    work: &mut [u64],
) -> Result<Option<Difference>, Refusal>
    requires blank { Blank area.old }
    requires work_length_in_bounds { work_length ≤ length work.old }
    ensures { Answers (loaded_of book.now count labels.now targets.now)
        area.old area.new result }
{
    compare_loaded(
        book,
        count,
        labels,
        targets,
        area,
        &mut work[0..WORK_LENGTH],
    )
}

// A book's bytes against a table in lent memory: the answer, the shown text at the front of the text area, and 0 in all else that was lent.
pub fn compare_book<'a>(
    book: &'a [u8],
    count: usize,
    labels: &'a [u8],
    targets: &'a [u8],
    text_area: &mut [u8],
    work: &mut [u64],
) -> Result<Option<Difference>, Refusal>
    ensures { Compares book.now count labels.now targets.now
        text_area.old work.old text_area.new work.new result }
{
    let room = text_area.len();
    if room < SHOWN_TEXT {
        return Err(Refusal::Room);
    }
    if work.len() < WORK_LENGTH {
        return Err(Refusal::Room);
    }
    table::fill(text_area, 0, room, 0);
    let answer = compare_part(book, count, labels, targets, text_area, work);
    vector::clear(work);
    answer
}
