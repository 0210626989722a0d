// What program compare prints: whether book and sheet are the same, or a text on which they differ, or a refusal.
// Files that are missing or too long are told first, then the book's faults, then the sheet's, then the walk's.
#![tactic(auto)]

ghost use Rattle.std.specs.Prelude.{◌≤◌, ◌≡◌, length};
ghost use Rattle.number.specs.Limits.{states, table_cells, shown_text};
ghost use Rattle.number.specs.Lists.{Writes};
ghost use Rattle.vector.specs.Layout.{work_length};
ghost use Rattle.programs.specs.Print.{compare_files, compare_print, compare_room};
ghost use Rattle.compare_lines.specs.ToldLines.{told_lines, Inside};
ghost use Rattle.compare_lines.specs.ToldLinesLaws.{AnswerHeld};

use lines::LINE_ROOM;
use number::Refusal;
use number::limits::{BOOK_FILE, SHEET_FILE, SHOWN_TEXT, STATES, TABLE_CELLS};
use vector::layout::WORK_LENGTH;
use verdict::Difference;

// A line, and the shown text in two digits a byte with the line's end.
pub const COMPARE_ROOM: usize = LINE_ROOM + (2 * SHOWN_TEXT + 1);

// The lines of an answer, whose text stands in its area.
fn put_answer(answer: Result<Option<Difference>, Refusal>, area: &[u8], out: &mut [u8]) -> usize
    requires inside { Inside area.now answer }
    requires area_len { length area.now ≡ shown_text }
    requires compare_room_in_bounds { compare_room ≤ length out.old }
    ensures writes { Writes (told_lines area.now answer) out.old out.new 0 result }
    ensures upper_bound { result ≤ length out.new }
{
    match answer {
        Ok(None) => lines::put_same(out, 0),
        Ok(Some(found)) => {
            let at = lines::put_differs(found.len, found.by_book, found.by_table, out, 0);
            lines::put_hex_line(&area[0..found.len], 0, out, at)
        }
        Err(r) => lines::put_refused(r, out, 0),
    }
}

// What comparing both files answers: the book's faults, then the sheet's, then the walk's.
fn answer<'a>(
    book: &'a [u8],
    sheet: &'a [u8],
    labels: &mut [u8],
    targets: &mut [u8],
    area: &mut [u8],
    work: &mut [u64],
) -> Result<Option<Difference>, Refusal>
    requires states_in_bounds { states ≤ length labels.old }
    requires table_cells_in_bounds { table_cells ≤ length targets.old }
    requires area_len { length area.old ≡ shown_text }
    requires work_length_in_bounds { work_length ≤ length work.old }
    ensures { AnswerHeld (compare_files book.now sheet.now) area.new result }
{
    checking::check_book(book)?;
    let count = loading::load(sheet, labels, targets)?;
    comparing::compare_book(book, count, labels, targets, area, work)
}

// All that program compare prints for the bytes of its two files; more bytes than a file may have stand for one that is missing or too long.
pub fn compare_lines<'a>(book: &'a [u8], sheet: &'a [u8], out: &mut [u8]) -> usize
    requires { compare_room ≤ length out.old }
    ensures writes { Writes (compare_print book.now sheet.now) out.old out.new 0 result }
    ensures upper_bound { result ≤ length out.new }
{
    if BOOK_FILE < book.len() {
        return lines::put_refused(Refusal::Input, out, 0);
    }
    if SHEET_FILE < sheet.len() {
        return lines::put_refused(Refusal::Input, out, 0);
    }
    let mut labels = [0u8; STATES];
    let mut targets = [0u8; TABLE_CELLS];
    let mut area = [0u8; SHOWN_TEXT];
    let mut work = [0u64; WORK_LENGTH];
    let found = answer(book, sheet, &mut labels, &mut targets, &mut area, &mut work);
    put_answer(found, &area, out)
}
