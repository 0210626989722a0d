// What program cut prints, part by part in one buffer: a refusal, alone, or turn by turn a line for each word of the text and a last one.
// Each part stands at the front of the buffer; specs/Parts.antt says what it and what is still to be printed make up together.
#![tactic(auto)]

ghost use Rattle.std.specs.Prelude.{◌+◌, ◌-◌, ◌*◌, ◌/◌, ◌^◌, ◌<◌, ◌≤◌, length};
ghost use Rattle.number.specs.Limits.{rules, states, table_cells};
ghost use Rattle.number.specs.Lists.{Writes};
ghost use Rattle.cutting.specs.Flat.{record_cells};
ghost use Rattle.vector.specs.Layout.{work_length};
ghost use Rattle.lines.specs.Lines.{line_room, refused_line};
ghost use Rattle.turns.specs.Turned.{kind_by, turn_of, Turned};
ghost use Rattle.cut_lines.specs.Parts.{Begins, Goes};

use cutting::RECORD_CELLS;
use lines::LINE_ROOM;
use number::Refusal;
use number::limits::{BOOK_FILE, TEXT_FILE};
use turns::Turn;

// The words of one turn, the cells of their records, and the room for a line for each of them and a last one.
pub const TURN_WORDS: usize = 640;

pub const TURN_CELLS: usize = RECORD_CELLS * TURN_WORDS;

pub const CUT_ROOM: usize = LINE_ROOM * (TURN_WORDS + 1);

// A refusal is all that is printed: its line stands in the buffer, and where it ends.
#[derive(Clone, Copy, PartialEq, Eq)]
pub struct Told {
    pub end: usize,
}

// A refusal's line, at the front of the buffer.
fn tell(r: Refusal, out: &mut [u8]) -> Told
    requires { line_room ≤ length out.old }
    ensures line { Writes (refused_line r) out.old out.new 0 result.end }
    ensures within { result.end ≤ length out.new }
{
    Told {
        end: lines::put_refused(r, out, 0),
    }
}

// Builds the table of the book, looks up the kinds of its rules, and answers how many states there are. Files that are missing or too long,
// which more bytes than a file may have stand for, are told before the book is looked at.
pub fn begin<'a>(
    book: &'a [u8],
    text: &'a [u8],
    labels: &mut [u8],
    targets: &mut [u8],
    work: &mut [u64],
    kinds: &mut [usize],
    out: &mut [u8],
) -> Result<usize, Told>
    requires states_in_bounds { states ≤ length labels.old }
    requires table_cells_in_bounds { table_cells ≤ length targets.old }
    requires work_length_in_bounds { work_length ≤ length work.old }
    requires rules_in_bounds { rules ≤ length kinds.old }
    requires line_room_in_bounds { line_room ≤ length out.old }
    ensures { Begins book.now text.now labels.new targets.new kinds.new
        out.old out.new result }
{
    if BOOK_FILE < book.len() {
        return Err(tell(Refusal::Input, out));
    }
    if TEXT_FILE < text.len() {
        return Err(tell(Refusal::Input, out));
    }
    match building::build(book, labels, targets, work) {
        Err(r) => Err(tell(r, out)),
        Ok(count) => {
            turns::look_up(book, kinds);
            Ok(count)
        }
    }
}

// The lines of one turn of words, from a place on, where `total` words went before; the last turn's last line too.
// Kept beside turns::cut_turn: it promises `Goes` too, by what this crate knows of the whole text.
pub fn next_part<'a>(
    count: usize,
    labels: &'a [u8],
    targets: &'a [u8],
    text: &'a [u8],
    place: usize,
    total: usize,
    kinds: &[usize],
    records: &mut [usize],
    out: &mut [u8],
) -> Turn
    requires record_cells_in_bounds { record_cells ≤ length records.old }
    requires record_cells_in_bounds_2 { line_room * (length records.old / record_cells + 1) ≤ length out.old }
    requires place_bound { total + (length text.now - place) < 2 ^ 64 }
    ensures turned { Turned (kind_by kinds.now) total
        (turn_of count labels.now targets.now text.now place (length records.old / record_cells))
        out.old out.new result }
    ensures goes { Goes (kind_by kinds.now) count labels.now targets.now text.now place total
        out.old out.new result }
{
    turns::cut_turn(
        count, labels, targets, text, place, total, kinds, records, out,
    )
}
