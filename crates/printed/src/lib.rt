// What program cut does with the bytes that it read: it prints a refusal, alone, or the lines of the words, turn by turn, from one small buffer.
// A write that fails ends it at once, so that nothing is missing in the middle of what was printed, and the failure is told once.
#![tactic(auto)]

ghost use Rattle.std.specs.Prelude.{◌+◌, ◌*◌, ◌^◌, ◌<◌, ◌≤◌, ◌≡◌, length};
ghost use Rattle.number.specs.Limits.{text_file};
ghost use Rattle.cutting.specs.Flat.{record_cells};
ghost use Rattle.programs.specs.Print.{cut_print, turn_words, cut_room};
ghost use Rattle.turns.specs.Turned.{kind_by};
ghost use Rattle.cut_lines.specs.Rest.{rest_lines};
ghost use Rattle.printed.specs.Handed.{Due, Next, Counts};

use cut_lines::{CUT_ROOM, TURN_CELLS};
use number::limits::{RULES, STATES, TABLE_CELLS};
use turns::Turn;
use vector::layout::WORK_LENGTH;

// A write to standard output failed behind so many bytes. Of the bytes of that write none is counted, since only the system knows how many of them
// were written.
#[derive(Clone, Copy, PartialEq, Eq)]
pub struct Failed {
    pub printed: usize,
}

// Prints the bytes that are due behind so many others, and answers how many were printed by then. Book and text are handed in for the promise,
// which says by them which bytes are due.
fn print_next<'a, P: Print + Eprint>(
    rt: &P,
    book: &'a [u8],
    text: &'a [u8],
    before: usize,
    part: &[u8],
) -> Result<usize, Failed>
    requires due { Due (cut_print book.now text.now) before part.now }
    requires part_bound { before + length part.now < 2 ^ 64 }
    ensures { Next before (length part.now) result }
{
    if transfer::is_all(files::print(rt, part)) {
        return Ok(before + part.len());
    }
    Err(Failed { printed: before })
}

// Prints turn after turn. Every turn but the last takes a byte of the text at least.
fn print_turns<'a, P: Print + Eprint>(
    rt: &P,
    book: &'a [u8],
    text: &'a [u8],
    count: usize,
    labels: &'a [u8],
    targets: &'a [u8],
    kinds: &[usize],
    records: &mut [usize],
    out: &mut [u8],
) -> Result<usize, Failed>
    requires text_value { rest_lines (kind_by kinds.now) count labels.now targets.now text.now 0 0 ≡ cut_print book.now text.now }
    requires text_len_bound { length text.now ≤ text_file }
    requires records_len { length records.old ≡ record_cells * turn_words }
    requires out_len { length out.old ≡ cut_room }
    ensures { Counts (cut_print book.now text.now) result }
{
    let mut from: usize = 0;
    let mut sum: usize = 0;
    let mut handed: usize = 0;
    // Kept as a `loop`: each turn tells where the next one starts.
    loop {
        match cut_lines::next_part(count, labels, targets, text, from, sum, kinds, records, out) {
            Turn::Last(end) => return print_next(rt, book, text, handed, &out[0..end]),
            Turn::Onward(next, more, end) => {
                handed = print_next(rt, book, text, handed, &out[0..end])?;
                from = next;
                sum = more;
            }
        }
    }
}

// Prints all that program cut prints for the bytes of its book and of its text, and answers how many that is; more bytes than a file may have
// stand for one that is missing or too long.
pub fn print_cut<'a, P: Print + Eprint>(
    rt: &P,
    book: &'a [u8],
    text: &'a [u8],
) -> Result<usize, Failed>
    ensures { Counts (cut_print book.now text.now) result }
{
    let mut labels = [0u8; STATES];
    let mut targets = [0u8; TABLE_CELLS];
    let mut work = [0u64; WORK_LENGTH];
    let mut kinds = [0usize; RULES];
    let mut records = [0usize; TURN_CELLS];
    let mut out = [0u8; CUT_ROOM];
    match cut_lines::begin(
        book,
        text,
        &mut labels,
        &mut targets,
        &mut work,
        &mut kinds,
        &mut out,
    ) {
        Err(told) => print_next(rt, book, text, 0, &out[0..told.end]),
        Ok(count) => {
            print_turns(
                rt,
                book,
                text,
                count,
                &labels,
                &targets,
                &kinds,
                &mut records,
                &mut out,
            )
        }
    }
}
