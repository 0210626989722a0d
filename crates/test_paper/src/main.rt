// Runs the lines of document 01 that are to be run and compared, and prints what came of each: a label, then the answer.
// A case is a line of data/cases, which says how it is read; the file stdout beside src/ has what the paper says, worked out by hand.
#![tactic(auto)]

ghost use Rattle.std.specs.Prelude.{◌≡◌, length};

use cases::Case;
use number::limits::{STATES, TABLE_CELLS};

mod bytes;
mod cases;
mod cuts;
mod say;
mod tables;

// More than data/cases has, and more than a case's first area; the longest text.
const FILE: usize = 32768;

const FIRST: usize = 2048;

// The second area, and the targets of a table that is loaded.
const LARGE: usize = 65536;

// Only its length is told: a prover that sees so many cells goes through them.
fn room() -> [u8; FILE]
    ensures { 32768 ≡ length result }
{
    [0; FILE]
}

// The same of an area that holds more bytes than a table has targets.
pub(crate) fn large_room() -> [u8; LARGE]
    ensures { 65536 ≡ length result }
{
    [0; LARGE]
}

// What a case calls, with its areas.
fn call<'a>(rt: &HostRuntime, case: Case, a: &'a [u8], b: &'a [u8], c: &'a [u8]) {
    let first = case.first;
    let second = case.second;
    let letter = case.call;
    // Kept as a `match`: each call has other arguments.
    match letter {
        b'n' => bytes::tell_number(rt, number::read_number(a, first)),
        b'f' => bytes::tell_field(rt, number::read_field(a, 0, first, second)),
        b'b' => bytes::tell_book(rt, a),
        b'k' => bytes::tell_kind(rt, a, first),
        b's' => tables::tell_load(rt, a, STATES, TABLE_CELLS, first != 0),
        b'l' => tables::tell_load(rt, a, first, second, false),
        b'w' => tables::tell_write(rt, first, a, b, second),
        b'c' => cuts::into_cells(rt, first, a, b, c, second, case.third),
        _ => cuts::into_records(rt, first, a, b, c, second),
    }
}

// The areas of a case, behind its colon.
fn run_case(rt: &HostRuntime, line: &[u8], from: usize, case: Case) {
    let mut first = [0u8; FIRST];
    let mut second = large_room();
    let mut third = room();
    let a = cases::fill(line, from, &mut first);
    let b = cases::fill(line, a.next, &mut second);
    let c = cases::fill(line, b.next, &mut third);
    let i = a.value;
    let j = b.value;
    let k = c.value;
    call(rt, case, &first[0..i], &second[0..j], &third[0..k]);
}

// A case's label is printed, with its colon and a space; a line without a label, or with a mark before it, is none.
fn run_line(rt: &HostRuntime, line: &[u8]) {
    let colon = cases::find(line, 0, b':');
    if line.len() < colon + 2 {
        return;
    }
    let letter = line[0];
    if letter == b'#' {
        return;
    }
    say::text(rt, &line[0..colon + 2]);
    run_case(rt, line, colon, cases::case_of(line, letter, colon + 2));
}

fn run_lines(rt: &HostRuntime, text: &[u8]) {
    for line in text.split(|c| *c == b'\n') {
        run_line(rt, line);
    }
}

fn main(rt: HostRuntime) {
    let mut file = room();
    let end = files::read_named(&rt, b"cases", &mut file);
    run_lines(&rt, &file[0..end]);
}
