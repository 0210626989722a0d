// Builds each stored book, cuts the stored text by its table, compares the book with the stored sheet, and prints what came.
// Cases and expected output were made by the model in model/, which knows nothing of this code; docs/CASES.md says what they are.
#![tactic(auto)]

ghost use Rattle.std.specs.Prelude.{◌≤◌, ◌≡◌, length};
ghost use Rattle.number.specs.Limits.{table_cells};
ghost use Rattle.table.specs.Formed.{longest_sheet};
ghost use Rattle.vector.specs.Layout.{work_length};

use cutting::{Ended, RECORD_CELLS};
use lines::LINE_ROOM;
use number::Refusal;
use number::limits::{BOOK_FILE, SHOWN_TEXT, STATES, TABLE_CELLS};
use std::fs::File;
use std::str;
use table::LONGEST_SHEET;
use vector::layout::WORK_LENGTH;
use verdict::Difference;

// Cases have numbers of three digits.
const NUMBERS: usize = 1000;

// The longest stored text, and room for so few words that some cuts are full.
const TEXT: usize = 512;

const WORDS: usize = 6;

// Large areas. Only their lengths are told: a prover that sees so many cells goes through them.
fn sheet_room() -> [u8; LONGEST_SHEET]
    ensures { longest_sheet ≡ length result }
{
    [0; LONGEST_SHEET]
}

fn targets_room() -> [u8; TABLE_CELLS]
    ensures { table_cells ≡ length result }
{
    [0; TABLE_CELLS]
}

fn work_room() -> [u64; WORK_LENGTH]
    ensures { work_length ≡ length result }
{
    [0; WORK_LENGTH]
}

// A file of a case, as c000.book, into a buffer; the bytes that were read. A file that is not there is empty; it is asked for first, since
// read_named answers the buffer's length for it, and so for the longest sheets.
fn read_case(rt: &HostRuntime, name: &[u8], buffer: &mut [u8]) -> usize
    ensures { result ≤ length buffer.new }
{
    if is_stored(rt, name) {
        return files::read_named(rt, name, buffer);
    }
    0
}

fn is_stored(rt: &HostRuntime, name: &[u8]) -> bool {
    match str::from_utf8(name) {
        Ok(path) => File::open(rt, path).is_ok(),
        Err(_) => false,
    }
}

// digit, say, say_refused and say_byte stand in test_typing too: each test program stands alone and prints by its own few lines.
// Kept by hand: char::from_digit answers an Option of a char, where a name takes bytes.
fn digit(n: usize) -> u8 {
    (48 + n % 10) as u8
}

fn say(rt: &HostRuntime, text: &[u8]) {
    files::print(rt, text);
}

fn say_refused(rt: &HostRuntime, r: Refusal) {
    let mut out = [0u8; LINE_ROOM];
    let end = lines::put_refused(r, &mut out, 0);
    say(rt, &out[0..end]);
}

fn say_number(rt: &HostRuntime, n: usize) {
    let _ = print!(rt; "{n}");
}

fn say_word(rt: &HostRuntime, start: usize, length: usize, rule: usize) {
    say_number(rt, start);
    say(rt, b" ");
    say_number(rt, length);
    say(rt, b" ");
    say_number(rt, rule);
    say(rt, b"\n");
}

// The words that were put into the records, a line each.
fn say_words(rt: &HostRuntime, records: &[usize; WORDS * RECORD_CELLS], n: usize) {
    let (records, _) = records.as_chunks::<RECORD_CELLS>();
    for &[start, length, rule] in records.iter().take(n) {
        say_word(rt, start, length, rule);
    }
}

fn say_end(rt: &HostRuntime, how: &[u8], n: usize, at: usize) {
    say(rt, how);
    say_number(rt, n);
    say(rt, b" ");
    say_number(rt, at);
    say(rt, b"\n");
}

// A text by a table, as far as the records go.
fn cut_case<'a>(rt: &HostRuntime, count: usize, labels: &'a [u8], targets: &'a [u8], name: &[u8]) {
    let mut text = [0u8; TEXT];
    let mut records = [0usize; WORDS * RECORD_CELLS];
    let length = read_case(rt, name, &mut text);
    match cutting::cut_from(count, labels, targets, &text[0..length], 0, &mut records) {
        Ok(Ended::Done(n)) => {
            say_words(rt, &records, n);
            say(rt, b"done ");
            say_number(rt, n);
            say(rt, b"\n");
        }
        Ok(Ended::Stuck(n, at)) => {
            say_words(rt, &records, n);
            say_end(rt, b"stuck ", n, at);
        }
        Ok(Ended::Full(n, at)) => {
            say_words(rt, &records, n);
            say_end(rt, b"full ", n, at);
        }
        Err(r) => say_refused(rt, r),
    }
}

// A table's states and the length of its sheet.
fn say_table<'a>(rt: &HostRuntime, count: usize, labels: &'a [u8], targets: &'a [u8]) {
    let mut sheet = sheet_room();
    say_number(rt, count);
    say(rt, b" states, ");
    match writing::write_sheet(count, labels, targets, &mut sheet) {
        Ok(n) => {
            say_number(rt, n);
            say(rt, b" bytes\n");
        }
        Err(r) => say_refused(rt, r),
    }
}

// The build of a book: its table and the cut by it, or why there is none.
fn build_case(rt: &HostRuntime, book_name: &[u8], text_name: &[u8]) {
    let mut book = [0u8; BOOK_FILE];
    let mut labels = [0u8; STATES];
    let mut targets = targets_room();
    let mut work = work_room();
    let n = read_case(rt, book_name, &mut book);
    match building::build(&book[0..n], &mut labels, &mut targets, &mut work) {
        Ok(count) => {
            say_table(rt, count, &labels, &targets);
            cut_case(rt, count, &labels, &targets, text_name);
        }
        Err(r) => say_refused(rt, r),
    }
}

fn say_byte(rt: &HostRuntime, byte: u8) {
    let _ = print!(rt; "{byte:02x}");
}

// A text in hex, on a line of its own.
fn say_hex(rt: &HostRuntime, text: &[u8]) {
    for byte in text {
        say_byte(rt, *byte);
    }
    say(rt, b"\n");
}

fn say_compared(rt: &HostRuntime, answer: Result<Option<Difference>, Refusal>, text: &[u8]) {
    match answer {
        Ok(None) => say(rt, b"same\n"),
        Ok(Some(found)) => {
            let len = found.len;
            say(rt, b"differs ");
            say_number(rt, len);
            say(rt, b" ");
            say_number(rt, found.by_book);
            say(rt, b" ");
            say_number(rt, found.by_table);
            say(rt, b"\n");
            if len <= text.len() {
                say_hex(rt, &text[0..len]);
            }
        }
        Err(r) => say_refused(rt, r),
    }
}

// A loaded table written back: how long its sheet is, and whether it is the sheet that was loaded.
fn say_back<'a>(rt: &HostRuntime, sheet: &[u8], count: usize, labels: &'a [u8], targets: &'a [u8]) {
    let mut out = sheet_room();
    say(rt, b"back ");
    match writing::write_sheet(count, labels, targets, &mut out) {
        Ok(n) => {
            say_number(rt, n);
            if n <= out.len() {
                say_same(rt, sheet, &out[0..n]);
            }
        }
        Err(r) => say_refused(rt, r),
    }
}

// Kept beside test_paper's tell_same: each test program stands alone and prints by its own few lines, here with other words.
fn say_same(rt: &HostRuntime, sheet: &[u8], out: &[u8]) {
    if sheet == out {
        say(rt, b" bytes, the same\n");
    } else {
        say(rt, b" bytes, others\n");
    }
}

// A book against a sheet: the sheet's faults come first, since it is loaded first; then the book's, then the walk's.
fn compare_case(rt: &HostRuntime, book_name: &[u8], sheet_name: &[u8]) {
    let mut book = [0u8; BOOK_FILE];
    let mut sheet = sheet_room();
    let mut labels = [0u8; STATES];
    let mut targets = targets_room();
    let mut text = [0u8; SHOWN_TEXT];
    let mut work = work_room();
    let n = read_case(rt, book_name, &mut book);
    let m = read_case(rt, sheet_name, &mut sheet);
    match loading::load(&sheet[0..m], &mut labels, &mut targets) {
        Ok(count) => {
            say_back(rt, &sheet[0..m], count, &labels, &targets);
            let answer = comparing::compare_book(
                &book[0..n],
                count,
                &labels,
                &targets,
                &mut text,
                &mut work,
            );
            say_compared(rt, answer, &text);
        }
        Err(r) => say_refused(rt, r),
    }
}

// Runs a case, and answers whether there was one.
fn run_case(rt: &HostRuntime, k: usize) -> bool {
    let a = digit(k / 100);
    let b = digit(k / 10);
    let c = digit(k);
    let book_name = [b'c', a, b, c, b'.', b'b', b'o', b'o', b'k'];
    if !is_stored(rt, &book_name) {
        return false;
    }
    say(rt, &[a, b, c, b' ']);
    build_case(
        rt,
        &book_name,
        &[b'c', a, b, c, b'.', b't', b'e', b'x', b't'],
    );
    compare_case(
        rt,
        &book_name,
        &[b'c', a, b, c, b'.', b's', b'h', b'e', b'e', b't'],
    );
    true
}

// The first number without a book ends the run.
fn main(rt: HostRuntime) {
    for k in 0..NUMBERS {
        if !run_case(&rt, k) {
            return;
        }
    }
}
