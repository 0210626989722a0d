// Compares words.book with words.sheet and prints whether they are the same.
// It reads both before it looks at either, and prints all at once; what is printed is the promise of compare_lines::compare_lines.
#![tactic(auto)]

use compare_lines::COMPARE_ROOM;
use number::limits::{BOOK_FILE, SHEET_FILE};

fn main(rt: HostRuntime) {
    let mut book = [0u8; BOOK_FILE + 1];
    let mut sheet = [0u8; SHEET_FILE + 1];
    let mut out = [0u8; COMPARE_ROOM];
    let book_end = files::read_named(&rt, b"words.book", &mut book);
    let sheet_end = files::read_named(&rt, b"words.sheet", &mut sheet);
    let end = compare_lines::compare_lines(&book[0..book_end], &sheet[0..sheet_end], &mut out);
    files::print(&rt, &out[0..end]);
}
