// Cuts standard input by the rules of words.book and prints the words.
// It reads both before it looks at either, and has all printed by printed::print_cut, whose promise says which bytes.
#![tactic(auto)]

use number::limits::{BOOK_FILE, TEXT_FILE};

fn main(rt: HostRuntime) {
    let mut book = [0u8; BOOK_FILE + 1];
    let mut text = [0u8; TEXT_FILE + 1];
    let book_end = files::read_named(&rt, b"words.book", &mut book);
    let text_end = files::read_all(Ok(rt.stdin()), &mut text);
    let _ = printed::print_cut(&rt, &book[0..book_end], &text[0..text_end]);
}
