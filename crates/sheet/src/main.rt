// Builds the table of words.book and writes it to words.sheet; it prints only what is refused.
// All that it does with the bytes of its book is done in the crate saved; here they are read.
#![tactic(auto)]

use number::limits::BOOK_FILE;

fn main(rt: HostRuntime) {
    let mut book = [0u8; BOOK_FILE + 1];
    let end = files::read_named(&rt, b"words.book", &mut book);
    saved::make_sheet(&rt, &book[0..end]);
}
