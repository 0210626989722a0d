// Makes the books of stored texts one after the other, as the program rules does, and shows words.book after each; at first there is none.
// What rules tells people on standard error is printed with the rest. A name with no file stands for a missing file.
#![tactic(auto)]

ghost use Rattle.std.specs.Prelude.{◌≤◌, length};
ghost use Rattle.number.specs.Limits.{book_file};

use number::limits::{BOOK_FILE, RULES_FILE};
use saved::Made;

fn say(rt: &HostRuntime, text: &[u8]) {
    files::print(rt, text);
}

// Kept beside test_programs' show and show_sheet, as say is: each test program stands alone and prints by its own few lines, here in the room for a book.
fn show(rt: &HostRuntime, book: &[u8])
    requires { length book.now ≤ book_file }
{
    let mut out = [0u8; 2 * BOOK_FILE + 1];
    let end = lines::put_hex_line(book, 0, &mut out, 0);
    say(rt, &out[0..end]);
}

// What words.book holds now.
fn show_book(rt: &HostRuntime) {
    let mut book = [0u8; BOOK_FILE + 1];
    let end = files::read_named(rt, b"words.book", &mut book);
    if end <= BOOK_FILE {
        show(rt, &book[0..end]);
    } else {
        say(rt, b"no words.book\n");
    }
}

fn retype(rt: &HostRuntime, title: &[u8], name: &[u8]) {
    let mut text = [0u8; RULES_FILE + 1];
    let end = saved::read_rules(rt, name, &mut text);
    say(rt, title);
    match saved::make_book(rt, &text[0..end], &mut rt.stdout()) {
        Made::Saved => say(rt, b"saved\n"),
        Made::Unsaved => say(rt, b"unsaved\n"),
        Made::Refused(_) => {}
    }
    show_book(rt);
}

fn main(rt: HostRuntime) {
    retype(&rt, b"a name that no set has\n", b"name.rules");
    retype(&rt, b"the sample\n", b"w.rules");
    retype(&rt, b"the same name\n", b"name.rules");
    retype(&rt, b"a text that ends too early\n", b"ends.rules");
    retype(&rt, b"a kind of 16,384\n", b"kind.rules");
    retype(
        &rt,
        b"a kind of 70,000 before a wrong byte\n",
        b"both.rules",
    );
    retype(&rt, b"33 rules\n", b"many.rules");
    retype(&rt, b"no rule\n", b"none.rules");
    retype(&rt, b"32,768 bytes, the last one wrong\n", b"full.rules");
    retype(&rt, b"one byte more\n", b"over.rules");
    retype(&rt, b"no file\n", b"no.rules");
    retype(&rt, b"a shorter book\n", b"short.rules");
}
