// Prints what the programs cut, compare and sheet print on stored inputs, each under a line that names the case.
// A name with no file stands for a missing file, and `folder` for a file that cannot be read. Of sheet it shows words.sheet after each book, in hexadecimal.
#![tactic(auto)]

ghost use Rattle.std.specs.Prelude.{◌+◌, ◌*◌, ◌≤◌, ◌≡◌, length};
ghost use Rattle.table.specs.Formed.{longest_sheet};

use compare_lines::COMPARE_ROOM;
use number::limits::{BOOK_FILE, SHEET_FILE, TEXT_FILE};
use saved::Made;
use table::LONGEST_SHEET;

fn say(rt: &HostRuntime, text: &[u8]) {
    files::print(rt, text);
}

fn cut(rt: &HostRuntime, title: &[u8], book_name: &[u8], text_name: &[u8]) {
    let mut book = [0u8; BOOK_FILE + 1];
    let mut text = [0u8; TEXT_FILE + 1];
    let book_end = files::read_named(rt, book_name, &mut book);
    let text_end = files::read_named(rt, text_name, &mut text);
    say(rt, title);
    let _ = printed::print_cut(rt, &book[0..book_end], &text[0..text_end]);
}

fn compare(rt: &HostRuntime, title: &[u8], book_name: &[u8], sheet_name: &[u8]) {
    let mut book = [0u8; BOOK_FILE + 1];
    let mut sheet = [0u8; SHEET_FILE + 1];
    let mut out = [0u8; COMPARE_ROOM];
    let book_end = files::read_named(rt, book_name, &mut book);
    let sheet_end = files::read_named(rt, sheet_name, &mut sheet);
    let end = compare_lines::compare_lines(&book[0..book_end], &sheet[0..sheet_end], &mut out);
    say(rt, title);
    say(rt, &out[0..end]);
}

// The buffer for the line of a sheet. Only its length is told: a prover that sees so many cells goes through them.
fn hex_room() -> [u8; 2 * LONGEST_SHEET + 1]
    ensures { 2 * longest_sheet + 1 ≡ length result }
{
    [0; 2 * LONGEST_SHEET + 1]
}

// Kept beside test_rules' show and show_book, as say is: each test program stands alone and prints by its own few lines, here in the room for a sheet.
fn show(rt: &HostRuntime, sheet: &[u8])
    requires { length sheet.now ≤ longest_sheet }
{
    let mut out = hex_room();
    let end = lines::put_hex_line(sheet, 0, &mut out, 0);
    say(rt, &out[0..end]);
}

// What words.sheet holds now.
fn show_sheet(rt: &HostRuntime) {
    let mut sheet = [0u8; LONGEST_SHEET + 1];
    let end = files::read_named(rt, b"words.sheet", &mut sheet);
    if end <= LONGEST_SHEET {
        show(rt, &sheet[0..end]);
    } else {
        say(rt, b"no words.sheet\n");
    }
}

fn sheet(rt: &HostRuntime, title: &[u8], book_name: &[u8]) {
    let mut book = [0u8; BOOK_FILE + 1];
    let end = files::read_named(rt, book_name, &mut book);
    say(rt, title);
    match saved::make_sheet(rt, &book[0..end]) {
        Made::Saved => say(rt, b"saved\n"),
        Made::Unsaved => say(rt, b"unsaved\n"),
        Made::Refused(_) => {}
    }
    show_sheet(rt);
}

fn cuts(rt: &HostRuntime) {
    cut(rt, b"cut: the sample\n", b"w.book", b"w.text");
    cut(
        rt,
        b"cut: a byte that no rule matches\n",
        b"w.book",
        b"stuck.text",
    );
    cut(
        rt,
        b"cut: more words than one list of records holds\n",
        b"w.book",
        b"many.text",
    );
    cut(
        rt,
        b"cut: every byte, each a word\n",
        b"any.book",
        b"every.text",
    );
    cut(
        rt,
        b"cut: every byte, by the sample book\n",
        b"w.book",
        b"every.text",
    );
}

fn refused_cuts(rt: &HostRuntime) {
    cut(
        rt,
        b"cut: a book that ends a byte early\n",
        b"early.book",
        b"w.text",
    );
    cut(rt, b"cut: no book\n", b"no.book", b"w.text");
    cut(
        rt,
        b"cut: no text, and a book that ends a byte early\n",
        b"early.book",
        b"no.text",
    );
    cut(rt, b"cut: a folder for a book\n", b"folder", b"w.text");
    cut(rt, b"cut: a folder for a text\n", b"w.book", b"folder");
}

fn comparisons(rt: &HostRuntime) {
    compare(
        rt,
        b"compare: the sample's own sheet\n",
        b"w.book",
        b"own.sheet",
    );
    compare(
        rt,
        b"compare: the state after t merged with that of the letters\n",
        b"w.book",
        b"merged.sheet",
    );
    compare(
        rt,
        b"compare: the sample's own sheet, its start labelled\n",
        b"w.book",
        b"start.sheet",
    );
    compare(
        rt,
        b"compare: (ab)* and its own sheet, its start without label\n",
        b"ab.book",
        b"ab.sheet",
    );
    compare(
        rt,
        b"compare: a* and its own sheet, its start without label\n",
        b"a.book",
        b"a.sheet",
    );
}

// At limits: a text as long as there may be, a sheet as long as the program reads, and one byte more.
fn large_comparisons(rt: &HostRuntime) {
    compare(
        rt,
        b"compare: a difference that only 512 bytes show\n",
        b"far.book",
        b"far.sheet",
    );
    compare(
        rt,
        b"compare: a sheet of 65,536 bytes\n",
        b"full.book",
        b"full.sheet",
    );
    compare(
        rt,
        b"compare: a sheet of 65,537 bytes\n",
        b"full.book",
        b"over.sheet",
    );
}

fn refused_comparisons(rt: &HostRuntime) {
    compare(rt, b"compare: no book\n", b"no.book", b"own.sheet");
    compare(
        rt,
        b"compare: no sheet, and a book that ends a byte early\n",
        b"early.book",
        b"no.sheet",
    );
    compare(
        rt,
        b"compare: a book that ends a byte early\n",
        b"early.book",
        b"own.sheet",
    );
    compare(
        rt,
        b"compare: a sheet that ends a byte early\n",
        b"w.book",
        b"early.sheet",
    );
    compare(
        rt,
        b"compare: both end a byte early\n",
        b"early.book",
        b"early.sheet",
    );
    compare(
        rt,
        b"compare: a folder for a book\n",
        b"folder",
        b"own.sheet",
    );
    compare(rt, b"compare: a folder for a sheet\n", b"w.book", b"folder");
}

// A number that is padded to two groups or to three, in each field of a book and of a sheet: it is told at its place. Of a book one title
// serves for cut and compare.
fn padded_book(rt: &HostRuntime, title: &[u8], name: &[u8]) {
    cut(rt, title, name, b"w.text");
    compare(rt, b"", name, b"own.sheet");
}

fn padded_books(rt: &HostRuntime) {
    padded_book(rt, b"padded book: version, 2 groups\n", b"version2.book");
    padded_book(rt, b"padded book: version, 3 groups\n", b"version3.book");
    padded_book(rt, b"padded book: rule count, 2 groups\n", b"count2.book");
    padded_book(rt, b"padded book: rule count, 3 groups\n", b"count3.book");
    padded_book(rt, b"padded book: kind, 2 groups\n", b"kind2.book");
    padded_book(rt, b"padded book: kind, 3 groups\n", b"kind3.book");
    padded_book(rt, b"padded book: node count, 2 groups\n", b"nodes2.book");
    padded_book(rt, b"padded book: node count, 3 groups\n", b"nodes3.book");
    padded_book(rt, b"padded book: code, 2 groups\n", b"code2.book");
    padded_book(rt, b"padded book: code, 3 groups\n", b"code3.book");
    padded_book(rt, b"padded book: lo, 2 groups\n", b"lo2.book");
    padded_book(rt, b"padded book: lo, 3 groups\n", b"lo3.book");
    padded_book(rt, b"padded book: hi, 2 groups\n", b"hi2.book");
    padded_book(rt, b"padded book: hi, 3 groups\n", b"hi3.book");
    padded_book(rt, b"padded book: letter, 2 groups\n", b"letter2.book");
    padded_book(rt, b"padded book: letter, 3 groups\n", b"letter3.book");
}

fn padded_sheet(rt: &HostRuntime, title: &[u8], name: &[u8]) {
    compare(rt, title, b"w.book", name);
}

fn padded_sheets(rt: &HostRuntime) {
    padded_sheet(rt, b"padded sheet: version, 2 groups\n", b"version2.sheet");
    padded_sheet(rt, b"padded sheet: version, 3 groups\n", b"version3.sheet");
    padded_sheet(
        rt,
        b"padded sheet: state count, 2 groups\n",
        b"count2.sheet",
    );
    padded_sheet(
        rt,
        b"padded sheet: state count, 3 groups\n",
        b"count3.sheet",
    );
    padded_sheet(rt, b"padded sheet: label, 2 groups\n", b"label2.sheet");
    padded_sheet(rt, b"padded sheet: label, 3 groups\n", b"label3.sheet");
    padded_sheet(rt, b"padded sheet: run count, 2 groups\n", b"runs2.sheet");
    padded_sheet(rt, b"padded sheet: run count, 3 groups\n", b"runs3.sheet");
    padded_sheet(rt, b"padded sheet: length, 2 groups\n", b"length2.sheet");
    padded_sheet(rt, b"padded sheet: length, 3 groups\n", b"length3.sheet");
    padded_sheet(rt, b"padded sheet: target, 2 groups\n", b"target2.sheet");
    padded_sheet(rt, b"padded sheet: target, 3 groups\n", b"target3.sheet");
    compare(
        rt,
        b"compare: a padded number in both\n",
        b"letter3.book",
        b"target2.sheet",
    );
}

// At first there is no words.sheet. A shorter sheet leaves nothing of a longer one, and a refusal leaves all of it.
fn sheets(rt: &HostRuntime) {
    sheet(rt, b"sheet: a book that ends a byte early\n", b"early.book");
    sheet(rt, b"sheet: 128 states\n", b"s128.book");
    sheet(rt, b"sheet: 255 states\n", b"s255.book");
    sheet(rt, b"sheet: the sample\n", b"w.book");
    sheet(
        rt,
        b"sheet: a book that asks for 256 states\n",
        b"s256.book",
    );
    sheet(rt, b"sheet: a book with a padded letter\n", b"letter2.book");
    sheet(rt, b"sheet: no book\n", b"no.book");
    sheet(rt, b"sheet: a folder for a book\n", b"folder");
}

fn main(rt: HostRuntime) {
    cuts(&rt);
    refused_cuts(&rt);
    comparisons(&rt);
    large_comparisons(&rt);
    refused_comparisons(&rt);
    padded_books(&rt);
    padded_sheets(&rt);
    sheets(&rt);
}
