// What the programs rules and sheet do with the bytes that they read: they save a book, or a sheet, in its file, or print the refusal.
// A refusal leaves the file as it was, since nothing is saved before the bytes are there, as rules_book and sheet_bytes promise them.
#![tactic(auto)]

ghost use Rattle.std.specs.Prelude.{◌≤◌, length};
ghost use Rattle.saved.specs.Made.{Makes};

use advice::ADVICE_ROOM;
use lines::LINE_ROOM;
use number::Refusal;
use number::limits::{RULES_FILE, TYPED_AREA};
use std::io::Write;
use std::rt::Files;

mod sheet;

pub use sheet::make_sheet;

// What became of bytes that were read: what they make was saved, or not, or there is none. Whether a file can be written is the system's to say.
// Kept as an enum of three ways: a Result over an error of two would say them by one name more.
#[derive(Clone, Copy)]
pub enum Made {
    Saved,
    Unsaved,
    Refused(Refusal),
}

// The bytes of a file of rules. The buffer has one byte more than it may have: a file that is missing or too long fills it.
pub fn read_rules<F: Files>(rt: &F, name: &[u8], text: &mut [u8; RULES_FILE + 1]) -> usize
    ensures { result ≤ length text.new }
{
    files::read_named(rt, name, text)
}

pub(crate) fn print_refused<P: Print + Eprint>(rt: &P, r: Refusal) {
    let mut line = [0u8; LINE_ROOM];
    let end = lines::put_refused(r, &mut line, 0);
    files::print(rt, &line[0..end]);
}

// The refusal, and for people where and why.
fn tell<P: Print + Eprint, W: Write>(rt: &P, text: &[u8], r: Refusal, people: &mut W) {
    print_refused(rt, r);
    let mut out = [0u8; ADVICE_ROOM];
    let end = advice::advise(text, r, &mut out);
    files::write(people, &out[0..end]);
}

// A book that cannot be written is refused as a file that cannot be read is, but people are told which of the two it was.
// Kept beside `tell`: a function for both would take the call that fills the buffer, with a contract on it that is longer than these four lines.
fn tell_unsaved<P: Print + Eprint, W: Write>(rt: &P, people: &mut W) {
    print_refused(rt, Refusal::Input);
    let mut out = [0u8; ADVICE_ROOM];
    let end = advice::advise_unsaved(&mut out);
    files::write(people, &out[0..end]);
}

// Saves the book of these bytes, which are as read_rules left them; people are told of a refusal by the writer given for them.
pub fn make_book<R: Files + Print + Eprint, W: Write>(rt: &R, text: &[u8], people: &mut W) -> Made
    ensures { Makes text.now result }
{
    let mut book = [0u8; TYPED_AREA];
    match rules_book::rules_book(text, &mut book) {
        Ok(n) => {
            if files::save(rt, b"words.book", &book[0..n]) {
                return Made::Saved;
            }
            tell_unsaved(rt, people);
            Made::Unsaved
        }
        Err(r) => {
            tell(rt, text, r, people);
            Made::Refused(r)
        }
    }
}
