// What the program sheet does with the bytes of its book: it saves the sheet in words.sheet, or prints the refusal.
// A refusal leaves words.sheet as it was, since nothing is saved before the sheet's bytes are there, as sheet_bytes::sheet_bytes promises them.
ghost use Rattle.saved.specs.SheetMade.{MakesSheet};

use crate::{Made, print_refused};
use number::Refusal;
use std::rt::Files;
use table::LONGEST_SHEET;

// Saves the sheet of the book of these bytes; more bytes than a book may have stand for one that is missing or too long.
// A sheet that cannot be written is refused as a book that cannot be read is.
pub fn make_sheet<R: Files + Print + Eprint>(rt: &R, book: &[u8]) -> Made
    ensures { MakesSheet book.now result }
{
    let mut out = [0u8; LONGEST_SHEET];
    match sheet_bytes::sheet_bytes(book, &mut out) {
        Ok(end) => {
            if files::save(rt, b"words.sheet", &out[0..end]) {
                return Made::Saved;
            }
            print_refused(rt, Refusal::Input);
            Made::Unsaved
        }
        Err(line) => {
            files::print(rt, &out[0..line.end]);
            Made::Refused(line.refusal)
        }
    }
}
