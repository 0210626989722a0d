// The book that the program rules writes to words.book, made on slices of the bytes of its file.
// specs/Print.antt says which book that is, or which refusal.
#![tactic(auto)]

ghost use Rattle.std.specs.Prelude.{◌≤◌, length};
ghost use Rattle.number.specs.Limits.{typed_area};
ghost use Rattle.rules_book.specs.Print.{MakesBook};

use number::Refusal;
use number::limits::RULES_FILE;

// The book of a file of typed rules; more bytes than it may have stand for a file that is missing or too long.
pub fn rules_book(text: &[u8], out: &mut [u8]) -> Result<usize, Refusal>
    requires { typed_area ≤ length out.old }
    ensures { MakesBook text.now out.old result out.new }
{
    if text.len() <= RULES_FILE {
        return typing::type_rules(text, out);
    }
    Err(Refusal::Input)
}
