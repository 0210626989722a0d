// What the program rules tells people: of a file of typed rules that is refused, and of a book that cannot be written.
// Each call answers the length of what it wrote; advised's specs/Advice.antt says what stands there then.
#![tactic(auto)]

ghost use Rattle.std.specs.Prelude.{◌≤◌, length};
ghost use Rattle.number.specs.Lists.{Writes};
ghost use Rattle.advised.specs.Advice.{unsaved, advice_of, advice_room};

use number::Refusal;
use number::limits::{BYTES, RULES_FILE};
use paragraphs::{put_advice, put_unread};
use phrases::put_text;

// Room for any advice: a whole text of one line twice, sixteen bytes for each byte that could stand, and the sentences.
pub const ADVICE_ROOM: usize = 2 * RULES_FILE + 16 * BYTES + 256;

// All that people are told of a refusal; the answer is its length. As for rules_book, too many bytes stand for a file that is missing or too long.
// The room stays a clause, here and below: an array of just that length would ask more of callers.
pub fn advise(text: &[u8], r: Refusal, out: &mut [u8]) -> usize
    requires { advice_room ≤ length out.old }
    ensures writes { Writes (advice_of text.now r) out.old out.new 0 result }
    ensures upper_bound { result ≤ advice_room }
{
    if RULES_FILE < text.len() {
        return put_unread(out);
    }
    put_advice(text, r, out)
}

// What people are told where the book of a right text cannot be written to its file.
pub fn advise_unsaved(out: &mut [u8]) -> usize
    requires { advice_room ≤ length out.old }
    ensures writes { Writes unsaved out.old out.new 0 result }
    ensures upper_bound { result ≤ advice_room }
{
    put_text(b"words.book cannot be written.\n", out, 0)
}
