// Sentences and lines that people read, put into a lent buffer: words with numbers, a line of the text, a mark below one of its bytes, and names of bytes.
// Each writer answers the place after what it wrote; advised's specs/Advice.antt says what stands there then.
#![tactic(auto)]

ghost use Rattle.std.specs.Prelude.{◌+◌, ◌≤◌, ◌≡◌, length, drop};
ghost use Rattle.number.specs.Lists.{Writes};
ghost use Rattle.advised.specs.Advice.{printed as printed_of, shown_line, mark_line, byte_name};
ghost use Rattle.advised.specs.Advice.{phrase, place_words, fault_words, too_much};
ghost use Rattle.phrases.specs.Promises.{SpotOf};

pub use lines::{NEWLINE, put_text};
use number::limits::{KINDS, NODES, RULES};

// A line of the text: its number, counted from 1, and the place where it starts.
#[derive(Clone, Copy)]
pub struct Spot {
    pub line: usize,
    pub start: usize,
}

// The line that is reached after these bytes.
pub fn find_spot(before: &[u8]) -> Spot
    ensures { SpotOf before.now result.line result.start }
{
    let mut line = 1;
    let mut start = 0;
    for (i, c) in before.iter().enumerate() {
        if *c == NEWLINE {
            line += 1;
            start = i + 1;
        }
    }
    Spot { line, start }
}

// A byte that can be printed, or `?` for it.
fn printed(c: u8) -> u8
    ensures { result ≡ printed_of c }
{
    if matches!(c, b' '..=b'~') { c } else { b'?' }
}

// The line that starts at a place, up to its newline or the text's end.
pub fn put_shown(text: &[u8], start: usize, out: &mut [u8], at: usize) -> usize
    requires { at + length (shown_line (drop start text.now)) ≤ length out.old }
    ensures { Writes (shown_line (drop start text.now)) out.old out.new at result }
{
    let mut end = at;
    for i in start..text.len() {
        if text[i] == NEWLINE {
            return lines::put_byte(NEWLINE, out, end);
        }
        end = lines::put_byte(printed(text[i]), out, end);
    }
    lines::put_byte(NEWLINE, out, end)
}

// The mark below a byte that has so many others before it on its line.
pub fn put_mark(before: usize, out: &mut [u8], at: usize) -> usize
    requires { at + length (mark_line before) ≤ length out.old }
    ensures { Writes (mark_line before) out.old out.new at result }
{
    let end = at + before;
    out[at..end].fill(b' ');
    let below = lines::put_byte(b'^', out, end);
    lines::put_byte(NEWLINE, out, below)
}

// A byte as people read it: those that would not be seen have names.
pub fn put_name(c: u8, out: &mut [u8], at: usize) -> usize
    requires { at + length (byte_name c) ≤ length out.old }
    ensures { Writes (byte_name c) out.old out.new at result }
{
    if c == b' ' {
        return put_text(b"space", out, at);
    }
    if c == NEWLINE {
        return put_text(b"newline", out, at);
    }
    lines::put_byte(printed(c), out, at)
}

// Words, and behind them a number.
pub fn put_phrase(words: &[u8], n: usize, out: &mut [u8], at: usize) -> usize
    requires { at + length (phrase words.now n) ≤ length out.old }
    ensures { Writes (phrase words.now n) out.old out.new at result }
{
    let number = put_text(words, out, at);
    lines::put_decimal(n, out, number)
}

// Where a refusal is: the words that all advice on a line begins with.
pub fn put_place(line: usize, column: usize, out: &mut [u8], at: usize) -> usize
    requires { at + length (place_words line column) ≤ length out.old }
    ensures { Writes (place_words line column) out.old out.new at result }
{
    let behind = put_phrase(b"words.rules, line ", line, out, at);
    put_phrase(b", column ", column, out, behind)
}

// What is wrong there: the text ends, or it has a byte that does not fit.
pub fn put_fault(ends: bool, out: &mut [u8], at: usize) -> usize
    requires { at + length (fault_words ends) ≤ length out.old }
    ensures { Writes (fault_words ends) out.old out.new at result }
{
    if ends {
        return put_text(b": the text ends here, but the rule does not.\n", out, at);
    }
    put_text(b": no rule goes on with this byte.\n", out, at)
}

// Which limits a line may have passed; the refusal does not tell which.
pub fn put_too_much(out: &mut [u8], at: usize) -> usize
    requires { at + length too_much ≤ length out.old }
    ensures { Writes too_much out.old out.new at result }
{
    let kind = put_phrase(b": with this line there are more than ", RULES, out, at);
    let nodes = put_phrase(b" rules, or its kind is above ", KINDS, out, kind);
    let all = put_phrase(b", or the nodes are more than ", NODES, out, nodes);
    put_text(b" in all.\n", out, all)
}
