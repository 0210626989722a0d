// The text that programs print, put into a lent slice by proved functions: numbers, words and whole lines.
// Each writer answers the place after what it wrote; specs/Lines.antt says what stands there then.
#![tactic(auto)]

ghost use Rattle.std.specs.Prelude.{◌+◌, ◌-◌, ◌*◌, ◌<◌, ◌≤◌, ◌≡◌, [], ◌∷◌, length, drop};
ghost use Rattle.number.specs.Lists.{Writes};
ghost use Rattle.lines.specs.Digits.{digit as digit_of, decimal, hex};
ghost use Rattle.lines.specs.LineLaws.{numbers_line};
ghost use Rattle.lines.specs.Lines.{word_line, done_line, stuck_line, refused_line, same_line, differs_line, hex_line};
ghost use Rattle.lines.specs.Lines.{line_room, item_room};

use number::Refusal;

// What a line of the programs needs at most, so that a caller can see whether a buffer has room for one more.
pub const LINE_ROOM: usize = 100;

const SPACE: u8 = b' ';

// What ends each line.
pub const NEWLINE: u8 = b'\n';

const TEN: usize = 10;

const SIXTEEN: usize = 16;

// The digits of the largest number of 64 bits.
const DIGITS: usize = 20;

// A digit below sixteen as a byte of text.
fn digit(d: usize) -> u8
    requires { d < 16 }
    ensures { result ≡ digit_of d }
{
    if d < TEN {
        (48 + d) as u8
    } else {
        (87 + d) as u8
    }
}

// Kept as two parameters, here and in all writers: each answers the next place, so a struct of both would be taken apart at each call.
pub fn put_byte(b: u8, out: &mut [u8], at: usize) -> usize
    requires { at < length out.old }
    ensures { Writes (b ∷ []) out.old out.new at result }
{
    out[at] = b;
    at + 1
}

// The decimal digits of a number, found from the last to the first.
// Numbers are put by hand: Display writes to a Formatter, and no contract says what stands in a lent slice then.
pub fn put_decimal(n: usize, out: &mut [u8], at: usize) -> usize
    requires { at + length (decimal n) ≤ length out.old }
    ensures { Writes (decimal n) out.old out.new at result }
{
    let mut digits = [0u8; DIGITS];
    let mut from = DIGITS;
    let mut rest = n;
    // Kept as a `while`, since only the division tells how many digits there are.
    while rest >= TEN {
        from -= 1;
        digits[from] = digit(rest % TEN);
        rest /= TEN;
    }
    from -= 1;
    digits[from] = digit(rest);
    put_text(&digits[from..], out, at)
}

// A byte in two hexadecimal digits.
fn put_hex(byte: u8, out: &mut [u8], at: usize) -> usize
    requires { at + 2 ≤ length out.old }
    ensures { Writes (hex byte) out.old out.new at result }
{
    let b = byte as usize;
    let last = put_byte(digit(b / SIXTEEN), out, at);
    put_byte(digit(b % SIXTEEN), out, last)
}

// A whole text.
pub fn put_text(text: &[u8], out: &mut [u8], at: usize) -> usize
    requires { at + length text.now ≤ length out.old }
    ensures { Writes text.now out.old out.new at result }
{
    let end = at + text.len();
    out[at..end].copy_from_slice(text);
    end
}

// A number, others each behind a space, and the line's end.
fn put_numbers(first: usize, more: &[usize], out: &mut [u8], at: usize) -> usize
    requires { at + item_room * (length more.now + 1) ≤ length out.old }
    ensures writes { Writes (numbers_line first more.now) out.old out.new at result }
    ensures upper_bound { result ≤ at + item_room * (length more.now + 1) }
{
    let mut next = put_decimal(first, out, at);
    for n in more {
        let number = put_byte(SPACE, out, next);
        next = put_decimal(*n, out, number);
    }
    put_byte(NEWLINE, out, next)
}

// A word.
// The room stays a clause, here and below: a type of buffers with room would ask more of callers.
pub fn put_word(
    start: usize,
    len: usize,
    rule: usize,
    kind: usize,
    out: &mut [u8],
    at: usize,
) -> usize
    requires { at + line_room ≤ length out.old }
    ensures writes { Writes (word_line start len rule kind) out.old out.new at result }
    ensures upper_bound { result ≤ at + line_room }
{
    put_numbers(start, &[len, rule, kind], out, at)
}

// The last line of a text that was cut to its end.
pub fn put_done(count: usize, out: &mut [u8], at: usize) -> usize
    requires { at + line_room ≤ length out.old }
    ensures writes { Writes (done_line count) out.old out.new at result }
    ensures upper_bound { result ≤ at + line_room }
{
    let first = put_text(b"done ", out, at);
    put_numbers(count, &[], out, first)
}

// The last line of a text that got stuck.
pub fn put_stuck(place: usize, out: &mut [u8], at: usize) -> usize
    requires { at + line_room ≤ length out.old }
    ensures writes { Writes (stuck_line place) out.old out.new at result }
    ensures upper_bound { result ≤ at + line_room }
{
    let first = put_text(b"stuck ", out, at);
    put_numbers(place, &[], out, first)
}

// A refusal.
pub fn put_refused(r: Refusal, out: &mut [u8], at: usize) -> usize
    requires { at + line_room ≤ length out.old }
    ensures writes { Writes (refused_line r) out.old out.new at result }
    ensures upper_bound { result ≤ at + line_room }
{
    let number = number::refusal_number(r);
    let place = number::refusal_place(r);
    let first = put_text(b"refused ", out, at);
    put_numbers(number, &[place], out, first)
}

// A comparison that found no difference.
pub fn put_same(out: &mut [u8], at: usize) -> usize
    requires { at + line_room ≤ length out.old }
    ensures writes { Writes same_line out.old out.new at result }
    ensures upper_bound { result ≤ at + line_room }
{
    put_text(b"same\n", out, at)
}

// A difference: the length of the text that shows it, and both labels.
pub fn put_differs(len: usize, book: usize, sheet: usize, out: &mut [u8], at: usize) -> usize
    requires { at + line_room ≤ length out.old }
    ensures writes { Writes (differs_line len book sheet) out.old out.new at result }
    ensures upper_bound { result ≤ at + line_room }
{
    let first = put_text(b"differs ", out, at);
    put_numbers(len, &[book, sheet], out, first)
}

// The bytes of a text from a place on, in hexadecimal, and the line's end.
// Kept with a place: it takes every one, also past the text's end.
pub fn put_hex_line(text: &[u8], from: usize, out: &mut [u8], at: usize) -> usize
    requires { at + (2 * (length text.now - from) + 1) ≤ length out.old }
    ensures writes { Writes (hex_line (drop from text.now)) out.old out.new at result }
    ensures upper_bound { result ≤ at + (2 * (length text.now - from) + 1) }
{
    let mut end = at;
    for i in from..text.len() {
        end = put_hex(text[i], out, end);
    }
    put_byte(NEWLINE, out, end)
}
