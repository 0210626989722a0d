// The whole text for each refusal of a file of rules, put together of phrases and of the bytes that could stand.
// Each writer answers the place after what it wrote; advised's specs/Advice.antt says what stands there then.
#![tactic(auto)]

ghost use Rattle.std.specs.Prelude.{◌+◌, ◌≤◌, length};
ghost use Rattle.number.specs.Lists.{Writes};
ghost use Rattle.number.specs.Limits.{rules_file};
ghost use Rattle.advised.specs.Advice.{typed_advice, range_advice, unread, advice_on, advice_room};

use candidates::put_could;
use number::Refusal;
use number::limits::RULES_FILE;
use phrases::{
    find_spot, put_fault, put_mark, put_phrase, put_place, put_shown, put_text, put_too_much,
};

// Advice on a wrong byte, or on a text that ends too early.
fn put_typed(text: &[u8], p: usize, out: &mut [u8], at: usize) -> usize
    requires p_in_bounds { (p ≤ length text.now) × (length text.now ≤ rules_file) }
    requires p_in_bounds_2 { at + length (typed_advice text.now p) ≤ length out.old }
    ensures { Writes (typed_advice text.now p) out.old out.new at result }
{
    let spot = find_spot(&text[0..p]);
    let start = spot.start;
    let before = p - start;
    let fault = put_place(spot.line, before + 1, out, at);
    let shown = put_fault(p == text.len(), out, fault);
    let mark = put_shown(text, start, out, shown);
    let could = put_mark(before, out, mark);
    put_could(text, p, out, could)
}

// Advice on a line that brings a number out of range.
fn put_range(text: &[u8], p: usize, out: &mut [u8], at: usize) -> usize
    requires p_in_bounds { p ≤ length text.now }
    requires p_in_bounds_2 { at + length (range_advice text.now p) ≤ length out.old }
    ensures { Writes (range_advice text.now p) out.old out.new at result }
{
    let spot = find_spot(&text[0..p]);
    let start = spot.start;
    let fault = put_place(spot.line, p - start + 1, out, at);
    let shown = put_too_much(out, fault);
    put_shown(text, start, out, shown)
}

// Advice on a file that is missing or too long.
pub fn put_unread(out: &mut [u8]) -> usize
    requires { advice_room ≤ length out.old }
    ensures { Writes unread out.old out.new 0 result }
{
    let bytes = put_phrase(
        b"words.rules cannot be read, or has more than ",
        RULES_FILE,
        out,
        0,
    );
    put_text(b" bytes.\n", out, bytes)
}

// What people are told of a refusal of a text that was read.
pub fn put_advice(text: &[u8], r: Refusal, out: &mut [u8]) -> usize
    requires text_len_bound { length text.now ≤ rules_file }
    requires advice_room_in_bounds { advice_room ≤ length out.old }
    ensures { Writes (advice_on text.now r) out.old out.new 0 result }
{
    match r {
        Refusal::Typed(p) if p <= text.len() => put_typed(text, p, out, 0),
        Refusal::Range(_) if text.is_empty() => put_text(b"words.rules has no rule.\n", out, 0),
        Refusal::Range(p) if p <= text.len() => put_range(text, p, out, 0),
        _ => 0,
    }
}
