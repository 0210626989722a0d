// The bytes that could stand at a place of a typed text: each of the 256 is tried there, and those that are not wrong are told as runs.
// specs/Promises.antt says what each try and each run is; advised's specs/Advice.antt has the line that comes of them.
#![tactic(auto)]

ghost use Rattle.std.specs.Prelude.{◌+◌, ◌<◌, ◌≤◌, ◌≡◌, true, length, take};
ghost use Rattle.number.specs.Lists.{Writes};
ghost use Rattle.number.specs.Limits.{bytes, rules_file};
ghost use Rattle.advised.specs.Advice.{neighbours, could_stand, tested_line};
ghost use Rattle.candidates.specs.Promises.{run_words, flagged, NextUp, RunOf, could_end, Tried};

use number::Refusal;
use number::limits::{BYTES, RULES_FILE, TYPED_AREA};
use phrases::{NEWLINE, put_name, put_text};

// A space and a run of neighbouring bytes.
fn put_run(lo: u8, hi: u8, out: &mut [u8], at: usize) -> usize
    requires { at + length (run_words lo hi) ≤ length out.old }
    ensures { Writes (run_words lo hi) out.old out.new at result }
{
    let first = lines::put_byte(b' ', out, at);
    let after = put_name(lo, out, first);
    if lo == hi {
        return after;
    }
    let last = lines::put_byte(b'-', out, after);
    put_name(hi, out, last)
}

// The first byte from c on whose flag is up.
fn next_up(found: &[bool], c: usize) -> Option<usize>
    requires { (length found.now ≡ bytes) × (c ≤ bytes) }
    ensures { NextUp found.now c result }
{
    for r in c..BYTES {
        if found[r] {
            return Some(r);
        }
    }
    None
}

// Whether a byte and the next are two letters or two digits, which are told as from one to another.
fn alike(c: usize) -> bool
    requires { c + 1 < bytes }
    ensures { result ≡ neighbours c }
{
    names::is_bare(c as u8) && names::is_bare((c + 1) as u8)
}

// The last byte of the run that starts at lo.
fn run_end(found: &[bool], lo: usize) -> usize
    requires { (length found.now ≡ bytes) × (lo < bytes) × (flagged found.now lo ≡ true) }
    ensures { RunOf found.now lo result }
{
    for hi in lo..BYTES - 1 {
        if !found[hi + 1] {
            return hi;
        }
        if !alike(hi) {
            return hi;
        }
    }
    BYTES - 1
}

// The bytes whose flags are up, as runs.
fn put_runs(found: &[bool], out: &mut [u8], at: usize) -> usize
    requires found_len { length found.now ≡ bytes }
    requires found_in_bounds { at + length (tested_line (flagged found.now)) ≤ length out.old }
    ensures { Writes (tested_line (flagged found.now)) out.old out.new at result }
{
    let mut end = put_text(b"here could stand:", out, at);
    let mut from = 0;
    while let Some(lo) = next_up(found, from) {
        let hi = run_end(found, lo);
        end = put_run(lo as u8, hi as u8, out, end);
        from = hi + 1;
    }
    lines::put_byte(NEWLINE, out, end)
}

// Whether some rightly typed text begins with these bytes, of which all but the last begin one.
fn could_end(tried: &[u8]) -> bool
    requires { 1 ≤ length tried.now }
    ensures { result ≡ could_end tried.now }
{
    let mut area = [0u8; TYPED_AREA];
    match typing::type_rules(tried, &mut area) {
        Ok(_) => true,
        Err(refusal) => refusal != Refusal::Typed(tried.len() - 1),
    }
}

// The flags of all bytes: each is put at place p and tried.
fn try_bytes(p: usize, tried: &mut [u8], found: &mut [bool])
    requires p_in_bounds { p < length tried.old }
    requires found_len { length found.old ≡ bytes }
    ensures { Tried (take p tried.old) found.new }
{
    for c in 0..BYTES {
        tried[p] = c as u8;
        found[c] = could_end(&tried[..p + 1]);
    }
}

// The last line, with memory for what is tried and for the flags.
fn put_could_in(
    text: &[u8],
    p: usize,
    tried: &mut [u8],
    found: &mut [bool],
    out: &mut [u8],
    at: usize,
) -> usize
    requires p_in_bounds { p ≤ length text.now }
    requires p_in_bounds_2 { p < length tried.old }
    requires found_len { length found.old ≡ bytes }
    requires text_in_bounds { at + length (tested_line (could_stand (take p text.now))) ≤ length out.old }
    ensures { Writes (tested_line (could_stand (take p text.now))) out.old out.new at result }
{
    put_text(&text[0..p], tried, 0);
    try_bytes(p, tried, found);
    put_runs(found, out, at)
}

// Every byte that could stand at place p, behind what stands before it.
pub fn put_could(text: &[u8], p: usize, out: &mut [u8], at: usize) -> usize
    requires p_in_bounds { (p ≤ length text.now) × (length text.now ≤ rules_file) }
    requires text_in_bounds { at + length (tested_line (could_stand (take p text.now))) ≤ length out.old }
    ensures { Writes (tested_line (could_stand (take p text.now))) out.old out.new at result }
{
    let mut tried = [0u8; RULES_FILE + 1];
    let mut found = [false; BYTES];
    put_could_in(text, p, &mut tried, &mut found, out, at)
}
