// Rules typed as text become a rule book: each line is read, its rule is written to a book in memory of our own, and a whole book goes to the output.
// The call takes every text and every area; a refusal leaves the output as it was.
#![tactic(auto)]

ghost use Rattle.std.specs.Prelude.{◌≡◌, ◌+◌, ◌≤◌, ◌<◌, length};
ghost use Rattle.number.specs.Limits.{rules, kinds, nodes, typed_area};
ghost use Rattle.typed.specs.Calls.{out_of, start_of};
ghost use Rattle.typing.specs.Promises.{Types, Given, Ready};
ghost use Rattle.typing.specs.Passes.{KindReads, ColonReads, Longer, LineReads};
ghost use Rattle.typing.specs.Sums.{Roomy, AddsLine, RulesReads, Finishes, LeftAfter};

use expression::Wrong;
use names::{NEWLINE, byte_at, digit_of};
use number::limits::{DEEP, FIRST_VERSION, KINDS, NODES, RULES, TYPED_AREA};
use number::{Refusal, write_number};

// A line's kind, how many nodes its expression has, and the place after its newline. A kind out of range is told as one past the limit.
#[derive(Clone, Copy)]
struct LineRead {
    pub kind: usize,
    pub count: usize,
    pub next: usize,
}

// The rules so far: how many, their nodes and their bytes.
// The book's end stands beside its buffer, since no memory is taken from a heap.
#[derive(Clone, Copy)]
struct Sum {
    pub rules: usize,
    pub nodes: usize,
    pub end: usize,
}

// The number of the line that brings the rules out of range. None is added after it.
#[derive(Clone, Copy)]
struct Fault {
    pub line: usize,
}

// The book of a text of typed rules goes to the front of `out`: its length, or why there is none.
pub fn type_rules(text: &[u8], out: &mut [u8]) -> Result<usize, Refusal>
    ensures { Types text.now out.old result out.new }
{
    if out.len() < TYPED_AREA {
        return Err(Refusal::Room);
    }
    let mut cells = [0u32; NODES];
    let mut book = [0u8; TYPED_AREA];
    type_in(text, &mut cells, &mut book, out)
}

// The same, with memory for the nodes of a line and for the book.
fn type_in(
    text: &[u8],
    cells: &mut [u32; NODES],
    book: &mut [u8],
    out: &mut [u8],
) -> Result<usize, Refusal>
    requires { Ready book.old out.old }
    ensures { Given text.now out.old result out.new }
{
    let sum = read_rules(text, cells, book)?;
    finish(text, sum, book, out)
}

// The lines of a text, each added to the rules so far.
// Kept as a while: the next place is where the line that was read ends, so nothing is counted.
fn read_rules(
    text: &[u8],
    cells: &mut [u32; NODES],
    book: &mut [u8],
) -> Result<Result<Sum, Fault>, Wrong>
    requires { length book.old ≡ typed_area }
    ensures { RulesReads text.now book.new result }
{
    let mut sum = Ok(Sum {
        rules: 0,
        nodes: 0,
        end: 0,
    });
    let mut p = 0;
    while p < text.len() {
        let line = read_line(text, p, cells)?;
        sum = add_line(sum, line.kind, line.count, cells, book);
        p = line.next;
    }
    Ok(sum)
}

// A line: its kind, a colon, an expression, a newline.
fn read_line(text: &[u8], at: usize, cells: &mut [u32; NODES]) -> Result<LineRead, Wrong>
    requires { at < length text.now }
    ensures { LineReads text.now at cells.old result cells.new }
{
    let (kind, from) = read_kind(text, at)?;
    let (p, count) = expression::choice(text, from, DEEP, cells, 0)?;
    if p < text.len() && text[p] == NEWLINE {
        return Ok(LineRead {
            kind,
            count,
            next: p + 1,
        });
    }
    Err(Wrong { at: p })
}

// A kind in decimal without leading zeros, and the place after the colon behind it.
fn read_kind(text: &[u8], at: usize) -> Result<(usize, usize), Wrong>
    requires { at < length text.now }
    ensures { KindReads text.now at result }
{
    let Some(first) = digit_of(text[at]) else {
        return Err(Wrong { at });
    };
    if first == 0 {
        return colon(text, at + 1, 0);
    }
    let mut kind = first;
    for p in at + 1..text.len() {
        let Some(d) = digit_of(text[p]) else {
            return colon(text, p, kind);
        };
        kind = longer(kind, d);
    }
    Err(Wrong { at: text.len() })
}

// The colon after a kind.
fn colon(text: &[u8], at: usize, kind: usize) -> Result<(usize, usize), Wrong>
    requires { at ≤ length text.now }
    ensures { ColonReads text.now at kind result }
{
    if byte_at(text, at) == b':' {
        return Ok((kind, at + 1));
    }
    Err(Wrong { at })
}

// A kind with one digit more; past the limit it stays one above it, however many digits follow.
// Kept as a number past the limit: the line is read on, since a wrong byte further on is told first.
fn longer(kind: usize, d: usize) -> usize
    requires { (kind ≤ kinds + 1) × (d ≤ 10) }
    ensures { Longer kind d result }
{
    (kind * 10 + d).min(KINDS + 1)
}

// Whether a line of this kind and so many nodes brings the rules so far out of range.
#[tactic(auto, using(crate::specs::SumLaws::out_rules, crate::specs::SumLaws::out_kind, crate::specs::SumLaws::out_nodes))]
fn out_of(done: usize, total: usize, kind: usize, count: usize) -> bool
    requires { (total ≤ nodes) × (count ≤ nodes + 1) }
    ensures { result ≡ out_of done total kind count }
{
    RULES <= done || KINDS < kind || NODES < total + count
}

// A line's rule after those so far: its kind, its node count and its nodes.
fn add_line(
    so_far: Result<Sum, Fault>,
    kind: usize,
    count: usize,
    cells: &[u32; NODES],
    book: &mut [u8],
) -> Result<Sum, Fault>
    requires { Roomy so_far book.old × (count ≤ nodes + 1) }
    ensures { AddsLine so_far kind count cells.now book.old result book.new }
{
    let sum = so_far?;
    if out_of(sum.rules, sum.nodes, kind, count) {
        return Err(Fault { line: sum.rules });
    }
    let second = write_number(kind, book, sum.end);
    let first = write_number(count, book, second);
    let end = laid::writing::write_cells(&cells[..count], book, first);
    Ok(Sum {
        rules: sum.rules + 1,
        nodes: sum.nodes + count,
        end,
    })
}

// All lines are read: a line out of range is told by its start, and so is that there is no line; else the book goes out.
fn finish(
    text: &[u8],
    rules: Result<Sum, Fault>,
    book: &[u8],
    out: &mut [u8],
) -> Result<usize, Refusal>
    requires { Roomy rules book.now × (typed_area ≤ length out.old) }
    ensures { Finishes text.now rules book.now out.old result out.new }
{
    let sum = rules.map_err(|fault| Refusal::Range(line_start(text, fault.line)))?;
    if sum.rules == 0 {
        return Err(Refusal::Range(0));
    }
    let at_count = write_number(FIRST_VERSION, out, 0);
    let first = write_number(sum.rules, out, at_count);
    let end = first + sum.end;
    out[first..end].copy_from_slice(&book[..sum.end]);
    Ok(end)
}

// Where a line starts, by its number: after so many newlines.
fn line_start(text: &[u8], line: usize) -> usize
    ensures { result ≡ start_of line 0 text.now }
{
    let mut left = line;
    for (p, c) in text.iter().enumerate() {
        if left == 0 {
            return p;
        }
        left = lines_left(left, *c);
    }
    text.len()
}

// How many newlines are still to come, after a byte.
fn lines_left(left: usize, c: u8) -> usize
    requires { 1 ≤ left }
    ensures { LeftAfter left c result }
{
    if c == NEWLINE {
        return left - 1;
    }
    left
}
