// An expression of typed rules: readers of a choice, a sequence and an atom that call each other and lay its nodes as they go.
// Each answers the place after what it read and the count of nodes there, or the first wrong byte.
#![tactic(auto)]

ghost use Rattle.std.specs.Prelude.{◌≤◌, ◌≡◌, length};
ghost use Rattle.number.specs.declared.Refusal.{Refusal};
ghost use Rattle.number.specs.declared.Refusal.TheVariants.{Typed};
ghost use Rattle.expression.specs.declared.Wrong.{Wrong};
ghost use Rattle.expression.specs.Reads.{Any, Breaks, Ends, AtomRead, SequenceRead, ChoiceRead};
ghost use Rattle.expression.specs.Steps.{LeafRead, EscapeRead, NameRead, MarksRead};

use laid::{ALT, CAT, EMPTY};
use names::{Naming, byte_at};
use number::Refusal;
use number::limits::{LAST_BYTE, NODES};

// The place of the wrong byte.
#[derive(Clone, Copy, PartialEq, Eq)]
pub struct Wrong {
    pub at: usize,
}

impl From<Wrong> for Refusal {
    ghost from_gives = { λ (wrong : Wrong) (r : Refusal). r ≡ Typed wrong.at };

    fn from(wrong: Wrong) -> Refusal {
        Refusal::Typed(wrong.at)
    }
}

// The two hex digits of an escape.
fn escape(
    text: &[u8],
    at: usize,
    cells: &mut [u32; NODES],
    top: usize,
) -> Result<(usize, usize), Wrong>
    requires { at ≤ length text.now }
    ensures { EscapeRead text.now cells.old at top result cells.new }
{
    let Some(high) = names::hex_of(byte_at(text, at)) else {
        return Err(Wrong { at });
    };
    let Some(low) = names::hex_of(byte_at(text, at + 1)) else {
        return Err(Wrong { at: at + 1 });
    };
    let byte = high * 16 + low;
    let x = laid::range_cell(byte, byte);
    let t = laid::lay(cells, top, x);
    Ok((at + 2, t))
}

// The rest of a set's name: byte by byte, as long as some name begins so.
fn name(
    text: &[u8],
    at: usize,
    cells: &mut [u32; NODES],
    top: usize,
) -> Result<(usize, usize), Wrong>
    requires { at ≤ length text.now }
    ensures { NameRead text.now cells.old at top result cells.new }
{
    for to in at..text.len() {
        match names::known(&text[at..to + 1]) {
            Naming::Begun => {}
            Naming::Whole(k) => {
                let t = laid::lay_set(cells, top, k);
                return Ok((to + 1, t));
            }
            Naming::Unknown => return Err(Wrong { at: to }),
        }
    }
    Err(Wrong { at: text.len() })
}

// An atom that holds no other: a bare byte, an escape, a dot, a set.
fn leaf(
    text: &[u8],
    at: usize,
    cells: &mut [u32; NODES],
    top: usize,
) -> Result<(usize, usize), Wrong>
    requires { at ≤ length text.now }
    ensures { LeafRead text.now cells.old at top result cells.new }
{
    let c = byte_at(text, at);
    match c {
        b'\\' => escape(text, at + 1, cells, top),
        b'<' => name(text, at + 1, cells, top),
        b'.' => {
            let any = laid::range_cell(0, LAST_BYTE as u8);
            let t = laid::lay(cells, top, any);
            Ok((at + 1, t))
        }
        _ if names::is_bare(c) => {
            let x = laid::range_cell(c, c);
            let t = laid::lay(cells, top, x);
            Ok((at + 1, t))
        }
        _ => Err(Wrong { at }),
    }
}

// The marks after an atom that ends before `from`, whose nodes go from start to count: the place after them and the count of nodes.
fn marks(
    text: &[u8],
    from: usize,
    cells: &mut [u32; NODES],
    start: usize,
    count: usize,
) -> (usize, usize)
    ensures { MarksRead text.now from cells.old start count result cells.new }
{
    let mut t = count;
    for p in from..text.len() {
        let c = text[p];
        if !names::is_mark(c) {
            return (p, t);
        }
        t = laid::mark(cells, start, t, c);
    }
    (text.len(), t)
}

// A choice: sequences with bars between them, grouped from the left. So many parentheses may still be opened in it.
// Kept as a while, as in a sequence: the next place is where the part that was read ends, so nothing is counted.
#[cycle(atom_choice_sequence)]
pub fn choice(
    text: &[u8],
    at: usize,
    room: usize,
    cells: &mut [u32; NODES],
    top: usize,
) -> Result<(usize, usize), Wrong>
    requires { at ≤ length text.now }
    ensures { ChoiceRead Ends text.now cells.old at room top result cells.new }
{
    let (mut p, mut t) = sequence(text, at, room, cells, top)?;
    while p < text.len() {
        if text[p] != b'|' {
            return Ok((p, t));
        }
        let (q, more) = sequence(text, p + 1, room, cells, t)?;
        t = laid::lay(cells, more, ALT);
        p = q;
    }
    Ok((p, t))
}

// A sequence: atoms with their marks, one after the other, grouped from the left.
#[cycle(atom_choice_sequence)]
fn sequence(
    text: &[u8],
    at: usize,
    room: usize,
    cells: &mut [u32; NODES],
    top: usize,
) -> Result<(usize, usize), Wrong>
    requires { at ≤ length text.now }
    ensures { SequenceRead Breaks text.now cells.old at room top result cells.new }
{
    let (from, count) = atom(text, at, room, cells, top)?;
    let (mut p, mut t) = marks(text, from, cells, top, count);
    while p < text.len() {
        if !names::begins_atom(text[p]) {
            return Ok((p, t));
        }
        let (q, plain) = atom(text, p, room, cells, t)?;
        let (next, marked) = marks(text, q, cells, t, plain);
        t = laid::lay(cells, marked, CAT);
        p = next;
    }
    Ok((p, t))
}

// An atom: empty parentheses, a choice in parentheses, or a leaf.
#[cycle(atom_choice_sequence)]
fn atom(
    text: &[u8],
    at: usize,
    room: usize,
    cells: &mut [u32; NODES],
    top: usize,
) -> Result<(usize, usize), Wrong>
    requires { at ≤ length text.now }
    ensures { AtomRead Any text.now cells.old at room top result cells.new }
{
    if byte_at(text, at) != b'(' {
        return leaf(text, at, cells, top);
    }
    if room == 0 {
        return Err(Wrong { at });
    }
    if byte_at(text, at + 1) == b')' {
        let t = laid::lay(cells, top, EMPTY);
        return Ok((at + 2, t));
    }
    let (p, t) = choice(text, at + 1, room - 1, cells, top)?;
    if byte_at(text, p) != b')' {
        return Err(Wrong { at: p });
    }
    Ok((p + 1, t))
}
