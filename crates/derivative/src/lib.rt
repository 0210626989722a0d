// The derivative of a term by a byte, in the work area and in normal form; and the next byte at which a derivative can change.
// Each result on the way is counted, and where one has more than 255 nodes the answer is None.
#![tactic(auto)]

ghost use Rattle.std.specs.Prelude.{true, ◌≡◌, ◌+◌, ◌≤◌};
ghost use Rattle.number.specs.Limits.{last_byte};
ghost use Rattle.meaning.specs.Edges.{next_edge};
ghost use Rattle.meaning.specs.Limited.{short};
ghost use Rattle.term.specs.Cells.{term, Sound};
ghost use Rattle.term.specs.Nodes.{kind_of, Fields};
ghost use Rattle.normal.specs.Asked.{CountedLinks};
ghost use Rattle.derivative.specs.Derives.{Derives, leaf_left, rest_of, both_sides, join_of, Rested, Derived};
ghost use Rattle.derivative.specs.Waiting.{leaf_edge};

use meaning::Join;
use merged::merge_short;
use normal::{Built, cat_fit, negated_fit, store};
use number::limits::BYTES;
use term::{Term, WAITING, arity, first_of, node_at, nullable, second_of};

// What a term without parts leaves to match after a byte: only a range leaves something, where the byte lies in it.
fn leaf_left(node: Term, byte: usize) -> Term
    ensures { result ≡ leaf_left node byte }
{
    let Term::Range(lo, hi) = node else {
        return Term::Nothing;
    };
    if lo <= byte && byte <= hi {
        Term::Empty
    } else {
        Term::Nothing
    }
}

// What stands behind a node's first part: the second one, or where there is none the node itself.
fn rest_of(node: Term, i: usize) -> usize
    ensures { result ≡ rest_of node i }
{
    if arity(node) == 1 {
        return i;
    }
    second_of(node)
}

// What the first part's derivative becomes: in a Not it is turned, where the derivative goes to both sides of the node it stands as it is,
// else the rest stands behind it.
fn with_rest(cells: &mut [u64], top: usize, node: Term, da: usize, rest: usize) -> Option<Built>
    requires { CountedLinks cells.old top da rest }
    ensures { Rested cells.old top (kind_of node) da rest cells.new result }
{
    match node {
        Term::Alt(_, _) | Term::And(_, _) => Some(Built { root: da, top }),
        Term::Not(_) => negated_fit(cells, top, da),
        _ => cat_fit(cells, top, da, rest),
    }
}

// Whether the second side's derivative is joined to that: in a Cat only where the first side matches the empty text.
fn both_sides(cells: &[u64], node: Term, a: usize) -> bool
    requires { Sound cells.now (a + 1) }
    ensures { result ≡ both_sides (kind_of node) (term cells.now a) }
{
    match node {
        Term::Cat(_, _) => nullable(cells, a),
        Term::Alt(_, _) | Term::And(_, _) => true,
        _ => false,
    }
}

// And how: in an And both at once, else as a choice.
fn join_of(node: Term) -> Join
    ensures { result ≡ join_of (kind_of node) }
{
    match node {
        Term::And(_, _) => Join::Both,
        _ => Join::Or,
    }
}

// The derivative of a term by a byte. That of the second side is worked out only where it is joined.
// It calls itself, so its frame is there once for each level of the term, and each call that answers a term keeps a place of its own
// in the frame. So all kinds share the same few calls.
pub fn derive(cells: &mut [u64], top: usize, i: usize, byte: usize) -> Option<Built>
    requires { Derives cells.old top i }
    ensures { Derived cells.old top i byte cells.new result }
{
    let node = node_at(cells, i);
    if arity(node) == 0 {
        return Some(store(cells, top, leaf_left(node, byte)));
    }
    let a = first_of(node);
    let rest = rest_of(node, i);
    let da = derive(cells, top, a, byte)?;
    let left = with_rest(cells, da.top, node, da.root, rest)?;
    if both_sides(cells, node, a) {
        let db = derive(cells, left.top, rest, byte)?;
        return merge_short(cells, db.top, left.root, db.root, join_of(node));
    }
    Some(left)
}

// The next byte at which a term without parts has an edge, or the number of bytes if there is none.
#[tactic(auto, unfolding(meaning::specs::Edges::range_edge))]
fn leaf_edge(leaf: Term, byte: usize) -> usize
    requires { Fields leaf }
    ensures { result ≡ leaf_edge leaf byte }
{
    let Term::Range(lo, hi) = leaf else {
        return BYTES;
    };
    if byte < lo {
        return lo;
    }
    if byte <= hi {
        return hi + 1;
    }
    BYTES
}

// The next byte at which some range of a term starts or has just ended, or the number of bytes if there is none.
// It is gone through from left to right: where a node has two children, the second waits until the first has been seen.
pub fn next_edge(cells: &[u64], i: usize, byte: usize) -> usize
    requires sound { Sound cells.now (i + 1) }
    requires i_value { short (term cells.now i) ≡ true }
    requires byte_le_last_byte { byte ≤ last_byte }
    ensures { result ≡ next_edge byte (term cells.now i) }
{
    let whole = node_at(cells, i);
    if arity(whole) == 0 {
        return leaf_edge(whole, byte);
    }
    // Kept as an array with its length beside, since no memory is taken from a heap.
    let mut waiting = [0u16; WAITING];
    let mut count: usize = 0;
    let mut least = BYTES;
    let mut at = i;
    // Kept as a `loop`: it goes down a term by the list of what waits, and ends by what it finds.
    loop {
        let node = node_at(cells, at);
        let children = arity(node);
        if children == 0 {
            least = least.min(leaf_edge(node, byte));
            if count == 0 {
                return least;
            }
            count -= 1;
            at = waiting[count] as usize;
            continue;
        }
        at = first_of(node);
        if children == 1 {
            continue;
        }
        waiting[count] = second_of(node) as u16;
        count += 1;
    }
}
