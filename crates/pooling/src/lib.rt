// A term is put into the pool with all its parts, each looked up first; one that stands there already is left as it is.
// Scratch above the pool is given up once its nodes have been copied out of it.
#![tactic(auto)]

ghost use Rattle.std.specs.Prelude.{◌≡◌, ◌+◌, ◌-◌, ◌<◌, ◌≤◌, length, take};
ghost use Rattle.number.specs.Limits.{tree_nodes};
ghost use Rattle.meaning.specs.Re.{size};
ghost use Rattle.term.specs.Cells.{term, Sound};
ghost use Rattle.pool.specs.Pooled.{terms_of};
ghost use Rattle.pool.specs.Index.{Open, Put};
ghost use Rattle.pooling.specs.Postfix.{takes, Fit};
ghost use Rattle.pooling.specs.Copied.{Waited, Copied, SomeCopied, Taken, Rooted, CopyPut};

use number::limits::TREE_NODES;
use pool::put_node;
use term::{Built, Term, arity, first_of, kind_of, node_at, rebuilt, second_of};

// Lists a child as the last of the places that wait, unless it stands in the pool; the answer is how many wait.
// Kept as a count beside `out`, since the front of one lent area is the list, and its back the copy that grows towards it.
fn wait(out: &mut [u64], waiting: usize, top: usize, child: usize) -> usize
    requires { waiting < length out.old }
    ensures { Waited top child out.old waiting out.new result }
{
    if child < top {
        return waiting;
    }
    out[waiting] = child as u64;
    waiting + 1
}

// Copies the nodes of a term that do not stand in the pool in postfix order; they end where `out` ends, and the answer is where they start.
// They are written from the last one down: a node, then its second child, then its first. The places that wait are listed in the front;
// each has a node that is still to be written, so the two never meet.
fn copy_out(cells: &[u64], top: usize, i: usize, out: &mut [u64]) -> usize
    requires sound { Sound cells.now top }
    requires sound_2 { Sound cells.now (i + 1) }
    requires i_in_bounds { size (term cells.now i) ≤ length out.old }
    ensures { Copied cells.now top (term cells.now i) out.new result }
{
    let mut start = out.len();
    out[0] = i as u64;
    let mut waiting = 1;
    // Kept as a `while`: it works off a list that grows in a turn.
    while 0 < waiting {
        waiting -= 1;
        let at = out[waiting] as usize;
        start -= 1;
        out[start] = cells[at];
        let node = node_at(cells, at);
        let children = arity(node);
        if children == 0 {
            continue;
        }
        waiting = wait(out, waiting, top, first_of(node));
        if children == 1 {
            continue;
        }
        waiting = wait(out, waiting, top, second_of(node));
    }
    start
}

// A child's number in the pool, and what is left of the stack of numbers: a child below `base` stood in the pool and is its own number;
// the number of any other is the last on the stack.
fn child_of(stack: &[u64], base: usize, child: usize) -> (usize, &[u64])
    requires { takes base child ≤ length stack.now }
    ensures front { result.1.now ≡ take (length result.1.now) stack.now }
    ensures taken { Taken base child stack.now (length stack.now) result.0 (length result.1.now) }
{
    if child < base {
        return (child, stack);
    }
    let last = stack.len() - 1;
    (stack[last] as usize, &stack[..last])
}

// The node over the numbers of its children, and what is left of the stack; the second child's number was put last.
fn node_of(stack: &[u64], base: usize, node: Term) -> (Term, &[u64])
    requires { Fit base node (length stack.now) }
    ensures { Rooted base node stack.now (length stack.now) result.0 (length result.1.now) }
{
    let children = arity(node);
    if children == 0 {
        return (node, stack);
    }
    let kind = kind_of(node);
    if children == 1 {
        let (child, rest) = child_of(stack, base, first_of(node));
        return (rebuilt(kind, child, 0), rest);
    }
    let (second, front) = child_of(stack, base, second_of(node));
    let (first, rest) = child_of(front, base, first_of(node));
    (rebuilt(kind, first, second), rest)
}

// Puts the nodes of a term that were copied out into the pool, children first. Their numbers are kept on a stack in the front of `out`,
// which is never higher than what was read. The pool grows over the scratch, so children stood in it only below the first `top`.
fn put_copy(
    out: &mut [u64],
    start: usize,
    index: &mut [u16],
    cells: &mut [u64],
    top: usize,
) -> Built
    requires some_copied { SomeCopied cells.old top out.old start }
    requires fact { Open index.old cells.old top (length out.old - start) }
    ensures { CopyPut cells.old top out.old start index.new cells.new result.root result.top }
{
    let mut end = top;
    let mut height = 0;
    for k in start..out.len() {
        let copied = node_at(out, k);
        let (node, rest) = node_of(&out[..height], top, copied);
        height = rest.len();
        let placed = put_node(index, cells, end, node);
        out[height] = placed.root as u64;
        height += 1;
        end = placed.top;
    }
    Built {
        root: out[0] as usize,
        top: end,
    }
}

// Puts the term in cell `i`, in the pool or in scratch above it, into the pool at `top`; the scratch is given up.
// Most derivatives stand in the pool or have no children: these take the quick ways.
pub fn put_term(index: &mut [u16], cells: &mut [u64], top: usize, i: usize) -> Built
    requires fact { Open index.old cells.old top tree_nodes }
    requires sound { Sound cells.old (i + 1) }
    requires i_bound { size (term cells.old i) ≤ tree_nodes }
    ensures { Put cells.old top (terms_of cells.old top) index.new cells.new result.root result.top
        (term cells.old i) (top + size (term cells.old i)) }
{
    if i < top {
        return Built { root: i, top };
    }
    let node = node_at(cells, i);
    if arity(node) == 0 {
        return put_node(index, cells, top, node);
    }
    let mut out = [0u64; TREE_NODES];
    let start = copy_out(cells, top, i, &mut out);
    put_copy(&mut out, start, index, cells, top)
}
