// The normal form of a rule, built in the work area from the rule's nodes as they stand in the book's bytes.
// The nodes are worked off with a stack of cells; each result is counted, and one that is too long ends the work.
#![tactic(auto)]

ghost use Rattle.std.specs.Prelude.{◌+◌, ◌≤◌};
ghost use Rattle.number.specs.Limits.{first_letter, last_letter, scratch};
ghost use Rattle.term.specs.Cells.{Sound};
ghost use Rattle.term.specs.Area.{pending, Room};
ghost use Rattle.rule.specs.Work.{Has, RuleMade, either_cells, node_room, Operands, EitherBuilt, NodeBuilt, NodeMade};

use book::Node;
use meaning::Join;
use normal::Built;
use number::limits::{CAPITAL, NODES};
use term::Term;

// The choice of a letter's two forms, the capital first.
fn either_built(cells: &mut [u64], top: usize, letter: usize) -> Built
    requires sound { Sound cells.old top }
    requires room { Room cells.old top either_cells }
    requires first_letter_le_letter { first_letter ≤ letter }
    requires letter_le_last_letter { letter ≤ last_letter }
    ensures { EitherBuilt cells.old top letter cells.new result }
{
    let capital = letter - CAPITAL;
    let second = term::push(cells, top, Term::Range(capital, capital));
    let third = term::push(cells, second, Term::Range(letter, letter));
    merged::merge(cells, third, top, second, Join::Or)
}

// What a node makes of the term on top of the stack, `b`, and the one below it, `a`; one that takes fewer ignores the others.
fn node_built(cells: &mut [u64], top: usize, node: Node, a: usize, b: usize) -> Built
    requires { Operands node cells.old top a b }
    ensures { NodeBuilt node cells.old top a b cells.new result }
{
    // Kept as a `match`: each node has other arguments for what builds it.
    match node {
        Node::Nothing => normal::store(cells, top, Term::Nothing),
        Node::Empty => normal::store(cells, top, Term::Empty),
        Node::Range(lo, hi) => normal::store(cells, top, Term::Range(lo, hi)),
        Node::Cat => normal::cat(cells, top, a, b),
        Node::Alt => merged::merge(cells, top, a, b, Join::Or),
        Node::Star => normal::star(cells, top, b),
        Node::Either(letter) => either_built(cells, top, letter),
        Node::And => merged::merge(cells, top, a, b, Join::Both),
        Node::Not => normal::negated(cells, top, b),
    }
}

// The same with the limit: all that a node makes is counted here.
fn node_term(cells: &mut [u64], top: usize, node: Node, a: usize, b: usize) -> Option<Built>
    requires operands { Operands node cells.old top a b }
    requires room { Room cells.old top (node_room + pending) }
    ensures { NodeMade node cells.old top a b cells.new result }
{
    let made = node_built(cells, top, node, a, b);
    normal::fit(cells, made)
}

// The normal form of a rule of a book that is read, above `top`, or none if it or a part of it is too long.
// Kept as an array with its height beside: by the two spare places below the stack every node reads two numbers, and none tests how many stand.
// The book is read, so both answers that are unwrapped are there.
pub fn rule_term(book: &[u8], rule: usize, cells: &mut [u64], top: usize) -> Option<Built>
    requires has { Has book.now rule }
    requires sound { Sound cells.old top }
    requires room { Room cells.old top scratch }
    ensures { RuleMade book.now rule cells.old top cells.new result }
{
    let place = places::rule_place(book, rule).unwrap();
    let mut stack = [0u16; NODES + 2];
    let mut height: usize = 0;
    let mut at = place.at;
    let mut free = top;
    for _ in 0..place.nodes {
        let a = stack[height] as usize;
        let b = stack[height + 1] as usize;
        let (node, next) = book::read_node(book, at, place.version).unwrap();
        let made = node_term(cells, free, node, a, b)?;
        let kept = height - book::takes(node);
        stack[kept + 2] = made.root as u16;
        height = kept + 1;
        at = next;
        free = made.top;
    }
    Some(Built {
        root: stack[height + 1] as usize,
        top: free,
    })
}
