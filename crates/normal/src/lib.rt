// Terms built in the work area, always in normal form: leaves, cat, star and negated on terms in normal form. What has sorted members is the crate merged's.
// A result with the limit is counted, and for one of more than 255 nodes the answer is None.
#![tactic(auto)]

ghost use Rattle.std.specs.Prelude.{◌≡◌, ◌+◌, ◌<◌, ◌≤◌, length};
ghost use Rattle.term.specs.Cells.{Below, Sound};
ghost use Rattle.term.specs.Area.{pending, Room};
ghost use Rattle.term.specs.Counts.{Countable};
ghost use Rattle.normal.specs.Asked.{Links, CountedLinks};
ghost use Rattle.normal.specs.Builds.{Stores, Chains, Cats, Stars, Negates, Fitted, CatFits, NegatedFits};
ghost use Rattle.normal.specs.Nest.{join_node, joins_node, Lists, Nests};

use meaning::Join;
pub use term::Built;
use term::Term;

// Stores one node.
pub fn store(cells: &mut [u64], top: usize, node: Term) -> Built
    requires sound { Sound cells.old top }
    requires top_in_bounds { top < length cells.old }
    requires below { Below node top }
    ensures { Stores cells.old top node cells.new result }
{
    let next = term::push(cells, top, node);
    Built {
        root: top,
        top: next,
    }
}

// The node that joins a member to the rest by an operator, and whether a node is one.
fn joined(join: Join, first: usize, rest: usize) -> Term
    ensures { result ≡ join_node join first rest }
{
    match join {
        Join::Then => Term::Cat(first, rest),
        Join::Or => Term::Alt(first, rest),
        Join::Both => Term::And(first, rest),
    }
}

pub fn joins(node: Term, join: Join) -> bool
    ensures { result ≡ joins_node join node }
{
    match join {
        Join::Then => matches!(node, Term::Cat(_, _)),
        Join::Or => matches!(node, Term::Alt(_, _)),
        Join::Both => matches!(node, Term::And(_, _)),
    }
}

// Joins the members whose numbers are listed in the cells from `top` to `end`, each to all after it, and the last to `tail`.
// A node stands above its parts, so that of the last member is stored first: the list is turned around, and the nodes take its cells.
pub fn nest(cells: &mut [u64], top: usize, end: usize, tail: usize, join: Join) -> Built
    requires { Lists cells.old top end tail }
    ensures { Nests join cells.old top end tail cells.new result }
{
    cells[top..end].reverse();
    let mut root = tail;
    for at in top..end {
        let first = cells[at] as usize;
        term::push(cells, at, joined(join, first, root));
        root = at;
    }
    Built { root, top: end }
}

// Puts `b` behind the last link of the chain `a`: the chain's members are listed from `top` on, and nested anew over `b`.
fn chain(cells: &mut [u64], top: usize, a: usize, b: usize) -> Built
    requires { Links cells.old top a b }
    ensures { Chains cells.old top a b cells.new result }
{
    let mut last = a;
    let mut end = top;
    // Kept as a `loop`: it goes down the links of a chain, which are listed in the lent cells above the top, since no heap is used.
    loop {
        let node = term::node_at(cells, last);
        if joins(node, Join::Then) {
            cells[end] = term::first_of(node) as u64;
            end += 1;
            last = term::second_of(node);
            continue;
        }
        cells[end] = last as u64;
        return nest(cells, top, end + 1, b, Join::Then);
    }
}

// One term after another: Nothing on a side gives Nothing, Empty on a side the other side, all else a chain.
pub fn cat(cells: &mut [u64], top: usize, a: usize, b: usize) -> Built
    requires { Links cells.old top a b }
    ensures { Cats cells.old top a b cells.new result }
{
    let x = term::node_at(cells, a);
    let y = term::node_at(cells, b);
    if term::is_nothing(x) {
        return Built { root: a, top };
    }
    if term::is_nothing(y) {
        return Built { root: b, top };
    }
    if term::is_empty(x) {
        return Built { root: b, top };
    }
    if term::is_empty(y) {
        return Built { root: a, top };
    }
    chain(cells, top, a, b)
}

// The repeat of a term: that of Nothing or Empty is Empty, that of a Star that Star.
pub fn star(cells: &mut [u64], top: usize, a: usize) -> Built
    requires sound { Sound cells.old top }
    requires a_lt_top { a < top }
    requires top_in_bounds { top < length cells.old }
    ensures { Stars cells.old top a cells.new result }
{
    match term::node_at(cells, a) {
        Term::Nothing => store(cells, top, Term::Empty),
        Term::Empty | Term::Star(_) => Built { root: a, top },
        _ => store(cells, top, Term::Star(a)),
    }
}

// Not of a term: that of a Not is its inner term.
pub fn negated(cells: &mut [u64], top: usize, a: usize) -> Built
    requires sound { Sound cells.old top }
    requires a_lt_top { a < top }
    requires top_in_bounds { top < length cells.old }
    ensures { Negates cells.old top a cells.new result }
{
    if let Term::Not(inner) = term::node_at(cells, a) {
        return Built { root: inner, top };
    }
    store(cells, top, Term::Not(a))
}

// What was built, with the limit: None for a result of too many nodes.
pub fn fit(cells: &mut [u64], made: Built) -> Option<Built>
    requires { Countable cells.old made.top made.root }
    ensures { Fitted cells.old made cells.new result }
{
    if term::is_short(cells, made.top, made.root) {
        Some(made)
    } else {
        None
    }
}

// cat with the limit.
pub fn cat_fit(cells: &mut [u64], top: usize, a: usize, b: usize) -> Option<Built>
    requires { CountedLinks cells.old top a b }
    ensures { CatFits cells.old top a b cells.new result }
{
    let made = cat(cells, top, a, b);
    fit(cells, made)
}

// negated with the limit.
pub fn negated_fit(cells: &mut [u64], top: usize, a: usize) -> Option<Built>
    requires sound { Sound cells.old top }
    requires a_lt_top { a < top }
    requires room { Room cells.old top (1 + pending) }
    ensures { NegatedFits cells.old top a cells.new result }
{
    let made = negated(cells, top, a);
    fit(cells, made)
}
