// Terms in a lent work area of cells: nodes read and stored, counted, tested for the empty text, compared.
// A node is an enum by value; a child's number is below its parent's, so that going down ends.
#![tactic(auto)]

ghost use Rattle.std.specs.Prelude.{◌≡◌, true, length, get_or};
ghost use Prim.Native.Nat.{◌+◌, ◌<◌, compare};
ghost use Rattle.meaning.specs.Derive.{nullable as matches_empty};
ghost use Rattle.meaning.specs.Order.{order, also};
ghost use Rattle.meaning.specs.Limited.{short};
ghost use Rattle.term.specs.Cells.{field_size, kind_size, packed, link_of, rebuilt as node_by, node_of, grow, term, Below, Sound};
ghost use Rattle.term.specs.Nodes.{kind_of, first_of, second_of, arity_of, nothing_node, empty_node, ordering, Fields, cell_of, Over, Held, Pushed};
ghost use Rattle.term.specs.Counts.{Countable, ShortTold};
ghost use Rattle.term.specs.Compares.{Glanced};

use number::limits::{TREE_NODES, WORK_CELLS};
use std::cmp::Ordering;

// A node of a term: a range's bounds, or the numbers of the cells of its children, which are no boxes, since no memory is taken from a heap.
#[derive(Clone, Copy, PartialEq, Eq)]
pub enum Term {
    Nothing,
    Empty,
    Range(usize, usize),
    Cat(usize, usize),
    Alt(usize, usize),
    Star(usize),
    And(usize, usize),
    Not(usize),
}

// The cell of a term that was built, with the next free cell.
#[derive(Clone, Copy)]
pub struct Built {
    pub root: usize,
    pub top: usize,
}

// The packing of a cell: the kind lowest, then two fields and a link, each as wide as a cell's number, then a bit; what is above stays free.
const KIND_SIZE: u64 = 8;

const FIELD_SIZE: u64 = WORK_CELLS as u64;

const LINK_PLACE: u64 = KIND_SIZE * FIELD_SIZE * FIELD_SIZE;

const BIT_PLACE: u64 = LINK_PLACE * FIELD_SIZE;

// Room for the places that wait while a short term is gone through: for each a node was seen, and one is still to be seen.
pub const WAITING: usize = (TREE_NODES + 1) / 2;

// The node of a kind over two fields. A kind is a number here and in `kind_of`, since a cell packs it as one.
pub fn rebuilt(kind: usize, first: usize, second: usize) -> Term
    ensures { result ≡ node_by kind first second }
{
    match kind {
        1 => Term::Empty,
        2 => Term::Range(first, second),
        3 => Term::Cat(first, second),
        4 => Term::Alt(first, second),
        5 => Term::Star(first),
        6 => Term::And(first, second),
        7 => Term::Not(first),
        _ => Term::Nothing,
    }
}

// The node of a cell.
fn unpack(cell: u64) -> Term
    ensures { result ≡ node_of cell }
{
    rebuilt(
        (cell % KIND_SIZE) as usize,
        (cell / KIND_SIZE % FIELD_SIZE) as usize,
        (cell / (KIND_SIZE * FIELD_SIZE) % FIELD_SIZE) as usize,
    )
}

// The place of a node's kind in the order of terms, and its fields, 0 where it has none.
pub fn kind_of(t: Term) -> usize
    ensures { result ≡ kind_of t }
{
    match t {
        Term::Nothing => 0,
        Term::Empty => 1,
        Term::Range(_, _) => 2,
        Term::Cat(_, _) => 3,
        Term::Alt(_, _) => 4,
        Term::Star(_) => 5,
        Term::And(_, _) => 6,
        Term::Not(_) => 7,
    }
}

pub fn first_of(t: Term) -> usize
    ensures { result ≡ first_of t }
{
    match t {
        Term::Nothing | Term::Empty => 0,
        Term::Range(first, _) | Term::Cat(first, _) | Term::Alt(first, _) | Term::And(first, _) =>
            first,
        Term::Star(first) | Term::Not(first) => first,
    }
}

pub fn second_of(t: Term) -> usize
    ensures { result ≡ second_of t }
{
    match t {
        Term::Range(_, second)
        | Term::Cat(_, second)
        | Term::Alt(_, second)
        | Term::And(_, second) => second,
        _ => 0,
    }
}

// How many children a node has: its first fields are their numbers.
pub fn arity(t: Term) -> usize
    ensures { result ≡ arity_of t }
{
    match t {
        Term::Nothing | Term::Empty | Term::Range(_, _) => 0,
        Term::Star(_) | Term::Not(_) => 1,
        Term::Cat(_, _) | Term::Alt(_, _) | Term::And(_, _) => 2,
    }
}

// Kept as a function and not as a From: a cell is packed of a node, a link and a bit, and From takes one value.
fn pack(kind: u64, first: usize, second: usize, link: usize, bit: u64) -> u64
    requires kind_lt_kind_size { kind < kind_size }
    requires first_lt_field_size { first < field_size }
    requires second_lt_field_size { second < field_size }
    requires link_lt_field_size { link < field_size }
    requires bit_bound { bit < 2 }
    ensures { result ≡ packed kind first second link bit }
{
    kind + KIND_SIZE * (first as u64)
        + KIND_SIZE * FIELD_SIZE * (second as u64)
        + LINK_PLACE * (link as u64)
        + BIT_PLACE * bit
}

// The cell of a node with a link, and with what its bit is to say.
fn cell_of(node: Term, link: usize, empty: bool) -> u64
    requires fields { Fields node }
    requires link_lt_field_size { link < field_size }
    ensures { result ≡ cell_of node link empty }
{
    pack(
        kind_of(node) as u64,
        first_of(node),
        second_of(node),
        link,
        empty as u64,
    )
}

// The node in cell `i`.
pub fn node_at(cells: &[u64], i: usize) -> Term
    requires { i < length cells.now }
    ensures { result ≡ node_of (get_or cells.now i 0) }
{
    unpack(cells[i])
}

// The link in cell `i`.
pub fn link_at(cells: &[u64], i: usize) -> usize
    requires { i < length cells.now }
    ensures { result ≡ link_of (get_or cells.now i 0) }
{
    (cells[i] / LINK_PLACE % FIELD_SIZE) as usize
}

// Whether the term in cell `i` matches the empty text: its bit says it.
pub fn nullable(cells: &[u64], i: usize) -> bool
    requires { Sound cells.now (i + 1) }
    ensures { result ≡ matches_empty (term cells.now i) }
{
    cells[i] / BIT_PLACE % 2 == 1
}

// Whether the term of a node does, by the bits of its children.
#[tactic(auto, unfolding(meaning::specs::Derive::nullable))]
fn node_nullable(cells: &[u64], node: Term) -> bool
    requires { Over cells.now node }
    ensures { result ≡ matches_empty (grow node (term cells.now)) }
{
    match node {
        Term::Nothing | Term::Range(_, _) => false,
        Term::Empty | Term::Star(_) => true,
        Term::Cat(a, b) | Term::And(a, b) => nullable(cells, a) && nullable(cells, b),
        Term::Alt(a, b) => nullable(cells, a) || nullable(cells, b),
        Term::Not(a) => !nullable(cells, a),
    }
}

// Stores a node with a link in cell `top`; the answer is the next top.
pub fn hold(cells: &mut [u64], top: usize, node: Term, link: usize) -> usize
    requires sound { Sound cells.old top }
    requires top_in_bounds { top < length cells.old }
    requires below { Below node top }
    requires link_lt_field_size { link < field_size }
    ensures { Held cells.old top node link cells.new result }
{
    let empty = node_nullable(cells, node);
    cells[top] = cell_of(node, link, empty);
    top + 1
}

// Stores a node with no link.
pub fn push(cells: &mut [u64], top: usize, node: Term) -> usize
    requires sound { Sound cells.old top }
    requires top_in_bounds { top < length cells.old }
    requires below { Below node top }
    ensures { Pushed cells.old top node cells.new result }
{
    hold(cells, top, node, 0)
}

// What a node is.
pub fn is_nothing(t: Term) -> bool
    ensures { result ≡ nothing_node t }
{
    matches!(t, Term::Nothing)
}

pub fn is_empty(t: Term) -> bool
    ensures { result ≡ empty_node t }
{
    matches!(t, Term::Empty)
}

// Whether a term's tree has few enough nodes. It is gone through from left to right: where a node has two children, the place of the
// second is listed in the cells from `top` to `end`, to be counted when the first has been.
pub fn is_short(cells: &mut [u64], top: usize, i: usize) -> bool
    requires { Countable cells.old top i }
    ensures { ShortTold cells.old top i cells.new result }
{
    let mut at = i;
    let mut end = top;
    for _seen in 0..TREE_NODES {
        let node = node_at(cells, at);
        let children = arity(node);
        if children == 0 {
            if end == top {
                return true;
            }
            end -= 1;
            at = cells[end] as usize;
            continue;
        }
        at = first_of(node);
        if children == 1 {
            continue;
        }
        cells[end] = second_of(node) as u64;
        end += 1;
    }
    false
}

// The first comparison decides, and where it finds no difference, the second.
fn compare_pairs(a: usize, b: usize, c: usize, d: usize) -> Ordering
    ensures { ordering result ≡ also (compare a c) (compare b d) }
{
    a.cmp(&c).then(b.cmp(&d))
}

// What two nodes tell of the order of their terms: it is known, or it is that of their only children, or that of their first children
// and then, where these are equal, of their second ones. Kept as an enum, since none of the three is a failure or a lack.
#[derive(Clone, Copy)]
enum Glance {
    Told(Ordering),
    One(usize, usize),
    Two(usize, usize, usize, usize),
}

// Looks at the nodes of two terms. Terms of one number are one term; kinds decide first, then parts.
fn compare_nodes(cells: &[u64], i: usize, j: usize) -> Glance
    requires sound { Sound cells.now (i + 1) }
    requires sound_2 { Sound cells.now (j + 1) }
    ensures { Glanced cells.now i j result }
{
    if i == j {
        return Glance::Told(Ordering::Equal);
    }
    let x = node_at(cells, i);
    let y = node_at(cells, j);
    let kinds = kind_of(x).cmp(&kind_of(y));
    if kinds.is_ne() {
        return Glance::Told(kinds);
    }
    let children = arity(x);
    if children == 0 {
        return Glance::Told(compare_pairs(first_of(x), second_of(x), first_of(y), second_of(y)));
    }
    if children == 1 {
        return Glance::One(first_of(x), first_of(y));
    }
    Glance::Two(first_of(x), first_of(y), second_of(x), second_of(y))
}

// Compares two terms, gone through in step from left to right: where two nodes have two children each, the places of the second ones
// are listed as pairs, to be compared when the first ones were found equal.
// Not put into its caller, whose frame would have the list at every comparison.
#[inline(never)]
fn compare_parts(cells: &[u64], i: usize, j: usize) -> Ordering
    requires sound { Sound cells.now (i + 1) }
    requires sound_2 { Sound cells.now (j + 1) }
    requires i_value { short (term cells.now i) ≡ true }
    ensures { ordering result ≡ order (term cells.now i) (term cells.now j) }
{
    // Kept as an array with its length beside, since no memory is taken from a heap.
    let mut pairs = [(0u16, 0u16); WAITING];
    let mut waiting = 0usize;
    let mut a = i;
    let mut b = j;
    // Kept as a `loop`: it goes along two terms by the list of what waits, and ends by what it finds.
    loop {
        let glance = compare_nodes(cells, a, b);
        match glance {
            Glance::Told(order) => {
                if waiting == 0 {
                    return order;
                }
                if order.is_ne() {
                    return order;
                }
                waiting -= 1;
                let (c, d) = pairs[waiting];
                a = c as usize;
                b = d as usize;
            }
            Glance::One(c, d) => {
                a = c;
                b = d;
            }
            Glance::Two(c, d, e, f) => {
                pairs[waiting] = (e as u16, f as u16);
                waiting += 1;
                a = c;
                b = d;
            }
        }
    }
}

// The order of two terms. Most are told apart by a glance; only what is not goes on to the parts, and needs the list.
pub fn compare_terms(cells: &[u64], i: usize, j: usize) -> Ordering
    requires sound { Sound cells.now (i + 1) }
    requires sound_2 { Sound cells.now (j + 1) }
    requires i_value { short (term cells.now i) ≡ true }
    ensures { ordering result ≡ order (term cells.now i) (term cells.now j) }
{
    let glance = compare_nodes(cells, i, j);
    match glance {
        Glance::Told(order) => order,
        Glance::One(_, _) | Glance::Two(_, _, _, _) => compare_parts(cells, i, j),
    }
}
