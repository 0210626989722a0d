// Two terms joined as a choice or both at once, in the work area: their members in order, each once, merged by going along both.
// All is over the operator that joins the members. A result with the limit is counted, and for one of more than 255 nodes the answer is None.
#![tactic(auto)]

ghost use Rattle.std.specs.Prelude.{◌≡◌};
ghost use Rattle.meaning.specs.Shape.{beside as beside_of};
ghost use Rattle.merged.specs.Asked.{Sides, CountedSides, Meets, Unites};
ghost use Rattle.merged.specs.Merge.{head_at, Goes};
ghost use Rattle.merged.specs.Builds.{United, Merged, MergedFits};

use meaning::Join;
use normal::{Built, joins, nest};
use std::cmp::Ordering;
use term::{Term, compare_terms, first_of, is_nothing, node_at, second_of};

// How the merge of two terms' members goes on, by the first ones: it stands in a cell; it is a member and the rest, in two cells;
// or it is a member, in the first cell, before the merge of two terms. Kept as an enum, since none of the three is a failure or a lack.
#[derive(Clone, Copy)]
enum Next {
    Whole(usize),
    Pair(usize, usize),
    More(usize, usize, usize),
}

// The first member of a term by its node and its cell: of what is joined so its left side, of anything else itself.
fn head_of(node: Term, i: usize, join: Join) -> usize
    ensures { result ≡ head_at join node i }
{
    if joins(node, join) {
        return first_of(node);
    }
    i
}

// Compares the first members of two terms, neither of which is Nothing. The smaller comes first; of equal ones one is kept.
fn next_member(cells: &[u64], a: usize, b: usize, join: Join) -> Next
    requires { Meets join cells.now a b }
    ensures { Goes join cells.now a b result }
{
    let x = node_at(cells, a);
    let y = node_at(cells, b);
    let head = head_of(x, a, join);
    let rival = head_of(y, b, join);
    let order = compare_terms(cells, head, rival);
    match order {
        Ordering::Less => {
            if joins(x, join) {
                return Next::More(head, second_of(x), b);
            }
            Next::Pair(a, b)
        }
        Ordering::Equal => {
            if joins(x, join) {
                if joins(y, join) {
                    return Next::More(rival, second_of(x), second_of(y));
                }
                return Next::Whole(a);
            }
            Next::Whole(b)
        }
        Ordering::Greater => {
            if joins(y, join) {
                return Next::More(rival, a, second_of(y));
            }
            Next::Pair(b, a)
        }
    }
}

// Merges two terms, neither of which is Nothing: the members of the merge are listed from `top` on, and nested over what stands in a cell.
fn unite(cells: &mut [u64], top: usize, a: usize, b: usize, join: Join) -> Built
    requires { Unites join cells.old top a b }
    ensures { United join cells.old top a b cells.new result }
{
    let mut left = a;
    let mut right = b;
    let mut end = top;
    // Kept as a `loop`: it goes along two terms at once, and ends by what it finds.
    loop {
        let step = next_member(cells, left, right, join);
        match step {
            Next::Whole(root) => {
                return nest(cells, top, end, root, join);
            }
            Next::Pair(first, rest) => {
                cells[end] = first as u64;
                return nest(cells, top, end + 1, rest, join);
            }
            Next::More(first, x, y) => {
                cells[end] = first as u64;
                end += 1;
                left = x;
                right = y;
            }
        }
    }
}

// The cell of what comes of Nothing, in one cell, and of the term in another: as a choice that term, else Nothing.
fn beside(join: Join, nothing: usize, other: usize) -> usize
    ensures { result ≡ beside_of join nothing other }
{
    match join {
        Join::Or => other,
        Join::Then | Join::Both => nothing,
    }
}

// Two terms joined by an operator that sorts its members: as a choice, or both at once.
pub fn merge(cells: &mut [u64], top: usize, a: usize, b: usize, join: Join) -> Built
    requires { Sides join cells.old top a b }
    ensures { Merged join cells.old top a b cells.new result }
{
    let x = node_at(cells, a);
    let y = node_at(cells, b);
    if is_nothing(x) {
        return Built {
            root: beside(join, a, b),
            top,
        };
    }
    if is_nothing(y) {
        return Built {
            root: beside(join, b, a),
            top,
        };
    }
    unite(cells, top, a, b, join)
}

// The same with the limit, of two terms that fit: with Nothing on a side one of them is the answer, and needs no counting.
pub fn merge_short(cells: &mut [u64], top: usize, a: usize, b: usize, join: Join) -> Option<Built>
    requires { CountedSides join cells.old top a b }
    ensures { MergedFits join cells.old top a b cells.new result }
{
    let x = node_at(cells, a);
    if is_nothing(x) {
        return Some(Built {
            root: beside(join, a, b),
            top,
        });
    }
    let y = node_at(cells, b);
    if is_nothing(y) {
        return Some(Built {
            root: beside(join, b, a),
            top,
        });
    }
    let made = merge(cells, top, a, b, join);
    normal::fit(cells, made)
}
