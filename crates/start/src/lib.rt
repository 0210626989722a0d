// Vector 0, put into the pool book by book: each rule's normal form is built in scratch above the pool and then put into it. A walk begins there.
// The places past the last rule hold Nothing's cell, so that vectors of the same books can be compared place by place.
#![tactic(auto)]

ghost use Rattle.std.specs.Prelude.{◌+◌, ◌≤◌, length};
ghost use Rattle.number.specs.Limits.{rules, work_cells};
ghost use Rattle.pool.specs.Index.{Indexed};
ghost use Rattle.walk.specs.Vectors.{normalised};
ghost use Rattle.vector.specs.Layout.{work_length};
ghost use Rattle.vector.specs.Vectors.{vector_of};
ghost use Rattle.vector.specs.Memory.{First};
ghost use Rattle.steps.specs.Step.{Follows};
ghost use Rattle.start.specs.Start.{rules_in, Opened, fronts, Starts, Enters};

use number::Refusal;
use number::limits::RULES;
use steps::Reached;
use vector::layout::NOTHING_CELL;
use vector::{Derived, Vector};

// A book's `n` rules in normal form, put behind the `k` terms of a vector that the pool holds already; None where a rule or a part of one is too long.
// Kept as a loop of its own beside that of `derive_vector`: a closure's contract for what makes the term would be longer than these lines.
// `Opened` stays a clause: the fact has one name, and a struct of a checked book would have to lend its bytes all the same.
pub fn add_rules(
    book: &[u8],
    n: usize,
    index: &mut [u16],
    cells: &mut [u64],
    top: usize,
    v: Vector,
    k: usize,
) -> Option<Derived>
    requires opened { Opened book.now n }
    requires first { First cells.old k top v.at }
    requires n_bound { k + n ≤ rules }
    requires indexed { Indexed index.old cells.old top }
    ensures { Starts (fronts (vector_of cells.old k v.at) (normalised (rules_in book.now)))
        (k + n) index.new cells.new result }
{
    let mut at = v.at;
    let mut next = top;
    for i in 0..n {
        let made = rule::rule_term(book, i, cells, next)?;
        let placed = pooling::put_term(index, cells, next, made.root);
        at[k + i] = placed.root;
        next = placed.top;
    }
    Some(Derived {
        top: next,
        vector: Vector { at },
    })
}

// The vector of a book's `n` rules in normal form, in a pool with its index that holds nothing else; None where a rule or a part of one is too long.
// The area's length stays two clauses: an array of just one length would ask more of callers.
pub fn first_vector(book: &[u8], n: usize, index: &mut [u16], cells: &mut [u64]) -> Option<Derived>
    requires opened { Opened book.now n }
    requires work_length_in_bounds { work_length ≤ length cells.old }
    requires cells_len_bound { length cells.old ≤ work_cells }
    requires indexed { Indexed index.old cells.old 0 }
    ensures { Starts (normalised (rules_in book.now)) n index.new cells.new result }
{
    cells[NOTHING_CELL] = 0;
    let none = Vector {
        at: [NOTHING_CELL; RULES],
    };
    add_rules(book, n, index, cells, 0, none, 0)
}

// The beginning of the walk of a book's `n` rules, for building and comparing: vector 0 becomes item 0, in a pool with its index that holds nothing else.
pub fn begun(
    book: &[u8],
    n: usize,
    index: &mut [u16],
    cells: &mut [u64],
) -> Result<Reached, Refusal>
    requires opened { Opened book.now n }
    requires work_length_in_bounds { work_length ≤ length cells.old }
    requires cells_len_bound { length cells.old ≤ work_cells }
    requires indexed { Indexed index.old cells.old 0 }
    ensures enters { Enters (normalised (rules_in book.now)) n cells.old cells.new result }
    ensures follows { Follows index.new cells.new result }
{
    let Some(first) = first_vector(book, n, index, cells) else {
        return Err(Refusal::Long(0));
    };
    steps::hold_first(cells, first.top, n, first.vector)
}
