// Vectors of 32 terms by value: compared, stored and loaded, labelled, and derived place by place in the work area.
// A derived term is built in scratch, put into the pool, and its number taken: equal vectors have equal numbers.
#![tactic(auto)]

ghost use Rattle.std.specs.Prelude.{◌≡◌, ◌≤◌, length, drop, replicate};
ghost use Rattle.vector.specs.Layout.{items, work_length};
ghost use Rattle.number.specs.Limits.{last_byte};
ghost use Rattle.meaning.specs.Rules.{label};
ghost use Rattle.meaning.specs.Edges.{next_edge_all};
ghost use Rattle.vector.specs.Vectors.{vector_of};
ghost use Rattle.vector.specs.Memory.{numbers_at};
ghost use Rattle.vector.specs.Promises.{Within, Reads, ReadsShort, Derivable, Derives, PairTold, Finds, vector_stored, item_stored};

use number::limits::{BYTES, RULES};

pub mod layout;

use layout::{BYTES_AT, NOTHING_CELL, PARENTS_AT, SHEETS_AT, VECTORS_AT};

// A vector: the numbers of its 32 terms, one for each rule. Two are equal where they have the same number at every place.
#[derive(Clone, Copy, PartialEq, Eq)]
pub struct Vector {
    pub at: [usize; RULES],
}

// A derived vector with the pool's next free cell.
#[derive(Clone, Copy)]
pub struct Derived {
    pub top: usize,
    pub vector: Vector,
}

// The vector of item `k`.
pub fn load(cells: &[u64], k: usize) -> Vector
    requires { Within cells.now k }
    ensures { result.at ≡ numbers_at cells.now k }
{
    let mut at = [0usize; RULES];
    for i in 0..RULES {
        at[i] = cells[VECTORS_AT + k * RULES + i] as usize;
    }
    Vector { at }
}

// Stores the vector of item `k`.
fn store(cells: &mut [u64], k: usize, v: Vector)
    requires { Within cells.old k }
    ensures { cells.new ≡ vector_stored cells.old k v.at }
{
    for i in 0..RULES {
        cells[VECTORS_AT + k * RULES + i] = v.at[i] as u64;
    }
}

// The label of a vector's part, the rules from `from` up to `to`: 1 plus the first of them whose term matches the empty text, or 0.
// Kept as a number: it is what stands in a table, where 0 is no rule.
pub fn label_of(cells: &[u64], v: Vector, from: usize, to: usize) -> usize
    requires reads { Reads cells.now to v.at }
    requires from_le_to { from ≤ to }
    ensures { result ≡ label (drop from (vector_of cells.now to v.at)) }
{
    for i in from..to {
        if term::nullable(cells, v.at[i]) {
            return i - from + 1;
        }
    }
    0
}

// The next byte after `byte` at which a term of the vector can change its derivative, or the number of bytes if there is none.
pub fn edge_of(cells: &[u64], v: Vector, n: usize, byte: usize) -> usize
    requires reads_short { ReadsShort cells.now n v.at }
    requires byte_le_last_byte { byte ≤ last_byte }
    ensures { result ≡ next_edge_all byte (vector_of cells.now n v.at) }
{
    let mut least = BYTES;
    for i in 0..n {
        least = least.min(derivative::next_edge(cells, v.at[i], byte));
    }
    least
}

// The vector after `byte`: each of the first `n` terms derived above the pool and put into it; None where one is too long, and the pool is given up.
pub fn derive_vector(
    index: &mut [u16],
    cells: &mut [u64],
    top: usize,
    v: Vector,
    n: usize,
    byte: usize,
) -> Option<Derived>
    requires { Derivable index.old cells.old top n v.at }
    ensures { Derives cells.old top n v.at byte index.new cells.new result }
{
    let mut at = [NOTHING_CELL; RULES];
    let mut next = top;
    for i in 0..n {
        let made = derivative::derive(cells, next, v.at[i], byte)?;
        let placed = pooling::put_term(index, cells, next, made.root);
        at[i] = placed.root;
        next = placed.top;
    }
    Some(Derived {
        top: next,
        vector: Vector { at },
    })
}

// Whether item `k` has this sheet state and this vector. Most items differ at one of the first places, so the numbers are compared where they
// lie, up to the first that differs: `==` of two vectors looks at all of them, and a build can take half as long again by it.
fn is_pair(cells: &[u64], k: usize, sheet: usize, v: Vector) -> bool
    requires { Within cells.now k }
    ensures { PairTold cells.now k sheet v.at result }
{
    if cells[SHEETS_AT + k] as usize != sheet {
        return false;
    }
    for place in 0..RULES {
        if cells[VECTORS_AT + k * RULES + place] as usize != v.at[place] {
            return false;
        }
    }
    true
}

// The first of the items below `count` with this sheet state and this vector.
pub fn find(cells: &[u64], count: usize, sheet: usize, v: Vector) -> Option<usize>
    requires work_length_in_bounds { work_length ≤ length cells.now }
    requires count_le { count ≤ items }
    ensures { Finds cells.now count sheet v.at result }
{
    for k in 0..count {
        if is_pair(cells, k, sheet, v) {
            return Some(k);
        }
    }
    None
}

// Stores item `k`: its vector, its sheet state, the item it was found from and the byte.
pub fn store_item(cells: &mut [u64], k: usize, v: Vector, sheet: usize, parent: usize, byte: usize)
    requires { Within cells.old k }
    ensures { cells.new ≡ item_stored cells.old k v.at sheet parent byte }
{
    store(cells, k, v);
    cells[SHEETS_AT + k] = sheet as u64;
    cells[PARENTS_AT + k] = parent as u64;
    cells[BYTES_AT + k] = byte as u64;
}

// Makes every cell of the work area 0.
pub fn clear(cells: &mut [u64])
    ensures { cells.new ≡ replicate (length cells.old) 0 }
{
    cells.fill(0);
}
