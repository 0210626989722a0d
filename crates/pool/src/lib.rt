// The pool of terms in the work area, and its index: a node is looked up before it is put, so that equal terms have equal numbers.
// A node is found along the chain of its hash.
#![tactic(auto)]

ghost use Rattle.std.specs.Prelude.{◌≡◌, ◌+◌, ◌≤◌, length};
ghost use Rattle.term.specs.Cells.{term, grow, Below};
ghost use Rattle.term.specs.Nodes.{Fields};
ghost use Rattle.walk.specs.Parts.{with_term};
ghost use Rattle.pool.specs.Pooled.{terms_of};
ghost use Rattle.pool.specs.Index.{hash_of, Indexed, Open, After};
ghost use Rattle.pool.specs.Steps.{Looked};

use number::limits::{POOL, RULES, TREE_NODES};
use term::{Built, Term, first_of, hold, kind_of, link_at, node_at, second_of};

// The cells of a pool: what may be held, and one vector more that is not held yet.
pub const POOL_CELLS: usize = POOL + RULES * TREE_NODES;

// The length of its index: a head for each hash. The links of the chains stand in the cells.
// Kept as an index of our own in lent memory: a map of the library takes its memory from a heap.
pub const HEADS: usize = POOL;

// The hash of a node.
// `Fields` stays a clause: the fact has one name, and nodes are made by `rebuilt` of any numbers.
fn hash_of(node: Term) -> usize
    requires { Fields node }
    ensures { result ≡ hash_of node }
{
    (kind_of(node) + 7 * first_of(node) + 61 * second_of(node)) % HEADS
}

// The cell below `top` that holds this node, looked for along the chain of its hash.
fn find_cell(index: &[u16], cells: &[u64], top: usize, node: Term) -> Option<usize>
    requires indexed { Indexed index.now cells.now top }
    requires top_in_bounds { top ≤ length cells.now }
    requires fields { Fields node }
    ensures { Looked cells.now top node result }
{
    let mut next = index[hash_of(node)] as usize;
    // Kept as a `while`: it follows the links of a chain to the 0 at its end, in lent cells of 16 bits; no index is counted.
    while 0 < next {
        let at = next - 1;
        if node_at(cells, at) == node {
            return Some(at);
        }
        next = link_at(cells, at);
    }
    None
}

// Puts a node whose children stand in the pool into the pool: in the cell that holds it already, or in a new one at the front of its chain.
// Kept as index, cells and top, and not as one struct, since what builds terms takes `cells` alone: it would be taken apart at each such call.
pub fn put_node(index: &mut [u16], cells: &mut [u64], top: usize, node: Term) -> Built
    requires fact { Open index.old cells.old top 1 }
    requires below { Below node top }
    ensures { After cells.old top (with_term (terms_of cells.old top) (grow node (term cells.old)))
        index.new cells.new result.root result.top (grow node (term cells.old)) (top + 1) }
{
    if let Some(root) = find_cell(index, cells, top, node) {
        return Built { root, top };
    }
    let hash = hash_of(node);
    let link = index[hash] as usize;
    let next = hold(cells, top, node, link);
    index[hash] = next as u16;
    Built {
        root: top,
        top: next,
    }
}
