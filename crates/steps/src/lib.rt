// One step of the walk over vectors in the work area, for building and comparing: from an item by a byte to a held item or a new one.
// Its tests stand in the order of the refusals: Long; for a new item the limit of items, and then the pool.
#![tactic(auto)]

ghost use Rattle.walk.specs.Walk.{step};
ghost use Rattle.pool.specs.Index.{Indexed};
ghost use Rattle.vector.specs.Memory.{held_of, First};
ghost use Rattle.steps.specs.Step.{way_of, Ready, Steps, Follows, Begins, Keeps};

use number::Refusal;
use number::limits::POOL;
use vector::{Vector, derive_vector, find, load, store_item};

// What the work area holds: the pool's next free cell, and how many items there are.
#[derive(Clone, Copy)]
pub struct Extent {
    pub top: usize,
    pub count: usize,
}

// What a step comes to: what is held then, and the number reached.
#[derive(Clone, Copy)]
pub struct Reached {
    pub held: Extent,
    pub number: usize,
}

// The step from item `i`, whose number is told as `place`, by a byte, where the sheet goes to state `sheet`;
// one item more than `limit` is refused with `full`.
pub fn step(
    index: &mut [u16],
    cells: &mut [u64],
    held: Extent,
    n: usize,
    i: usize,
    place: usize,
    byte: usize,
    sheet: usize,
    limit: usize,
    full: Refusal,
) -> Result<Reached, Refusal>
    requires ready { Ready cells.old n held.top held.count limit i byte }
    requires indexed { Indexed index.old cells.old held.top }
    ensures steps { Steps cells.old n held.count limit cells.new
        (step (way_of sheet limit place full) i (held_of cells.old n held.top held.count) byte) result }
    ensures follows { Follows index.new cells.new result }
{
    let v = load(cells, i);
    let Some(derived) = derive_vector(index, cells, held.top, v, n, byte) else {
        return Err(Refusal::Long(place));
    };
    if let Some(number) = find(cells, held.count, sheet, derived.vector) {
        return Ok(Reached { held, number });
    }
    if limit <= held.count {
        return Err(full);
    }
    if POOL < derived.top {
        return Err(Refusal::Pool(place));
    }
    store_item(cells, held.count, derived.vector, sheet, i, byte);
    Ok(Reached {
        held: Extent {
            top: derived.top,
            count: held.count + 1,
        },
        number: held.count,
    })
}

// Vector 0, which stands in the pool already, becomes item 0, beside state 0 of the sheet.
pub fn hold_first(cells: &mut [u64], top: usize, n: usize, v: Vector) -> Result<Reached, Refusal>
    requires { First cells.old n top v.at }
    ensures begins { Begins cells.old n v.at cells.new result }
    ensures keeps { Keeps cells.old top cells.new result }
{
    if POOL < top {
        return Err(Refusal::Pool(0));
    }
    store_item(cells, 0, v, 0, 0, 0);
    Ok(Reached {
        held: Extent { top, count: 1 },
        number: 0,
    })
}
