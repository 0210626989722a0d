// One pair of a table's state and a vector, as an item of the walk has it: the table's state, and the number told for the pair.
// An entry stands in front of the table, so that only non-empty texts count: item 0 is the entry and no pair.
#![tactic(auto)]

ghost use Rattle.std.specs.Prelude.{◌≡◌};
ghost use Rattle.vector.specs.Memory.{items_of};
ghost use Rattle.verdict.specs.Compare.{state_of, number_told};
ghost use Rattle.pair.specs.Promises.{Numbered};

// The table's state behind an item's number for it: 0 is the entry, which goes on as state 0 does, and q + 1 is state q.
// Kept as a number: a cell of the work area holds it, and the definition `state_of` says what each is.
pub fn state_of(q: usize) -> usize
    ensures { result ≡ state_of q }
{
    q.saturating_sub(1)
}

// The number told for item `i`: 0 for the start that was met again, and one less than its place for items behind it.
pub fn number_told(cells: &[u64], n: usize, count: usize, i: usize) -> usize
    requires { Numbered cells.now n count i }
    ensures { result ≡ number_told (items_of cells.now n count) i }
{
    match vector::find(cells, count, 1, vector::load(cells, 0)) {
        Some(back) if back < i => i - 1,
        Some(back) if back == i => 0,
        _ => i,
    }
}
