// Cutting a text into words by a table in lent memory.
// Words go into a lent list of records or into plain cells; what a cut answers and leaves is specs/Calls.antt's and specs/Flat.antt's.
#![tactic(auto)]

ghost use Rattle.std.specs.Prelude.{◌≡◌, ◌<◌, ◌≤◌, ◌+◌, ◌*◌, ◌-◌, ◌/◌, ℕ, List, length, drop, set};
ghost use Rattle.number.specs.Limits.{bytes};
ghost use Rattle.meaning.specs.Words.{better};
ghost use Rattle.meaning.specs.Words.Found.{Stuck};
ghost use Rattle.table.specs.Table.{lent};
ghost use Rattle.cutting.specs.declared.Word.{Word};
ghost use Rattle.cutting.specs.Steps.{first_by};
ghost use Rattle.cutting.specs.Flat.{record_cells};
ghost use Rattle.cutting.specs.Put.{put_cells};
ghost use Rattle.cutting.specs.Dead.{dead, dead_of};
ghost use Rattle.cutting.specs.Walk.{Walkable, Ready, Ran, next};
ghost use Rattle.cutting.specs.Promises.{CutsInto, CutsWords, CutsSlots};

use number::Refusal;
use number::limits::BYTES;

// The cells of a record, where words are laid into plain numbers: start, length, rule.
// Kept as cells, since C lends them so; `cut` has records.
pub const RECORD_CELLS: usize = 3;

// A word: where it starts, how many bytes it has, and its rule.
#[derive(Clone, Copy)]
pub struct Word {
    pub start: usize,
    pub len: usize,
    pub rule: usize,
}

// How a cut ended: with so many words; stuck or full, with so many words and the place.
#[derive(Clone, Copy, PartialEq, Eq)]
pub enum Ended {
    Done(usize),
    Stuck(usize, usize),
    Full(usize, usize),
}

// Where the bytes that stay in a state end, and the state that the byte there leads to. It is the dead one where the text ends, since no label
// follows either way, and one comparison tells both.
#[derive(Clone, Copy)]
struct Run {
    pub end: usize,
    pub then: usize,
}

// A state has no label, and no byte leads out of it. Where the first target leads elsewhere it tells that alone; where it leads back, all
// others are compared with it, many at a time.
fn is_dead(labels: &[u8], targets: &[u8], state: usize) -> bool
    requires { (state < length labels.now) × (state * bytes + bytes ≤ length targets.now) }
    ensures { result ≡ dead labels.now targets.now state }
{
    if labels[state] != 0 {
        return false;
    }
    let row = state * BYTES;
    let first = targets[row];
    if first as usize != state {
        return false;
    }
    let mut stays = true;
    for c in 0..BYTES {
        if targets[row + c] != first {
            stays = false;
        }
    }
    stays
}

// The first dead state, or the count of states where there is none.
// Kept as a number, since the walk compares each state with it: an Option would be turned back into this number before the first word.
pub fn dead_state(count: usize, labels: &[u8], targets: &[u8]) -> usize
    requires { Walkable count labels.now targets.now }
    ensures { result ≡ dead_of count labels.now targets.now }
{
    for s in 0..count {
        if is_dead(labels, targets, s) {
            return s;
        }
    }
    count
}

// The word that ends before `best`, if a label was met. Label 0 is the table's own word for no rule.
fn best_word(at: usize, best: usize, label: usize) -> Option<(usize, usize)>
    requires { at ≤ best }
    ensures { next result ≡ better (best - at) label Stuck }
{
    if label == 0 {
        return None;
    }
    Some((best - at, label - 1))
}

// Goes over the bytes that stay in a state. Each target is compared with the state at hand, so that no load waits for the one before.
fn run_from(targets: &[u8], text: &[u8], state: usize, from: usize, dead: usize) -> Run
    requires { (state * bytes + bytes ≤ length targets.now) × (from ≤ length text.now) }
    ensures { Ran targets.now text.now state from dead result }
{
    let row = state * BYTES;
    for i in from..text.len() {
        let then = targets[row + text[i] as usize] as usize;
        if then != state {
            return Run { end: i, then: then };
        }
    }
    Run {
        end: text.len(),
        then: dead,
    }
}

// Walks the text once from a place on, run by run, and keeps the last labelled place.
// No label can follow the dead state: the walk stops there, so that a word costs its own length and what is read past it.
// A word that ends in a labelled state is told by a branch of its own, so that the next one need not wait for what was kept.
// Whoever calls it has had the table tested by `table::well_formed` and its dead state found by `dead_state`, once for all words.
pub fn next_word(
    count: usize,
    labels: &[u8],
    targets: &[u8],
    text: &[u8],
    at: usize,
    dead: usize,
) -> Option<(usize, usize)>
    requires { Ready count labels.now targets.now dead }
    ensures { next result ≡ first_by (lent count labels.now targets.now) (drop at text.now) }
{
    if text.len() <= at {
        return None;
    }
    let mut state = targets[text[at] as usize] as usize;
    if state == dead {
        return None;
    }
    let mut end = at;
    let mut best = at;
    let mut label: usize = 0;
    // Kept as a `loop`: a turn goes on by a whole run of bytes, and no index is counted.
    loop {
        let ran = run_from(targets, text, state, end + 1, dead);
        end = ran.end;
        let l = labels[state] as usize;
        if ran.then == dead {
            if l == 0 {
                return best_word(at, best, label);
            }
            return best_word(at, end, l);
        }
        if l != 0 {
            best = end;
            label = l;
        }
        state = ran.then;
    }
}

// A word into a list at a place.
fn put_word(words: &mut [Word], at: usize, w: Word)
    requires { at < length words.old }
    ensures { words.new ≡ set words.old at w }
{
    words[at] = w;
}

// What words are put into: `room` is how many a slice of these takes, and `put` the slice with one more word in it, under its number.
trait Slot {
    ghost room: { List Self → ℕ };

    ghost put: { List Self → ℕ → Word → List Self };

    fn room(slots: &[Self]) -> usize
        ensures { result ≡ room slots.now };

    fn put(slots: &mut [Self], k: usize, word: Word)
        requires { k < room slots.old }
        ensures put { slots.new ≡ put slots.old k word }
        ensures room { room slots.new ≡ room slots.old };
}

impl Slot for Word {
    ghost room = { λ words. length words };

    ghost put = { λ words k w. set words k w };

    fn room(words: &[Word]) -> usize {
        words.len()
    }

    fn put(words: &mut [Word], k: usize, word: Word) {
        put_word(words, k, word);
    }
}

// Three cells for each word.
impl Slot for usize {
    ghost room = { λ cells. length cells / record_cells };

    ghost put = { put_cells };

    fn room(cells: &[usize]) -> usize {
        cells.len() / RECORD_CELLS
    }

    fn put(cells: &mut [usize], k: usize, word: Word) {
        let cell = RECORD_CELLS * k;
        cells[cell] = word.start;
        cells[cell + 1] = word.len;
        cells[cell + 2] = word.rule;
    }
}

// The words from a place on are put into slots. The lent table is tested, and its dead state found, once for all of them.
fn cut_into<S: Slot>(
    count: usize,
    labels: &[u8],
    targets: &[u8],
    text: &[u8],
    at: usize,
    slots: &mut [S],
) -> Result<Ended, Refusal>
    ensures { CutsSlots S.room S.put count labels.now targets.now text.now at slots.old slots.new result }
{
    if !table::well_formed(count, labels, targets) {
        return Err(Refusal::Loaded);
    }
    let dead = dead_state(count, labels, targets);
    let room = S::room(slots);
    let mut at = at;
    let mut k: usize = 0;
    // Kept as a `while`: a turn goes on by the length of the word.
    while at < text.len() {
        let Some((len, rule)) = next_word(count, labels, targets, text, at, dead) else {
            return Ok(Ended::Stuck(k, at));
        };
        if room <= k {
            return Ok(Ended::Full(k, at));
        }
        let word = Word {
            start: at,
            len,
            rule,
        };
        S::put(slots, k, word);
        k += 1;
        at += len;
    }
    Ok(Ended::Done(k))
}

// The words from a place on go into cells, three for each.
pub fn cut_from(
    count: usize,
    labels: &[u8],
    targets: &[u8],
    text: &[u8],
    at: usize,
    records: &mut [usize],
) -> Result<Ended, Refusal>
    ensures { CutsInto count labels.now targets.now text.now at records.old records.new result }
{
    cut_into(count, labels, targets, text, at, records)
}

// The words of the text go into the list.
pub fn cut(
    count: usize,
    labels: &[u8],
    targets: &[u8],
    text: &[u8],
    words: &mut [Word],
) -> Result<Ended, Refusal>
    ensures { CutsWords count labels.now targets.now text.now words.old words.new result }
{
    cut_into(count, labels, targets, text, 0, words)
}
