// An answer of a call as C gets it: a code, and four numbers in lent cells, as specs/Packed.antt says.
// One function for each kind of answer; the calls for C, in the crate library, answer by them.
#![tactic(auto)]

ghost use Rattle.std.specs.Prelude.{◌≡◌};
ghost use Rattle.number.specs.Refused.{number, place};
ghost use Rattle.book.specs.Calls.{checked, kind_told};
ghost use Rattle.table.specs.Calls.{counted};
ghost use Rattle.cutting.specs.Calls.{ended};
ghost use Rattle.verdict.specs.Calls.{compared};
ghost use Rattle.packed.specs.Packed.{left, four, packed, told_count, told_size, told_kind, told_report, told_compared};

use cutting::Ended;
use number::Refusal;
use verdict::Difference;

// The cells of an answer.
pub const CELLS: usize = 4;

// The code of a call that gave its answer.
// Kept as numbers, here and below, since C reads them in its cells (include/lubiranguk.h).
const GIVEN: usize = 0;

// Whether there is such a rule.
const NO_RULE: usize = 0;

const KIND: usize = 1;

// How a cut ended.
const DONE: usize = 0;

const STUCK: usize = 1;

const FULL: usize = 2;

// How a comparison ended.
const SAME: usize = 0;

const DIFFERS: usize = 1;

// The four numbers of an answer go into its cells; the code says that it was given.
pub fn give(answer: &mut [usize; CELLS], numbers: [usize; CELLS]) -> usize
    ensures { left result answer.new ≡ left 0 numbers }
{
    *answer = numbers;
    GIVEN
}

// A refusal's place goes into the cells, and its number is the code.
pub fn refuse(answer: &mut [usize; CELLS], r: Refusal) -> usize
    ensures { left result answer.new ≡ left (number r) (four (place r) 0 0 0) }
{
    *answer = [number::refusal_place(r), 0, 0, 0];
    number::refusal_number(r)
}

// An answer of each kind as four numbers, or its refusal.
// Kept as a function for each kind: a trait of what is told would have an impl with the same `match` for each, and the trait's laws besides.
pub fn tell_size(answer: &mut [usize; CELLS], found: Result<(usize, usize), Refusal>) -> usize
    ensures { left result answer.new ≡ packed told_size (checked found) }
{
    match found {
        Ok((rules, nodes)) => give(answer, [rules, nodes, 0, 0]),
        Err(r) => refuse(answer, r),
    }
}

pub fn tell_kind(answer: &mut [usize; CELLS], found: Result<Option<usize>, Refusal>) -> usize
    ensures { left result answer.new ≡ packed told_kind (kind_told found) }
{
    match found {
        Ok(Some(kind)) => give(answer, [KIND, kind, 0, 0]),
        Ok(None) => give(answer, [NO_RULE, 0, 0, 0]),
        Err(r) => refuse(answer, r),
    }
}

pub fn tell_count(answer: &mut [usize; CELLS], found: Result<usize, Refusal>) -> usize
    ensures { left result answer.new ≡ packed told_count (counted found) }
{
    match found {
        Ok(count) => give(answer, [count, 0, 0, 0]),
        Err(r) => refuse(answer, r),
    }
}

pub fn tell_end(answer: &mut [usize; CELLS], found: Result<Ended, Refusal>) -> usize
    ensures { left result answer.new ≡ packed told_report (ended found) }
{
    match found {
        Ok(Ended::Done(words)) => give(answer, [DONE, words, 0, 0]),
        Ok(Ended::Stuck(words, at)) => give(answer, [STUCK, words, at, 0]),
        Ok(Ended::Full(words, at)) => give(answer, [FULL, words, at, 0]),
        Err(r) => refuse(answer, r),
    }
}

pub fn tell_compared(
    answer: &mut [usize; CELLS],
    found: Result<Option<Difference>, Refusal>,
) -> usize
    ensures { left result answer.new ≡ packed told_compared (compared found) }
{
    match found {
        Ok(Some(told)) => give(answer, [DIFFERS, told.len, told.by_book, told.by_table]),
        Ok(None) => give(answer, [SAME, 0, 0, 0]),
        Err(r) => refuse(answer, r),
    }
}
