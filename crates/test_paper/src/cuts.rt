// Cutting by tables: words longest first, stuck and full at their places, cells past the words untouched.
// A cut is into cells, from a place on, or by document 01's own call into a lent list of word records.
ghost use Rattle.std.specs.Prelude.{◌≤◌};

use crate::say;
use cutting::{Ended, Word};
use number::Refusal;

// More cells than a case has, and what they hold before.
const CELLS: usize = 300;

const FILL: usize = 9;

// The records of a list.
const ROOM: usize = 2;

// At most so many cells are printed.
const SHOWN: usize = 6;

fn cell(rt: &HostRuntime, records: &[usize], i: usize) {
    if i < records.len() {
        say::text(rt, b" ");
        say::count(rt, records[i]);
    }
}

fn cells(rt: &HostRuntime, records: &[usize]) {
    say::text(rt, b", cells");
    for i in 0..SHOWN {
        cell(rt, records, i);
    }
    say::text(rt, b"\n");
}

fn tell(rt: &HostRuntime, ended: Result<Ended, Refusal>, records: &[usize]) {
    match ended {
        Ok(Ended::Done(count)) => {
            say::text(rt, b"done ");
            say::count(rt, count);
        }
        Ok(Ended::Stuck(count, place)) => say::placed(rt, b"stuck ", count, place),
        Ok(Ended::Full(count, place)) => say::placed(rt, b"full ", count, place),
        Err(r) => say::refusal(rt, r),
    }
    cells(rt, records);
}

// Into so many cells.
pub(crate) fn into_cells<'a>(
    rt: &HostRuntime,
    count: usize,
    labels: &'a [u8],
    targets: &'a [u8],
    text: &'a [u8],
    at: usize,
    most: usize,
) {
    let mut records = [FILL; CELLS];
    if CELLS < most {
        return;
    }
    let lent = &mut records[0..most];
    let ended = cutting::cut_from(count, labels, targets, text, at, lent);
    tell(rt, ended, lent);
}

// Both records are printed, whatever was lent.
fn tell_records(rt: &HostRuntime, ended: Result<Ended, Refusal>, words: [Word; ROOM]) {
    let first = words[0];
    let second = words[1];
    tell(
        rt,
        ended,
        &[
            first.start,
            first.len,
            first.rule,
            second.start,
            second.len,
            second.rule,
        ],
    );
}

// Into the first records of a list. Structs are lent here, so the proof is by hand.
fn cut_records<'a>(
    rt: &HostRuntime,
    count: usize,
    labels: &'a [u8],
    targets: &'a [u8],
    text: &'a [u8],
    room: usize,
    empty: Word,
)
    requires { room ≤ 2 }
{
    let mut words = [empty; ROOM];
    tell_records(
        rt,
        cutting::cut(count, labels, targets, text, &mut words[..room]),
        words,
    );
}

// Into so many records.
pub(crate) fn into_records<'a>(
    rt: &HostRuntime,
    count: usize,
    labels: &'a [u8],
    targets: &'a [u8],
    text: &'a [u8],
    most: usize,
) {
    if ROOM < most {
        return;
    }
    let empty = Word {
        start: FILL,
        len: FILL,
        rule: FILL,
    };
    cut_records(rt, count, labels, targets, text, most, empty);
}
