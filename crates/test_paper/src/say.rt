// Printing, a line a case: numbers and what they count.
// A refusal is its number and its place.
use number::Refusal;

pub(crate) fn text(rt: &HostRuntime, bytes: &[u8]) {
    files::print(rt, bytes);
}

pub(crate) fn count(rt: &HostRuntime, n: usize) {
    let _ = print!(rt; "{n}");
}

// A number and what it counts, which ends the line or goes on.
pub(crate) fn counted(rt: &HostRuntime, n: usize, what: &[u8]) {
    count(rt, n);
    text(rt, what);
}

// Two numbers and what they tell.
pub(crate) fn placed(rt: &HostRuntime, what: &[u8], n: usize, place: usize) {
    text(rt, what);
    counted(rt, n, b" ");
    count(rt, place);
}

pub(crate) fn refusal(rt: &HostRuntime, r: Refusal) {
    placed(
        rt,
        b"refused ",
        number::refusal_number(r),
        number::refusal_place(r),
    );
}

pub(crate) fn refused(rt: &HostRuntime, r: Refusal) {
    refusal(rt, r);
    text(rt, b"\n");
}
