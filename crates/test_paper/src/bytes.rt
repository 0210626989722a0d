// Calls that take bytes alone: numbers and fields, books and kinds of rules.
// What is called answers numbers or a refusal.
use crate::say;
use number::{Grouped, Refusal};

fn tell_taken(rt: &HostRuntime, got: Result<(usize, usize), Refusal>) {
    match got {
        Ok((value, next)) => {
            say::counted(rt, value, b" then ");
            say::count(rt, next);
        }
        Err(r) => say::refusal(rt, r),
    }
}

pub(crate) fn tell_number(rt: &HostRuntime, read: Grouped) {
    let got = read.taken;
    let groups = read.groups;
    tell_taken(rt, got);
    say::text(rt, b", groups ");
    say::counted(rt, groups, b"\n");
}

pub(crate) fn tell_field(rt: &HostRuntime, got: Result<(usize, usize), Refusal>) {
    tell_taken(rt, got);
    say::text(rt, b"\n");
}

pub(crate) fn tell_book(rt: &HostRuntime, bytes: &[u8]) {
    match checking::check_book(bytes) {
        Ok((rules, nodes)) => {
            say::counted(rt, rules, b" rules ");
            say::counted(rt, nodes, b" nodes\n");
        }
        Err(r) => say::refused(rt, r),
    }
}

pub(crate) fn tell_kind(rt: &HostRuntime, bytes: &[u8], rule: usize) {
    match places::rule_kind(bytes, rule) {
        Ok(Some(kind)) => say::counted(rt, kind, b"\n"),
        Ok(None) => say::text(rt, b"no rule\n"),
        Err(r) => say::refused(rt, r),
    }
}
