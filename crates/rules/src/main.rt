// Reads the typed rules of words.rules and writes their book to words.book; it prints only what is refused, and on standard error why.
// All of it is done in the crate saved; here it gets the name of its file and the output for people.
#![tactic(auto)]

use number::limits::RULES_FILE;

fn main(rt: HostRuntime) {
    let mut text = [0u8; RULES_FILE + 1];
    let end = saved::read_rules(&rt, b"words.rules", &mut text);
    saved::make_book(&rt, &text[0..end], &mut rt.stderr());
}
