// Rule books: a node, where a rule stands, and the nodes of a rule read one by one.
// Readers take any bytes and promise the paper's answer for each; books are checked in the crate checking, their rules found in places.
#![tactic(auto)]

ghost use Rattle.std.specs.Prelude.{◌≡◌};
ghost use Rattle.book.specs.Book.{allowed as allowed_of, takes as takes_of};
ghost use Rattle.book.specs.Reads.{read_range, read_either, read_after, read_node};
ghost use Rattle.book.specs.Answers.{node_read, refusal_of};

use number::limits::{
    CODE_ALT, CODE_AND, CODE_CAT, CODE_EITHER, CODE_EMPTY, CODE_NOT, CODE_NOTHING, CODE_RANGE,
    CODE_STAR, FIRST_LETTER, FIRST_VERSION, LAST_BYTE, LAST_LETTER,
};
use number::{Refusal, read_field, read_number};

// A node of a rule, in postfix order: one of nine kinds, of which books of version 1 have all but And and Not.
#[derive(Clone, Copy, PartialEq, Eq)]
pub enum Node {
    Nothing,
    Empty,
    Range(usize, usize),
    Cat,
    Alt,
    Star,
    Either(usize),
    And,
    Not,
}

// Its book's version, a rule's kind, how many nodes it has, and the place of the first.
#[derive(Clone, Copy, PartialEq, Eq)]
pub struct RulePlace {
    pub version: usize,
    pub kind: usize,
    pub nodes: usize,
    pub at: usize,
}

// The node at a place of a book of that version, and the place after it; any place will do, since whatever stands there is tested.
#[tactic(auto, unfolding(crate::specs::Reads::read_node))]
pub fn read_node(book: &[u8], at: usize, version: usize) -> Result<(Node, usize), Refusal>
    ensures { node_read result ≡ read_node book.now version at }
{
    // Document 01 names this form: the number reader's answer is taken apart by `let .. else`. Those who read fields go by `?`.
    let number = read_number(book, at).taken;
    let Ok((code, next)) = number else {
        return Err(refusal_of(number));
    };
    read_after(book, next, version, at, code)
}

// How many terms a node takes off the stack; each leaves one.
pub fn takes(n: Node) -> usize
    ensures { result ≡ takes_of n }
{
    match n {
        Node::Nothing | Node::Empty | Node::Range(_, _) | Node::Either(_) => 0,
        Node::Star | Node::Not => 1,
        Node::Cat | Node::Alt | Node::And => 2,
    }
}

// The refusal of a number that was not read; no caller has one that was. Kept as a function that answers for every input, since docs/PROMISES.md
// names it; an `unwrap_err` in its place would ask for a refusal.
pub fn refusal_of(t: Result<(usize, usize), Refusal>) -> Refusal
    ensures { result ≡ refusal_of t }
{
    match t {
        Ok(_) => Refusal::Input,
        Err(r) => r,
    }
}

// The bounds of a range: the second's field begins at the first, which refuses hi below lo at hi's own place.
#[tactic(auto, unfolding(crate::specs::Reads::read_range))]
fn read_range(book: &[u8], at: usize) -> Result<(Node, usize), Refusal>
    ensures { node_read result ≡ read_range book.now at }
{
    let (lo, next) = read_field(book, at, 0, LAST_BYTE)?;
    let (hi, after) = read_field(book, next, lo, LAST_BYTE)?;
    Ok((Node::Range(lo, hi), after))
}

// The letter of an Either.
#[tactic(auto, unfolding(crate::specs::Reads::read_either))]
fn read_either(book: &[u8], at: usize) -> Result<(Node, usize), Refusal>
    ensures { node_read result ≡ read_either book.now at }
{
    let (letter, after) = read_field(book, at, FIRST_LETTER, LAST_LETTER)?;
    Ok((Node::Either(letter), after))
}

// Whether books of that version have that code: Either's is the last of version 1, Not's of version 2.
#[tactic(auto, using(crate::specs::VersionLaws::first_allowed, crate::specs::VersionLaws::later_allowed))]
fn allowed(version: usize, code: usize) -> bool
    ensures { result ≡ allowed_of version code }
{
    if version == FIRST_VERSION {
        return code <= CODE_EITHER;
    }
    code <= CODE_NOT
}

// What stands after each code, if the version has it; a number that is none of its codes is refused where it starts.
#[tactic(auto, unfolding(crate::specs::Reads::read_after))]
fn read_after(
    book: &[u8],
    at: usize,
    version: usize,
    start: usize,
    code: usize,
) -> Result<(Node, usize), Refusal>
    ensures { node_read result ≡ read_after book.now version start code at }
{
    if !allowed(version, code) {
        return Err(Refusal::Range(start));
    }
    match code {
        CODE_NOTHING => Ok((Node::Nothing, at)),
        CODE_EMPTY => Ok((Node::Empty, at)),
        CODE_RANGE => read_range(book, at),
        CODE_CAT => Ok((Node::Cat, at)),
        CODE_ALT => Ok((Node::Alt, at)),
        CODE_STAR => Ok((Node::Star, at)),
        CODE_EITHER => read_either(book, at),
        CODE_AND => Ok((Node::And, at)),
        CODE_NOT => Ok((Node::Not, at)),
        _ => Err(Refusal::Range(start)),
    }
}
