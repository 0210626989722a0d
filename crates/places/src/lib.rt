// The rules of a book found by their number: a rule's kind, and where its nodes stand.
// Both calls check the book first, take any bytes and any number, and promise an answer for each.
#![tactic(auto)]

ghost use Rattle.std.specs.Prelude.{◌≡◌};
ghost use Rattle.book.specs.Answers.{place_read, read_head, find_rule, find_from, place_of};
ghost use Rattle.book.specs.Promises.{TellsKind};

use book::RulePlace;
use checking::{check_book, check_nodes};
use number::limits::{FIRST_VERSION, KINDS, LAST_VERSION, NODES, RULES};
use number::{Refusal, read_field};

// The kind of a rule, or none where the book has no such rule. Past the check the rule is found; a refusal would still be told with its place.
pub fn rule_kind(book: &[u8], rule: usize) -> Result<Option<usize>, Refusal>
    ensures { TellsKind book.now rule result }
{
    let (rules, _) = check_book(book)?;
    if rules <= rule {
        return Ok(None);
    }
    let place = find_from(book, rule)?;
    Ok(Some(place.kind))
}

// Where a rule's nodes begin, for the layers that read them one by one; none where the book has no such rule or is refused.
pub fn rule_place(book: &[u8], rule: usize) -> Option<RulePlace>
    ensures { result ≡ place_of book.now rule }
{
    let (rules, _) = check_book(book).ok()?;
    if rules <= rule {
        return None;
    }
    find_from(book, rule).ok()
}

// The kind and the node count of the rule at a place of a book of that version, and where its nodes begin.
#[tactic(auto, unfolding(book::specs::Answers::read_head))]
fn read_head(book: &[u8], at: usize, version: usize) -> Result<RulePlace, Refusal>
    ensures { place_read result ≡ read_head book.now version at }
{
    let (kind, at_count) = read_field(book, at, 0, KINDS)?;
    let (nodes, first) = read_field(book, at_count, 1, NODES)?;
    Ok(RulePlace {
        version,
        kind,
        nodes,
        at: first,
    })
}

// The rule that stands so many rules further on.
fn find_rule(book: &[u8], at: usize, version: usize, left: usize) -> Result<RulePlace, Refusal>
    ensures { place_read result ≡ find_rule book.now version left at }
{
    let mut place = at;
    for _ in 0..left {
        let head = read_head(book, place, version)?;
        let (_, next) = check_nodes(book, head.at, version, head.nodes)?;
        place = next;
    }
    read_head(book, place, version)
}

// A rule of a whole book, by its number.
// Kept apart from checking::check_book, which reads the same two fields first: a function of both would be no shorter than its two lines.
#[tactic(auto, unfolding(book::specs::Answers::find_from))]
fn find_from(book: &[u8], rule: usize) -> Result<RulePlace, Refusal>
    ensures { place_read result ≡ find_from book.now rule 0 }
{
    let (version, at_rules) = read_field(book, 0, FIRST_VERSION, LAST_VERSION)?;
    let (_, first) = read_field(book, at_rules, 1, RULES)?;
    find_rule(book, first, version, rule)
}
