// Rule books checked whole, and refused exactly where document 01 says.
// The call takes any bytes and promises the paper's answer for each; an inner function says what it asks, so that its sum fits.
#![tactic(auto)]

ghost use Rattle.std.specs.Prelude.{◌≡◌, ◌≤◌, length};
ghost use Rattle.number.specs.Limits.{nodes};
ghost use Rattle.number.specs.Numbers.{taken};
ghost use Rattle.number.specs.Reading.{map_answer};
ghost use Rattle.book.specs.Book.{total};
ghost use Rattle.book.specs.Reads.{read_nodes, read_rules};
ghost use Rattle.book.specs.Promises.{Checks};

use book::{read_node, takes};
use number::limits::{FIRST_VERSION, KINDS, LAST_VERSION, NODES, RULES};
use number::{Refusal, read_field};

// How many rules the book has and how many nodes in all, or why it is refused.
pub fn check_book(book: &[u8]) -> Result<(usize, usize), Refusal>
    ensures { Checks book.now result }
{
    let (version, at_rules) = read_field(book, 0, FIRST_VERSION, LAST_VERSION)?;
    let (rules, first) = read_field(book, at_rules, 1, RULES)?;
    let (nodes, after) = check_rules(book, first, version, rules)?;
    if after < book.len() {
        return Err(Refusal::Tail(after));
    }
    Ok((rules, nodes))
}

// The nodes of a rule, so many: how many nodes those were, and the place after them.
// The terms that stand grow by one a node at most, so the limit on nodes keeps their count small.
// Where none is refused, all that were asked for are read, so nothing is counted.
pub fn check_nodes(
    book: &[u8],
    at: usize,
    version: usize,
    count: usize,
) -> Result<(usize, usize), Refusal>
    requires { count ≤ nodes }
    ensures { taken result ≡ map_answer length (read_nodes book.now version count at) }
{
    let mut place = at;
    let mut standing = 0;
    for _ in 0..count {
        let (node, next) = read_node(book, place, version)?;
        let needs = takes(node);
        if standing < needs {
            return Err(Refusal::Stack(place));
        }
        standing = standing + 1 - needs;
        place = next;
    }
    if standing == 1 {
        return Ok((count, place));
    }
    Err(Refusal::Stack(place))
}

// The rules of a book, so many: how many nodes they have, and the place after them.
// The sum is tested as each count is read, before the nodes are, and refused at that count.
// Kept apart from places::read_head, which reads the same two fields: the count's own place is needed here.
fn check_rules(
    book: &[u8],
    at: usize,
    version: usize,
    count: usize,
) -> Result<(usize, usize), Refusal>
    ensures { taken result ≡ map_answer total (read_rules book.now version count at) }
{
    let mut place = at;
    let mut sum = 0;
    for _ in 0..count {
        let (_, at_count) = read_field(book, place, 0, KINDS)?;
        let (size, first) = read_field(book, at_count, 1, NODES)?;
        if NODES < sum + size {
            return Err(Refusal::Range(at_count));
        }
        let (_, next) = check_nodes(book, first, version, size)?;
        sum += size;
        place = next;
    }
    Ok((sum, place))
}
