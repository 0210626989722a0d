// A turn of a cut: a text is cut into so many records, and the lines of its words are put at the front of a buffer.
// specs/Turned.antt says what a turn puts; that the turns together put what one would is specs/RestLaws.antt's of the crate cut_lines.
#![tactic(auto)]

ghost use Rattle.std.specs.Prelude.{◌+◌, ◌-◌, ◌*◌, ◌/◌, ◌^◌, ◌<◌, ◌≤◌, ◌≡◌, length, get_or};
ghost use Rattle.number.specs.Lists.{Writes};
ghost use Rattle.cutting.specs.Flat.{record_cells};
ghost use Rattle.lines.specs.Lines.{line_room};
ghost use Rattle.programs.specs.Output.{kind_in as kind_of_rule};
ghost use Rattle.turns.specs.Turned.{Kinds, kind_by, cell_lines, turn_of, Turned};

use cutting::{Ended, RECORD_CELLS};

// How a turn ends: on from a place with so many words so far, or nothing more; and where its lines end.
// Kept as an enum of its own: both tell where their lines end, and one a place and a count besides; an Option of these beside the end is no plainer.
#[derive(Clone, Copy)]
pub enum Turn {
    Onward(usize, usize, usize),
    Last(usize),
}

// The kind of a rule of a book, and 0 where there is no such rule.
fn kind_in(book: &[u8], rule: usize) -> usize
    ensures { result ≡ kind_of_rule book.now rule }
{
    match places::rule_kind(book, rule) {
        Ok(Some(kind)) => kind,
        Ok(None) | Err(_) => 0,
    }
}

// The kinds of a book's rules, looked up once for all words.
pub fn look_up(book: &[u8], kinds: &mut [usize])
    ensures { Kinds book.now kinds.new }
{
    for (rule, kind) in kinds.iter_mut().enumerate() {
        *kind = kind_in(book, rule);
    }
}

// Past the list's end it is 0.
fn kind_at(kinds: &[usize], rule: usize) -> usize
    ensures { result ≡ get_or kinds.now rule 0 }
{
    kinds.get(rule).copied().unwrap_or(0)
}

// The lines of so many records, at the front of the buffer.
fn put_words(records: &[usize], kinds: &[usize], count: usize, out: &mut [u8]) -> usize
    requires count_in_bounds { record_cells * count ≤ length records.now }
    requires count_in_bounds_2 { line_room * count ≤ length out.old }
    ensures writes { Writes (cell_lines (kind_by kinds.now) records.now count) out.old out.new 0 result }
    ensures upper_bound { result ≤ line_room * count }
{
    let (records, _) = records.as_chunks::<RECORD_CELLS>();
    let mut end: usize = 0;
    for &[start, len, rule] in &records[..count] {
        let kind = kind_at(kinds, rule);
        end = lines::put_word(start, len, rule, kind, out, end);
    }
    end
}

// Cuts on from a place, and puts the lines of the words at the front of the buffer; where the text ends or is stuck, the last line too.
pub fn cut_turn<'a>(
    count: usize,
    labels: &'a [u8],
    targets: &'a [u8],
    text: &'a [u8],
    place: usize,
    total: usize,
    kinds: &[usize],
    records: &mut [usize],
    out: &mut [u8],
) -> Turn
    requires record_cells_in_bounds { line_room * (length records.old / record_cells + 1) ≤ length out.old }
    requires place_bound { total + (length text.now - place) < 2 ^ 64 }
    ensures { Turned (kind_by kinds.now) total
        (turn_of count labels.now targets.now text.now place (length records.old / record_cells))
        out.old out.new result }
{
    match cutting::cut_from(count, labels, targets, text, place, records) {
        Ok(Ended::Done(n)) => {
            let next = put_words(records, kinds, n, out);
            Turn::Last(lines::put_done(total + n, out, next))
        }
        Ok(Ended::Stuck(n, stuck)) => {
            let next = put_words(records, kinds, n, out);
            Turn::Last(lines::put_stuck(stuck, out, next))
        }
        Ok(Ended::Full(n, full)) => {
            let next = put_words(records, kinds, n, out);
            Turn::Onward(full, total + n, next)
        }
        Err(r) => Turn::Last(lines::put_refused(r, out, 0)),
    }
}
