// Our calls as programs in C have them: each packs its answer as packed's specs/Packed.antt says. Every input is taken.
// The crate library_c exports them under the same names, and include/lubiranguk.h is the same list of calls in C's words.
#![tactic(auto)]

ghost use Rattle.std.specs.Prelude.{◌≡◌};
ghost use Rattle.book.specs.Calls.{check_of, kind_of};
ghost use Rattle.table.specs.Table.{well_formed};
ghost use Rattle.table.specs.Calls.{load_of, write_of};
ghost use Rattle.cutting.specs.Flat.{cut_cells_of};
ghost use Rattle.built.specs.Calls.{build_of};
ghost use Rattle.verdict.specs.Calls.{compare_of};
ghost use Rattle.typed.specs.Calls.{type_of};
ghost use Rattle.packed.specs.Packed.{left, packed, tested, told_count, told_size, told_kind, told_report, told_compared};

use number::Refusal;
use packed::CELLS;

// How many rules a book has and how many nodes in all.
pub fn lubi_check_book(book: &[u8], answer: &mut [usize; CELLS]) -> usize
    ensures { left result answer.new ≡ packed told_size (check_of book.now) }
{
    packed::tell_size(answer, checking::check_book(book))
}

// The kind of a rule, or that the book has no such rule.
pub fn lubi_rule_kind(book: &[u8], rule: usize, answer: &mut [usize; CELLS]) -> usize
    ensures { left result answer.new ≡ packed told_kind (kind_of book.now rule) }
{
    packed::tell_kind(answer, places::rule_kind(book, rule))
}

// Whether a table is well formed; no number is told of one that is.
pub fn lubi_well_formed<'a>(
    count: usize,
    labels: &'a [u8],
    targets: &'a [u8],
    answer: &mut [usize; CELLS],
) -> usize
    ensures { left result answer.new
        ≡ packed told_count (tested (well_formed count labels.now targets.now)) }
{
    if table::well_formed(count, labels, targets) {
        packed::give(answer, [0; CELLS])
    } else {
        packed::refuse(answer, Refusal::Loaded)
    }
}

// A book is built into the table area.
pub fn lubi_build(
    book: &[u8],
    labels: &mut [u8],
    targets: &mut [u8],
    work: &mut [u64],
    answer: &mut [usize; CELLS],
) -> usize
    ensures answer_after { left result answer.new
        ≡ packed told_count
        (build_of book.now labels.old targets.old work.old).table.answer }
    ensures labels_after { labels.new
        ≡ (build_of book.now labels.old targets.old work.old).table.labels }
    ensures targets_after { targets.new
        ≡ (build_of book.now labels.old targets.old work.old).table.targets }
    ensures work_after { work.new
        ≡ (build_of book.now labels.old targets.old work.old).work }
{
    packed::tell_count(answer, building::build(book, labels, targets, work))
}

// A sheet is read into the table area.
pub fn lubi_load(
    sheet: &[u8],
    labels: &mut [u8],
    targets: &mut [u8],
    answer: &mut [usize; CELLS],
) -> usize
    ensures answer_after { left result answer.new
        ≡ packed told_count (load_of sheet.now labels.old targets.old).answer }
    ensures labels_after { labels.new ≡ (load_of sheet.now labels.old targets.old).labels }
    ensures targets_after { targets.new ≡ (load_of sheet.now labels.old targets.old).targets }
{
    packed::tell_count(answer, loading::load(sheet, labels, targets))
}

// A table is written as its sheet.
pub fn lubi_write_sheet<'a>(
    count: usize,
    labels: &'a [u8],
    targets: &'a [u8],
    out: &mut [u8],
    answer: &mut [usize; CELLS],
) -> usize
    ensures answer_after { left result answer.new
        ≡ packed told_count (write_of count labels.now targets.now out.old).answer }
    ensures out_after { out.new ≡ (write_of count labels.now targets.now out.old).out }
{
    packed::tell_count(answer, writing::write_sheet(count, labels, targets, out))
}

// A text of typed rules becomes a rule book.
pub fn lubi_type(text: &[u8], out: &mut [u8], answer: &mut [usize; CELLS]) -> usize
    ensures answer_after { left result answer.new ≡ packed told_count (type_of text.now out.old).answer }
    ensures out_after { out.new ≡ (type_of text.now out.old).out }
{
    packed::tell_count(answer, typing::type_rules(text, out))
}

// The words of a text from a place on go into cells, three for each.
pub fn lubi_cut_from<'a>(
    count: usize,
    labels: &'a [u8],
    targets: &'a [u8],
    text: &'a [u8],
    at: usize,
    records: &mut [usize],
    answer: &mut [usize; CELLS],
) -> usize
    ensures answer_after { left result answer.new
        ≡ packed told_report
        (cut_cells_of count labels.now targets.now text.now at records.old).answer }
    ensures records_after { records.new
        ≡ (cut_cells_of count labels.now targets.now text.now at records.old).cells }
{
    packed::tell_end(
        answer,
        cutting::cut_from(count, labels, targets, text, at, records),
    )
}

// A book is compared with a table; where they differ, the text goes to the front of the text area.
pub fn lubi_compare<'a>(
    book: &'a [u8],
    count: usize,
    labels: &'a [u8],
    targets: &'a [u8],
    text_area: &mut [u8],
    work: &mut [u64],
    answer: &mut [usize; CELLS],
) -> usize
    ensures answer_after { left result answer.new
        ≡ packed told_compared
        (compare_of book.now count labels.now targets.now text_area.old work.old).answer }
    ensures text_area_after { text_area.new
        ≡ (compare_of book.now count labels.now targets.now text_area.old work.old).text }
    ensures work_after { work.new
        ≡ (compare_of book.now count labels.now targets.now text_area.old work.old).work }
{
    packed::tell_compared(
        answer,
        comparing::compare_book(book, count, labels, targets, text_area, work),
    )
}
