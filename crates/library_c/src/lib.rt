// The calls of the crate library, exported for programs in C: slices come as pointer and length.
// Each export is the call of its name, with that call's promise; include/lubiranguk.h is the same list in C's words.
#![tactic(auto)]

ghost use Rattle.std.specs.Prelude.{◌≡◌};
ghost use Rattle.book.specs.Calls.{check_of, kind_of};
ghost use Rattle.table.specs.Table.{well_formed};
ghost use Rattle.table.specs.Calls.{load_of, write_of};
ghost use Rattle.cutting.specs.Flat.{cut_cells_of};
ghost use Rattle.built.specs.Calls.{build_of};
ghost use Rattle.verdict.specs.Calls.{compare_of};
ghost use Rattle.typed.specs.Calls.{type_of};
ghost use Rattle.packed.specs.Packed.{left, packed, tested, told_count, told_size, told_kind, told_report, told_compared};

use packed::CELLS;

// How many rules a book has and how many nodes in all.
#[unsafe(no_mangle)]
pub extern "C" fn lubi_check_book(book: &[u8], answer: &mut [usize; CELLS]) -> usize
    ensures { left result answer.new ≡ packed told_size (check_of book.now) }
{
    library::lubi_check_book(book, answer)
}

// The kind of a rule, or that the book has no such rule.
#[unsafe(no_mangle)]
pub extern "C" fn lubi_rule_kind(book: &[u8], rule: usize, answer: &mut [usize; CELLS]) -> usize
    ensures { left result answer.new ≡ packed told_kind (kind_of book.now rule) }
{
    library::lubi_rule_kind(book, rule, answer)
}

// Whether a table is well formed; no number is told of one that is.
#[unsafe(no_mangle)]
pub extern "C" fn lubi_well_formed<'a>(
    count: usize,
    labels: &'a [u8],
    targets: &'a [u8],
    answer: &mut [usize; CELLS],
) -> usize
    ensures { left result answer.new
        ≡ packed told_count (tested (well_formed count labels.now targets.now)) }
{
    library::lubi_well_formed(count, labels, targets, answer)
}

// A book is built into the table area.
#[unsafe(no_mangle)]
pub extern "C" fn lubi_build(
    book: &[u8],
    labels: &mut [u8],
    targets: &mut [u8],
    work: &mut [u64],
    answer: &mut [usize; CELLS],
) -> usize
    ensures answer_after { left result answer.new
        ≡ packed told_count
        (build_of book.now labels.old targets.old work.old).table.answer }
    ensures labels_after { labels.new
        ≡ (build_of book.now labels.old targets.old work.old).table.labels }
    ensures targets_after { targets.new
        ≡ (build_of book.now labels.old targets.old work.old).table.targets }
    ensures work_after { work.new
        ≡ (build_of book.now labels.old targets.old work.old).work }
{
    library::lubi_build(book, labels, targets, work, answer)
}

// A sheet is read into the table area.
#[unsafe(no_mangle)]
pub extern "C" fn lubi_load(
    sheet: &[u8],
    labels: &mut [u8],
    targets: &mut [u8],
    answer: &mut [usize; CELLS],
) -> usize
    ensures answer_after { left result answer.new
        ≡ packed told_count (load_of sheet.now labels.old targets.old).answer }
    ensures labels_after { labels.new ≡ (load_of sheet.now labels.old targets.old).labels }
    ensures targets_after { targets.new ≡ (load_of sheet.now labels.old targets.old).targets }
{
    library::lubi_load(sheet, labels, targets, answer)
}

// A table is written as its sheet.
#[unsafe(no_mangle)]
pub extern "C" fn lubi_write_sheet<'a>(
    count: usize,
    labels: &'a [u8],
    targets: &'a [u8],
    out: &mut [u8],
    answer: &mut [usize; CELLS],
) -> usize
    ensures answer_after { left result answer.new
        ≡ packed told_count (write_of count labels.now targets.now out.old).answer }
    ensures out_after { out.new ≡ (write_of count labels.now targets.now out.old).out }
{
    library::lubi_write_sheet(count, labels, targets, out, answer)
}

// A text of typed rules becomes a rule book.
#[unsafe(no_mangle)]
pub extern "C" fn lubi_type(text: &[u8], out: &mut [u8], answer: &mut [usize; CELLS]) -> usize
    ensures answer_after { left result answer.new ≡ packed told_count (type_of text.now out.old).answer }
    ensures out_after { out.new ≡ (type_of text.now out.old).out }
{
    library::lubi_type(text, out, answer)
}

// The words of a text from a place on go into cells, three for each.
#[unsafe(no_mangle)]
pub extern "C" fn lubi_cut_from<'a>(
    count: usize,
    labels: &'a [u8],
    targets: &'a [u8],
    text: &'a [u8],
    at: usize,
    records: &mut [usize],
    answer: &mut [usize; CELLS],
) -> usize
    ensures answer_after { left result answer.new
        ≡ packed told_report
        (cut_cells_of count labels.now targets.now text.now at records.old).answer }
    ensures records_after { records.new
        ≡ (cut_cells_of count labels.now targets.now text.now at records.old).cells }
{
    library::lubi_cut_from(count, labels, targets, text, at, records, answer)
}

// A book is compared with a table; where they differ, the text goes to the front of the text area.
#[unsafe(no_mangle)]
pub extern "C" fn lubi_compare<'a>(
    book: &'a [u8],
    count: usize,
    labels: &'a [u8],
    targets: &'a [u8],
    text_area: &mut [u8],
    work: &mut [u64],
    answer: &mut [usize; CELLS],
) -> usize
    ensures answer_after { left result answer.new
        ≡ packed told_compared
        (compare_of book.now count labels.now targets.now text_area.old work.old).answer }
    ensures text_area_after { text_area.new
        ≡ (compare_of book.now count labels.now targets.now text_area.old work.old).text }
    ensures work_after { work.new
        ≡ (compare_of book.now count labels.now targets.now text_area.old work.old).work }
{
    library::lubi_compare(book, count, labels, targets, text_area, work, answer)
}
