// What a comparison answers: definitions and theorems, all of them in specs/, and the type of a difference.
// A comparison answers a Result of an Option of it, None where book and table cut every text alike.
// Code of pair, pairs, shown and comparing is proved against them; this crate runs nothing.
#![tactic(auto)]

// The length of the shown text, the book's label and the table's.
#[derive(Clone, Copy)]
pub struct Difference {
    pub len: usize,
    pub by_book: usize,
    pub by_table: usize,
}
