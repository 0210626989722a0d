// What the build makes of a book: definitions and theorems only, all of them in specs/.
// Code of row, filled and building is proved against them; this crate runs nothing.

#![tactic(auto)]
