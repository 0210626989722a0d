// What people are told of a file of typed rules that is refused: definitions and theorems only, all of them in specs/.
// Code of phrases, candidates and advice is proved against them; this crate runs nothing.

#![tactic(auto)]
