// What the programs cut, compare and sheet put out, for every input: definitions and theorems only, in specs/ and proofs/.
// The code of each stands in a crate of its own and is proved against them; this crate runs nothing.

#![tactic(auto)]
