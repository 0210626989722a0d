// One answer: any two results that a public call's promise allows for one input are equal.
// Theorems only, in specs/; this crate runs nothing.

#![tactic(auto)]
