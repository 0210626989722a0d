// The walk over vectors of terms; for now its definitions and theorems, all in specs/.
// Building and comparing are proved against them.

#![tactic(auto)]
