// No code: the crate is its definitions and theorems, demand 3 and Annex A's questions, over the calls of `sscf`.
#![tactic(auto)]
