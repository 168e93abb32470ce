//! Words and laws on plain lists that every layer uses. There is no code here: `specs/` has the words, and
//! `proofs/` the lemmas.
#![tactic(auto)]
