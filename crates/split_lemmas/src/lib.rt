//! Nothing but lemmas, for the proofs of other crates: on lists and their places, permutations and orders, sums of signed numbers, and quotients.
//!
//! Each file of `proofs/` has one subject. There is no code here, and no contract cites a lemma.
//! It is a crate of its own, so that the proofs of most crates can share them.
#![tactic(auto)]
