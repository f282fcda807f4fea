//! Laws of lists for proofs, and finite sets for definitions. No code uses this crate; contracts and proofs do.
//!
//! `Elements` has the elements of lists, and what holds of each two of them. `Sets` has the words of sets, over keys in
//! any order: a set is a value, two sets of the same members are equal, and `ascending` lists the members in their
//! order. `Laws` has the laws of sets that proofs use, and says why these aren't the library's sets. The lemmas in
//! `proofs` are those that proofs of several crates cite and the standard library lacks.
#![tactic(auto)]
