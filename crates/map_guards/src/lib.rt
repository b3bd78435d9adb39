//! Guards of the maps and of their runs: what a user relies on, each proved from the contract of one call alone.
//!
//! A function makes one call, or one of a few that do the same. Its clauses are guards of that call. The
//! comment of a guard names the clause that it needs, and the wrong bodies that it stands for: files
//! in `must-fail` or `more-wrong-bodies` of the map's crate. Once somebody weakens the clause, the guard
//! is no longer proved. What a clause says to the letter has no guard.
#![tactic(auto)]

pub mod basic;
pub mod dense;
pub mod hop;
pub mod json;
pub mod run;
pub mod secondary;
pub mod sparse;
pub mod traits;
