//! Guards: what a caller relies on, one call each, proved from the contract of that call alone.
//!
//! The comment of a guard names the clause that it needs, and the wrong bodies that it stands for: files
//! of `more-wrong-bodies`. Once somebody weakens the clause, the guard is no longer proved. Nothing
//! calls these functions, and the library doesn't contain them.

mod keys;
mod maps;
mod sides;
