//! Scripts of map commands: parsed, run on a map, and answered line by line.
//!
//! [`run_script`] does all of it for a script and the words that name the kind of map. The program
//! `slotrun` calls it with its own words and streams. [docs/SLOTRUN.md] says what a script is.
//!
//! [docs/SLOTRUN.md]: ../../../docs/SLOTRUN.md
#![tactic(auto)]

pub mod commands;
pub mod list;
pub mod reply;
pub mod run;
pub mod script;
pub mod stop;

pub use run::run_script;
