//! Callers of a `Scene`: guards of its contracts, and examples.
//!
//! The program makes calls of each kind at a thousand elements, and prints counts and sums of what they return.
//! They have to be those of the file `stdout`, which `rust/check/tests/at_size/expected.py` writes from a model of its own.
#![tactic(auto)]

mod arm;
mod calls;
mod dirty;
mod floats;
mod groups;
mod guards;
mod prunes;
mod reorder;
mod room;
mod searches;

use std::process::ExitCode;

fn main(rt: HostRuntime) -> ExitCode {
    ExitCode::from(u8::from(!calls::run(&rt)))
}
