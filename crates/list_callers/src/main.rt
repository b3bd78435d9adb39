//! Callers of a `StableList`: guards of its contracts, and examples.
//!
//! The program makes calls of each kind at a thousand elements, and prints counts and sums of what they return.
//! They have to be those of the file `stdout`, which `rust/check/tests/at_size/expected.py` writes from a model of its own.
#![tactic(auto)]

mod calls;
mod cursors;
mod guards;
mod room;

use std::process::ExitCode;

fn main(rt: HostRuntime) -> ExitCode {
    ExitCode::from(u8::from(!calls::run(&rt)))
}
