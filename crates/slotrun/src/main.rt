//! Runs a script of map commands from standard input.
#![tactic(auto)]

ghost use Rattle.std.specs.Prelude.{◌≡◌, ◌⊎◌};

use slotmap_script::run_script;
use std::env::{Env, FillError};
use std::io::{ErrorKind, Write};
use std::process::ExitCode;
use std::{env, io};

// The words after the program's name. `env::args` asks for memory for the name too, so it isn't
// called where there are no words.
fn all_words(rt: &HostRuntime) -> io::Result<Vec<String>> {
    let mut words = Vec::new(rt.alloc());
    if let Err(FillError::NotPresent) = rt.arg(1, &mut []) {
        return Ok(words);
    }
    for word in env::args(rt)?.skip(1) {
        words.push(word)?;
    }
    Ok(words)
}

// The same, but no words if one isn't UTF-8: such a word names no kind of map.
fn words(rt: &HostRuntime) -> io::Result<Vec<String>> {
    match all_words(rt) {
        Err(error) if error.kind() == ErrorKind::InvalidData => Ok(Vec::new(rt.alloc())),
        words => words,
    }
}

// Runs the script of the input, and returns the exit status.
fn run(rt: &HostRuntime) -> u8
    ensures { (result ≡ 0) ⊎ (result ≡ 2) ⊎ (result ≡ 3) }
{
    let Ok(words) = words(rt) else {
        let _ = writeln!(rt.stdout(), "no script");
        return 3;
    };
    run_script(rt.alloc(), &words, &mut rt.stdin(), &mut rt.stdout())
}

fn main(rt: HostRuntime) -> ExitCode {
    ExitCode::from(run(&rt))
}
