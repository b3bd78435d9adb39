//! Why a script ends before its last reply, and writes that say what they wrote if they fail.

ghost use Rattle.std.specs.Prelude.{◌≡◌, IfErr, OnOk};
ghost use Rattle.std.specs.Io.KnownBytes.{Appends};
ghost use Rattle.slotmap_script.specs.StopText.{IsBegun};
ghost use Rattle.slotmap_script.specs.declared.stop.Stop.TheVariants.{Output as OutputStop};

use std::alloc::AllocFailed;
use std::io::{ErrorKind, Write};

/// Why a script ends early.
#[derive(Drop)]
pub enum Stop {
    /// The words name no kind of map.
    Usage,
    /// The script can't be read, or memory ran out.
    NoScript,
    /// A line isn't one of a script. Lines count from 1.
    BadLine(usize),
    /// The output can't be written.
    Output,
}

/// Writes a text. It fails with `Output` if the output can't be written; then a beginning of the
/// text was written.
pub fn write_text<W: Write>(output: &mut W, text: &[u8]) -> Result<(), Stop>
    ensures ok { OnOk result (Appends (W.contents output.old) (W.contents output.new) text.now) }
    ensures err { IfErr result (λ why. (why ≡ OutputStop) × IsBegun text.now (Appends (W.contents output.old) (W.contents output.new))) }
{
    let mut rest = text;
    for _ in 0..u64::MAX {
        if rest.is_empty() {
            return Ok(());
        }
        match output.write(rest) {
            Ok(0) => return Err(Stop::Output),
            Ok(written) => rest = &rest[written..],
            Err(error) => {
                // The system may break off a write, and ask for another try.
                if error.kind() != ErrorKind::Interrupted {
                    return Err(Stop::Output);
                }
            }
        }
    }
    Err(Stop::Output)
}

impl<T: Drop> From<AllocFailed<T>> for Stop {
    ghost use Rattle.slotmap_script.specs.declared.stop.Stop.TheVariants.{NoScript};

    ghost from_gives = { λ error stop. stop ≡ NoScript };

    fn from(_error: AllocFailed<T>) -> Stop {
        Stop::NoScript
    }
}
