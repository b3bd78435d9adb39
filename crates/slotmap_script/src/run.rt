//! The run of a script, from its words to its status.

ghost use Rattle.std.specs.Prelude.{◌≡◌, ◌⊎◌, ◌++◌, ℕ, List, None, OnOk, IfOk, IfSome, IfErr, map as list_map, string_bytes};
ghost use Rattle.std.specs.Io.KnownBytes.{Appends};
ghost use Rattle.slotmap_core.specs.Words.{IsNew};
ghost use Rattle.slotmap_script.specs.ScriptText.{stretch_of, ending_of};
ghost use Rattle.slotmap_script.specs.Printed.{Prints, PrintsStretch, PrintsEnd, RepliesBy, BreaksEnd, StopsStretch, StopsStretches};
ghost use Rattle.slotmap_script.specs.Kinds.{kind_of, basic_kind, dense_kind, hop_kind, AreRead, PrintsAll, StopsRun};
ghost use Rattle.slotmap_script.specs.Ended.{kind_named, Runs, Refuses, Stops, IsPrinted};
ghost use Rattle.slotmap_script.specs.declared.stop.Stop.TheVariants.{BadLine, Output};
ghost use Rattle.slotmap_script.specs.StopText.{stop_text, Finishes, IsBegun, Tells};

use crate::commands::{Commands, Detachable, Plain};
use crate::list::{Listed, load, write_slots};
use crate::reply::write_replies;
use crate::script::{End, Stretch, parse};
use crate::stop::{Stop, write_text};
use slotmap_basic::SlotMap;
use slotmap_core::keys::DefaultKey;
use slotmap_core::primary::Primary;
use slotmap_dense::DenseSlotMap;
use slotmap_hop::HopSlotMap;
use std::alloc::Global;
use std::io;
use std::io::{Read, Write};

/// Runs the script of the input on the kind of map that the words name, prints to the output, and
/// returns the exit status.
///
/// The kinds are `basic`, `dense` and `hop`. All lines are parsed before the first is run. The
/// status is one of these:
///
/// - 0 after a run,
/// - 2 if the words or a line are wrong,
/// - 3 if the script can't be read, memory for the script, the map or the replies runs out, or the
///   output can't be written.
///
/// The replies to the commands up to each `slots` or `load` are printed at once, and so is that to
/// this line, but a long list in pieces. After a write that failed nothing more is written. Words
/// that name no kind are refused without memory.
///
/// ```
/// use slotmap_script::run_script;
///
/// let words = vec![in alloc; String::from_str(alloc, "basic")?]?;
/// let mut script = "insert 5\nlen\n".as_bytes();
/// let mut printed = Vec::new(alloc);
/// assert_eq!(rt; run_script(alloc, &words, &mut script, &mut printed), 0);
/// assert_eq!(rt; printed.as_slice(), "key 4294967297\nlen 1\n".as_bytes());
/// ```
pub fn run_script<R: Read, W: Write>(
    alloc: Global,
    words: &[String],
    input: &mut R,
    output: &mut W,
) -> u8
    // What was printed, by the status. At 3 a write may have failed. Then it is a beginning of what is
    // printed where none fails: of a run, of a refusal, or of a run that stops for want of memory.
    ensures statuses { (result ≡ 0) ⊎ (result ≡ 2) ⊎ (result ≡ 3) }
    ensures runs { result ≡ 0 → (text : List ℕ) × Runs (list_map string_bytes words.now) (R.remaining input.old) text
        × Appends (W.contents output.old) (W.contents output.new) text }
    ensures refuses { result ≡ 2 → (text : List ℕ) × Refuses (list_map string_bytes words.now) (R.remaining input.old) text
        × Appends (W.contents output.old) (W.contents output.new) text }
    ensures stops { result ≡ 3 → (text : List ℕ) × IsPrinted (list_map string_bytes words.now) (R.remaining input.old) text
        × IsBegun text (Appends (W.contents output.old) (W.contents output.new)) }

    // Words that name no kind are refused before the input is read.
    ensures unread { kind_named (list_map string_bytes words.now) ≡ None → input.new ≡ input.old }
{
    let ended = run_kind(alloc, words, input, output);
    finish(alloc, ended, output)
}

/// Writes why a script ended early, and returns the status. It is 3 if that or an earlier write
/// failed, and if there is no memory for the number of a bad line.
pub fn finish<W: Write>(alloc: Global, ended: Result<(), Stop>, output: &mut W) -> u8
    ensures ends { Finishes ended (Appends (W.contents output.old) (W.contents output.new)) result }
    ensures silent { IfErr ended (λ why. why ≡ Output → output.new ≡ output.old) }
{
    match ended {
        Ok(()) => tell(output, b"", 0),
        Err(Stop::Usage) => tell(output, b"usage: slotrun basic|dense|hop\n", 2),
        Err(Stop::NoScript) => tell(output, b"no script\n", 3),
        Err(Stop::BadLine(number)) => match bad_line(alloc, number) {
            Ok(text) => tell(output, &text, 2),
            Err(_) => tell(output, b"no script\n", 3),
        },
        // After a write that failed nothing more is written.
        Err(Stop::Output) => 3,
    }
}

// The line that says which line is bad.
fn bad_line(alloc: Global, number: usize) -> io::Result<Vec<u8>>
    ensures { IfOk result (λ text. text.items ≡ stop_text (BadLine number)) }
{
    let mut text = Vec::new(alloc);
    writeln!(text, "bad line {number}")?;
    Ok(text)
}

// Writes the last line, and returns the status, or 3 if the output can't be written.
fn tell<W: Write>(output: &mut W, text: &[u8], status: u8) -> u8
    ensures { Tells text.now status (Appends (W.contents output.old) (W.contents output.new)) result }
{
    if write_text(output, text).is_err() {
        return 3;
    }
    match output.flush() {
        Ok(()) => status,
        Err(_) => 3,
    }
}

// Picks the kind of map, and the commands that it has.
fn run_kind<R: Read, W: Write>(
    alloc: Global,
    words: &[String],
    input: &mut R,
    output: &mut W,
) -> Result<(), Stop>
    ensures ok { OnOk result ((text : List ℕ) × Runs (list_map string_bytes words.now) (R.remaining input.old) text
        × Appends (W.contents output.old) (W.contents output.new) text) }
    ensures err { IfErr result (Stops (list_map string_bytes words.now) (R.remaining input.old)
        (Appends (W.contents output.old) (W.contents output.new))) }
    ensures unread { kind_named (list_map string_bytes words.now) ≡ None → input.new ≡ input.old }
{
    let [kind] = words else {
        return Err(Stop::Usage);
    };
    match kind.as_str() {
        "basic" => run_basic(alloc, input, output),
        "dense" => run_dense(alloc, input, output),
        "hop" => run_hop(alloc, input, output),
        _ => Err(Stop::Usage),
    }
}

fn run_basic<R: Read, W: Write>(alloc: Global, input: &mut R, output: &mut W) -> Result<(), Stop>
    ensures ok { OnOk result ((script text : List ℕ) × AreRead (R.remaining input.old) script × PrintsAll basic_kind script text
        × Appends (W.contents output.old) (W.contents output.new) text) }
    ensures err { IfErr result (StopsRun basic_kind (R.remaining input.old) (Appends (W.contents output.old) (W.contents output.new))) }
{
    run_on::<SlotMap<DefaultKey, i32>, Detachable, R, W>(alloc, input, output)
}

fn run_dense<R: Read, W: Write>(alloc: Global, input: &mut R, output: &mut W) -> Result<(), Stop>
    ensures ok { OnOk result ((script text : List ℕ) × AreRead (R.remaining input.old) script × PrintsAll dense_kind script text
        × Appends (W.contents output.old) (W.contents output.new) text) }
    ensures err { IfErr result (StopsRun dense_kind (R.remaining input.old) (Appends (W.contents output.old) (W.contents output.new))) }
{
    run_on::<DenseSlotMap<DefaultKey, i32>, Detachable, R, W>(alloc, input, output)
}

fn run_hop<R: Read, W: Write>(alloc: Global, input: &mut R, output: &mut W) -> Result<(), Stop>
    ensures ok { OnOk result ((script text : List ℕ) × AreRead (R.remaining input.old) script × PrintsAll hop_kind script text
        × Appends (W.contents output.old) (W.contents output.new) text) }
    ensures err { IfErr result (StopsRun hop_kind (R.remaining input.old) (Appends (W.contents output.old) (W.contents output.new))) }
{
    run_on::<HopSlotMap<DefaultKey, i32>, Plain, R, W>(alloc, input, output)
}

/// Parses all lines of a script, and runs it on a new map. It fails with `NoScript` if the input can't be
/// read or memory runs out, with `BadLine` if a line is wrong, and with `Output` if the output can't be
/// written.
pub fn run_on<M, C, R, W>(alloc: Global, input: &mut R, output: &mut W) -> Result<(), Stop>
where
    M: Primary<DefaultKey, i32> + Listed + Drop,
    C: Commands<M>,
    R: Read,
    W: Write,
    ensures ok { OnOk result ((script text : List ℕ) × AreRead (R.remaining input.old) script
        × PrintsAll (kind_of C.command_of C.replies_to M.lists (λ map. IsNew (M.content map))) script text
        × Appends (W.contents output.old) (W.contents output.new) text) }
    ensures err { IfErr result (StopsRun (kind_of C.command_of C.replies_to M.lists (λ map. IsNew (M.content map)))
        (R.remaining input.old) (Appends (W.contents output.old) (W.contents output.new))) }
{
    let mut script = Vec::new(alloc);
    let Ok(_) = input.read_to_end(&mut script) else {
        return Err(Stop::NoScript);
    };
    let stretches = parse::<M, C>(alloc, &script)?;
    let Ok(map) = M::with_key(alloc) else {
        return Err(Stop::NoScript);
    };
    run_stretches(alloc, map, stretches, output)
}

/// Runs the stretches of a script on a map, one after another, and writes the replies. It stops with
/// `NoScript` at the first for whose replies there is no memory, and with `Output` if the output can't
/// be written.
pub fn run_stretches<M, C, W>(
    alloc: Global,
    map: M,
    stretches: Vec<Stretch<'_, C>>,
    output: &mut W,
) -> Result<(), Stop>
where
    M: Listed + Drop,
    C: Commands<M>,
    W: Write,
    ensures ok { OnOk result ((text : List ℕ) × (last : M)
        × Prints C.replies_to M.lists (list_map stretch_of stretches.entry.items) map text last
        × Appends (W.contents output.old) (W.contents output.new) text) }
    ensures err { IfErr result (StopsStretches C.replies_to M.lists (list_map stretch_of stretches.entry.items) map
        (Appends (W.contents output.old) (W.contents output.new))) }
{
    let mut map = map;
    for stretch in stretches {
        print_stretch(alloc, &mut map, stretch, output)?;
    }
    Ok(())
}

// Runs the commands of a stretch, prints the replies at once, and then prints or reads the list of
// slots.
fn print_stretch<M, C, W>(
    alloc: Global,
    map: &mut M,
    stretch: Stretch<'_, C>,
    output: &mut W,
) -> Result<(), Stop>
where
    M: Listed + Drop,
    C: Commands<M>,
    W: Write,
    ensures ok { OnOk result ((text : List ℕ)
        × PrintsStretch C.replies_to M.lists (stretch_of stretch.entry) map.old text map.new
        × Appends (W.contents output.old) (W.contents output.new) text) }
    ensures err { IfErr result (StopsStretch C.replies_to M.lists (stretch_of stretch.entry) map.old
        (Appends (W.contents output.old) (W.contents output.new))) }
{
    let Stretch { commands, end } = stretch;
    let Some(text) = reply_text(alloc, map, commands) else {
        return Err(Stop::NoScript);
    };
    write_text(output, &text)?;
    print_end(alloc, map, end, output)
}

// Runs commands, and returns the text of the replies, or `None` if there is no memory for them.
fn reply_text<M, C>(alloc: Global, map: &mut M, commands: Vec<C>) -> Option<Vec<u8>>
where
    M: Listed + Drop,
    C: Commands<M>,
    ensures { IfSome result (λ text. RepliesBy C.replies_to map.old commands.items text.items map.new) }
{
    let replies = C::run(alloc, map, commands)?;
    let mut text = Vec::new(alloc);
    write_replies(&mut text, replies).ok()?;
    Some(text)
}

// Prints the list of slots, or reads a map from one.
fn print_end<M, W>(alloc: Global, map: &mut M, end: End<'_>, output: &mut W) -> Result<(), Stop>
where
    M: Listed + Drop,
    W: Write,
    ensures ok { OnOk result ((text : List ℕ) × PrintsEnd M.lists (ending_of end.entry) map.old text map.new
        × Appends (W.contents output.old) (W.contents output.new) text) }
    ensures err { IfErr result (BreaksEnd M.lists (ending_of end.entry) map.old (Appends (W.contents output.old) (W.contents output.new))) }
{
    match end {
        End::Slots => write_slots(alloc, map, output),
        End::Load(text) => load(alloc, map, text, output),
        End::Script => Ok(()),
    }
}
