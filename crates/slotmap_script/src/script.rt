//! A script, parsed to the commands of a kind of map.

ghost use Rattle.std.specs.Prelude.{◌≡◌, ◌<◌, length, ℕ, List, [], ◌∷◌, ◌++◌, map, IfOk, IfErr, OnOk, nat_eq, ◌==◌, option_map};
ghost use Rattle.slotmap_script.specs.ScriptText.{lines_of, words_of, said_by, said_by_text, said_of, Said, SaidBy, IsFirstBad, StopsParse, stretches_from, stretch_of, ending_of};

use crate::commands::Commands;
use crate::stop::Stop;
use std::alloc::Global;
use std::mem;

/// Commands for one run, and what follows them.
#[derive(Drop)]
pub struct Stretch<'a, C> {
    /// The commands, in order.
    pub commands: Vec<C>,
    /// What follows them.
    pub end: End<'a>,
}

/// What ends a stretch.
#[derive(Drop)]
pub enum End<'a> {
    /// The map's list of slots is printed.
    Slots,
    /// The map is read from this text, which isn't parsed yet.
    Load(&'a str),
    /// The script ends.
    Script,
}

// What a line is: a command, or the end of a stretch.
#[derive(Drop)]
enum Line<'a, C> {
    Command(C),
    End(End<'a>),
}

/// Parses every line of a script. The last line may lack its line feed. It fails with `BadLine` at the
/// first line that isn't one of these commands, and with `NoScript` if memory runs out.
pub fn parse<'a, M, C: Commands<M>>(
    alloc: Global,
    script: &'a [u8],
) -> Result<Vec<Stretch<'a, C>>, Stop>
    ensures ok { IfOk result (λ stretches. (said : List (Said C)) × SaidBy C.command_of (lines_of script.now) said
        × (map stretch_of stretches.items ≡ stretches_from [] said)) }
    ensures err { IfErr result (StopsParse C.command_of (lines_of script.now)) }
{
    let mut stretches = Vec::new(alloc);
    let mut commands = Vec::new(alloc);
    parse_lines(alloc, script, &mut stretches, &mut commands)?;
    stretches.push(Stretch {
        commands,
        end: End::Script,
    })?;
    Ok(stretches)
}

// Adds the lines of a script to the stretches and to the commands that follow them.
fn parse_lines<'a, M, C: Commands<M>>(
    alloc: Global,
    script: &'a [u8],
    stretches: &mut Vec<Stretch<'a, C>>,
    commands: &mut Vec<C>,
) -> Result<(), Stop>
    ensures ok { OnOk result ((said : List (Said C)) × SaidBy C.command_of (lines_of script.now) said
        × ((rest : List (Said C)) → map stretch_of stretches.new.items ++ stretches_from commands.new.items rest
        ≡ map stretch_of stretches.old.items ++ stretches_from commands.old.items (said ++ rest))) }
    ensures err { IfErr result (StopsParse C.command_of (lines_of script.now)) }
{
    let mut rest = script;
    let mut number = 0;
    while !rest.is_empty() {
        let (first, others) = split_line(rest);
        number += 1;
        let Some(line) = parse_line(first) else {
            return Err(Stop::BadLine(number));
        };
        add_line(alloc, stretches, commands, line)?;
        rest = others;
    }
    Ok(())
}

// The first line of a text without its line feed, and what follows it.
fn split_line(text: &[u8]) -> (&[u8], &[u8])
    requires { 0 < length text.now }
    ensures lines { lines_of text.now ≡ result.0.now ∷ lines_of result.1.now }
    ensures shorter { length result.1.now < length text.now }
{
    match text.iter().position(|byte| *byte == b'\n') {
        Some(end) => (&text[..end], &text[end + 1..]),
        None => (text, &[]),
    }
}

// Adds a line to the commands, or ends their stretch.
#[inline(always)]
fn add_line<'a, C: Drop>(
    alloc: Global,
    stretches: &mut Vec<Stretch<'a, C>>,
    commands: &mut Vec<C>,
    line: Line<'a, C>,
) -> Result<(), Stop>
    ensures ok { OnOk result ((rest : List (Said C)) → map stretch_of stretches.new.items ++ stretches_from commands.new.items rest
        ≡ map stretch_of stretches.old.items ++ stretches_from commands.old.items (said_of line.entry ∷ rest)) }
    ensures err { IfErr result (λ stop. stop ≡ Stop.NoScript) }
{
    match line {
        Line::Command(command) => commands.push(command)?,
        Line::End(end) => {
            let commands = mem::replace(commands, Vec::new(alloc));
            stretches.push(Stretch { commands, end })?;
        }
    }
    Ok(())
}

// Parses a line, or returns `None` if it isn't UTF-8 or not a line of a script.
fn parse_line<'a, M, C: Commands<M>>(bytes: &'a [u8]) -> Option<Line<'a, C>>
    ensures { option_map said_of result ≡ said_by C.command_of bytes.now }
{
    match str::from_utf8(bytes) {
        Ok(text) => parse_text(text),
        Err(_) => None,
    }
}

fn parse_text<'a, M, C: Commands<M>>(text: &'a str) -> Option<Line<'a, C>>
    ensures { option_map said_of result ≡ said_by_text C.command_of text.now }
{
    match text.strip_prefix("load ") {
        Some("") => None,
        Some(list) => Some(Line::End(End::Load(list))),
        None if text == "slots" => Some(Line::End(End::Slots)),
        None => Some(Line::Command(parse_command(text)?)),
    }
}

// Parses a command: its words with one space between them, and nothing before or after.
fn parse_command<M, C: Commands<M>>(text: &str) -> Option<C>
    ensures { result ≡ C.command_of (words_of text.now) }
{
    // No command has more than three words.
    let mut words = [""; 3];
    let mut count = 0;
    for word in text.split(' ') {
        if count == words.len() {
            return None;
        }
        words[count] = word;
        count += 1;
    }
    C::from_words(&words[..count])
}
