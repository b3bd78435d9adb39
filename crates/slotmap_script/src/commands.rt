//! The commands of script lines, one type for each kind of map.

ghost use Rattle.std.specs.Prelude.{◌≡◌, ◌^◌, ◌<◌, ℕ, ℤ, Bool, List, [], ◌∷◌, map, length, Option, None, IfSome};
ghost use Rattle.slotmap_core.specs.Words.{Key, Content, Step, DetachStep, FnReturnsAt};
ghost use Rattle.slotmap_core.specs.declared.commands.Reply.{Reply};
ghost use Rattle.slotmap_core.specs.declared.errors.OutOfMemory.{OutOfMemory};
ghost use Rattle.slotmap_script.specs.Answered.{Answers};
ghost use Rattle.slotmap_script.specs.CommandText.{word_number, numeral_below, word_key, plain_of, detachable_of, plain_at_most_three, detachable_at_most_three};

use crate::reply::LineReply;
use slotmap_core::commands::{Command, DetachCommand};
use slotmap_core::errors::OutOfMemory;
use slotmap_core::keys::{DefaultKey, KeyData};
use slotmap_core::primary::{Detaching, Primary};
use slotmap_run::primary::{run, run_detaching};
use std::alloc::Global;

/// The commands that every map has.
pub type Plain = Command<DefaultKey, i32>;

/// The commands of maps whose keys can be detached.
pub type Detachable = DetachCommand<DefaultKey, i32>;

/// The commands of the maps `M`: which lines they have, and how they are run.
pub trait Commands<M>: Sized + Drop {
    /// The command of the words of a line, if the maps have such a line.
    ghost command_of: { List (List ℕ) → Option Self };

    /// With which replies these commands take a map from one value to another.
    ghost replies_to: { M → List Self → List (Reply Key ℤ ℤ OutOfMemory) → M → Type 0 };

    /// The command of a line with these words, or `None` if the maps have no such line.
    fn from_words(words: &[&str]) -> Option<Self>
        ensures { result ≡ command_of (map (λ word. word.now) words.now) };

    /// Runs the commands in order and returns the replies, or `None` if there is no memory for
    /// them.
    fn run(alloc: Global, map: &mut M, commands: Vec<Self>) -> Option<Vec<LineReply>>
        ensures ran { IfSome result (λ replies. replies_to map.old commands.items replies.items map.new) };

    // No command has more than three words.
    ghost at_most_three: { (words : List (List ℕ)) → 3 < length words → command_of words ≡ None };
}

impl<M: Primary<DefaultKey, i32>> Commands<M> for Plain {
    ghost command_of = { plain_of };

    ghost replies_to = { λ old commands replies new. Answers Step M.REUSES (M.content old) commands replies (M.content new) };

    fn from_words(words: &[&str]) -> Option<Self> {
        plain(words)
    }

    fn run(alloc: Global, map: &mut M, commands: Vec<Self>) -> Option<Vec<LineReply>>
        ensures ran { IfSome result (λ replies. Answers Step M.REUSES (M.content map.old) commands.items replies.items (M.content map.new)) }
    {
        run_shown(alloc, map, commands, look, keep, make)
    }

    ghost at_most_three = { plain_at_most_three };
}

impl<M: Detaching<DefaultKey, i32>> Commands<M> for Detachable {
    ghost command_of = { detachable_of };

    ghost replies_to = { λ old commands replies new. Answers DetachStep M.REUSES (M.content old) commands replies (M.content new) };

    fn from_words(words: &[&str]) -> Option<Self> {
        detachable(words)
    }

    fn run(alloc: Global, map: &mut M, commands: Vec<Self>) -> Option<Vec<LineReply>>
        ensures ran { IfSome result (λ replies. Answers DetachStep M.REUSES (M.content map.old) commands.items replies.items (M.content map.new)) }
    {
        run_detaching_shown(alloc, map, commands, look, keep, make)
    }

    ghost at_most_three = { detachable_at_most_three };
}

// Runs commands whose look-ups show the values themselves.
fn run_shown<M, L, P, N>(
    alloc: Global,
    map: &mut M,
    commands: Vec<Plain>,
    look: L,
    keep: P,
    make: N,
) -> Option<Vec<LineReply>>
where
    M: Primary<DefaultKey, i32>,
    L: Fn(&i32) -> i32 + Drop,
    P: Fn(DefaultKey, &mut i32) -> bool + Drop,
    N: Fn(DefaultKey) -> Result<i32, OutOfMemory> + Drop,
    requires looks { L.IsAlwaysCallable look }
    requires keeps { P.IsAlwaysCallable keep }
    requires makes { N.IsAlwaysCallable make }
    requires shows { (value shown : ℤ) → FnReturnsAt L.Fn look value shown → shown ≡ value }
    ensures { IfSome result (λ replies. Answers Step M.REUSES (M.content map.old) commands.items replies.items (M.content map.new)) }
{
    run(alloc, map, commands, look, keep, make).ok()
}

// Runs commands whose look-ups show the values themselves.
fn run_detaching_shown<M, L, P, N>(
    alloc: Global,
    map: &mut M,
    commands: Vec<Detachable>,
    look: L,
    keep: P,
    make: N,
) -> Option<Vec<LineReply>>
where
    M: Detaching<DefaultKey, i32>,
    L: Fn(&i32) -> i32 + Drop,
    P: Fn(DefaultKey, &mut i32) -> bool + Drop,
    N: Fn(DefaultKey) -> Result<i32, OutOfMemory> + Drop,
    requires looks { L.IsAlwaysCallable look }
    requires keeps { P.IsAlwaysCallable keep }
    requires makes { N.IsAlwaysCallable make }
    requires shows { (value shown : ℤ) → FnReturnsAt L.Fn look value shown → shown ≡ value }
    ensures { IfSome result (λ replies. Answers DetachStep M.REUSES (M.content map.old) commands.items replies.items (M.content map.new)) }
{
    run_detaching(alloc, map, commands, look, keep, make).ok()
}

// What a `get` shows of a value.
fn look(value: &i32) -> i32
    ensures { result ≡ value.now }
{
    *value
}

// No line needs these two closures.
fn keep(_key: DefaultKey, _value: &mut i32) -> bool {
    true
}

fn make(_key: DefaultKey) -> Result<i32, OutOfMemory> {
    Err(OutOfMemory)
}

#[inline(always)]
fn detachable(words: &[&str]) -> Option<Detachable>
    ensures { result ≡ detachable_of (map (λ word. word.now) words.now) }
{
    match words {
        [name] => Some(DetachCommand::Plain(plain_word(name)?)),
        [name, word] => detachable_pair(name, word),
        [name, word, value] => reattach(name, word, value),
        _ => None,
    }
}

#[inline(always)]
fn detachable_pair(name: &str, word: &str) -> Option<Detachable>
    ensures { result ≡ detachable_of (name.now ∷ word.now ∷ []) }
{
    match name {
        "detach" => Some(DetachCommand::Detach(key(word)?)),
        _ => Some(DetachCommand::Plain(plain_pair(name, word)?)),
    }
}

fn reattach(name: &str, word: &str, value: &str) -> Option<Detachable>
    ensures { result ≡ detachable_of (name.now ∷ word.now ∷ value.now ∷ []) }
{
    match name {
        "reattach" => Some(DetachCommand::Reattach(key(word)?, number(value)?)),
        _ => None,
    }
}

fn plain(words: &[&str]) -> Option<Plain>
    ensures { result ≡ plain_of (map (λ word. word.now) words.now) }
{
    match words {
        [name] => plain_word(name),
        [name, word] => plain_pair(name, word),
        _ => None,
    }
}

fn plain_word(name: &str) -> Option<Plain>
    ensures { result ≡ plain_of (name.now ∷ []) }
{
    match name {
        "len" => Some(Command::Len),
        "keys" => Some(Command::Keys),
        "clear" => Some(Command::Clear),
        _ => None,
    }
}

#[inline(always)]
fn plain_pair(name: &str, word: &str) -> Option<Plain>
    ensures { result ≡ plain_of (name.now ∷ word.now ∷ []) }
{
    match name {
        "insert" => Some(Command::Insert(number(word)?)),
        "get" => Some(Command::Get(key(word)?)),
        "remove" => Some(Command::Remove(key(word)?)),
        _ => None,
    }
}

// Reads a key, which is one number of digits alone.
fn key(word: &str) -> Option<DefaultKey>
    ensures { result ≡ word_key word.now }
{
    Some(DefaultKey::from(KeyData::from_ffi(numeral(word)?)))
}

// Reads a number of digits alone.
fn numeral(word: &str) -> Option<u64>
    ensures { result ≡ numeral_below (2 ^ 64) word.now }
{
    if !word.bytes().all(|byte| byte.is_ascii_digit()) {
        return None;
    }
    word.parse().ok()
}

// Reads a number without a plus sign.
fn number(word: &str) -> Option<i32>
    ensures { result ≡ word_number word.now }
{
    if word.starts_with('+') {
        return None;
    }
    word.parse().ok()
}
