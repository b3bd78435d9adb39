//! A side table: notes beside the values of a primary map, under the same keys.

ghost use Rattle.std.specs.Prelude.{◌≡◌, ◌≢◌, IfOk, OnOk, OnErr, None, Some, true};
ghost use Rattle.slotmap.specs.Words.{Key as KeyOf, get, entry, has_entry, remove};

use slotmap::{DefaultKey, PutError, SecondaryMap};

/// Puts a note beside a key, and returns the old one.
#[tactic(auto, using(slotmap::proofs::Callers::secondary))]
pub fn note(
    notes: &mut SecondaryMap<DefaultKey, u32>,
    key: DefaultKey,
    text: u32,
) -> Result<Option<u32>, PutError<u32>>
    requires newest { has_entry (entry notes.old.pairs key) ≡ true }
    ensures before { IfOk result (λ before. before ≡ get notes.old.pairs key) }
    ensures there { OnOk result (get notes.new.pairs key ≡ Some text) }
    ensures others { (q : KeyOf) → q.index ≢ key.index → get notes.new.pairs q ≡ get notes.old.pairs q }
    ensures unchanged { OnErr result (notes.new ≡ notes.old) }
{
    notes.insert(key, text)
}

/// Puts a note beside a key whose slot another key had before: the other's note is removed.
#[tactic(auto, using(slotmap::proofs::Callers::secondary))]
pub fn note_again(
    notes: &mut SecondaryMap<DefaultKey, u32>,
    key: DefaultKey,
    text: u32,
) -> Result<(), PutError<u32>>
    requires newest { has_entry (entry notes.old.pairs key) ≡ true }
    ensures { OnOk result ((q : KeyOf) → q.index ≡ key.index → q.version ≢ key.version → get notes.new.pairs q ≡ None) }
{
    notes.insert(key, text)?;
    Ok(())
}

/// Takes the note beside a key out, and leaves every other one.
#[tactic(auto, using(slotmap::proofs::Callers::secondary))]
pub fn forget_note(notes: &mut SecondaryMap<DefaultKey, u32>, key: DefaultKey) -> Option<u32>
    ensures value { result ≡ get notes.old.pairs key }
    ensures gone { get notes.new.pairs key ≡ None }
    ensures others { (q : KeyOf) → q.index ≢ key.index → get notes.new.pairs q ≡ get notes.old.pairs q }
{
    notes.remove(key)
}
