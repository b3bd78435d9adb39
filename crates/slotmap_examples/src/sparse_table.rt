//! A side table for few keys. Its clauses are those of the other one; an `insert` allocates only
//! if nothing is at the key's index, and never fails while there is room.

ghost use Rattle.std.specs.Prelude.{◌≡◌, ◌≢◌, ◌<◌, Some, true};
ghost use Rattle.std.specs.FinMap as map;
ghost use Rattle.slotmap.specs.Words.{Key as KeyOf, get, entry, has_entry};

use slotmap::{DefaultKey, SparseSecondaryMap};

/// Puts a mark beside a key in a table that has room, and returns the old one.
#[tactic(auto, using(slotmap::proofs::Callers::secondary))]
pub fn mark(
    marks: &mut SparseSecondaryMap<DefaultKey, u32>,
    key: DefaultKey,
    mark: u32,
) -> Option<u32>
    requires newest { has_entry (entry marks.old.pairs key) ≡ true }
    requires room { map.len marks.old.pairs < marks.old.capacity }
    ensures before { result ≡ get marks.old.pairs key }
    ensures there { get marks.new.pairs key ≡ Some mark }
    ensures others { (q : KeyOf) → q.index ≢ key.index → get marks.new.pairs q ≡ get marks.old.pairs q }
{
    match marks.insert(key, mark) {
        Ok(before) => before,
        Err(_) => unreachable!(),
    }
}
