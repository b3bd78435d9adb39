//! A map from end to end.

use slotmap::{InsertError, ReserveError, SlotMap};
use std::alloc::Global;
use std::io;
use std::io::Print;
use thiserror::Error;

/// Why the tour ended early.
#[derive(Debug, Drop, Error)]
pub enum TourError {
    #[error("no map: {0}")]
    Map(#[from] ReserveError),
    #[error("no slot for a word: {0}")]
    Insert(#[from] InsertError<&'static str>),
    #[error("nothing printed: {0}")]
    Print(#[from] io::Error),
}

/// Two words are stored, and one of them is replaced by a third.
pub fn tour(rt: &impl Print, alloc: Global) -> Result<(), TourError> {
    let mut words = SlotMap::new(alloc)?;
    let river = words.insert("river")?;
    let hill = words.insert("hill")?;
    prove_eq!(words[river], "river");
    prove_eq!(words[hill], "hill");

    // The slot of a removed key is reused, and the key stays stale.
    words.remove(hill);
    let lake = words.insert("lake")?;
    prove!(!words.contains_key(hill));
    prove_eq!(words[lake], "lake");

    for (key, word) in words {
        println!(rt; "{key:?}: {word}")?;
    }
    Ok(())
}
