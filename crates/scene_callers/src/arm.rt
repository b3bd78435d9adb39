//! An arm of three pieces, each given by its shift from the one that it hangs on.

ghost use Rattle.std.specs.Prelude.{◌≡◌, ◌+ℤ◌, Some, IfOk};
ghost use Rattle.std.specs.Int.{int_wrap, w32};

use slotmap::{DefaultKey, InsertError, ReserveError};
use slotmap_scene::world::{Offset, Transform};
use slotmap_scene::{AddError, Scene};
use std::alloc::Global;
use thiserror::Error;

/// Why there is no arm.
#[derive(Debug, Drop, Error)]
pub enum ArmError {
    #[error("no scene: {0}")]
    Scene(#[from] ReserveError),
    #[error("no first piece: {0}")]
    First(#[from] InsertError<Offset>),
    #[error("no piece: {0}")]
    Piece(#[from] AddError<Offset>),
}

/// Returns where the hand is: its shift, that of the elbow and that of the shoulder add up.
pub fn hand_of_arm(
    alloc: Global,
    shoulder: Offset,
    elbow: Offset,
    hand: Offset,
) -> Result<Option<Offset>, ArmError>
    ensures { IfOk result (λ place. place ≡ Some (record {
      x = int_wrap w32 (hand.x +ℤ elbow.x +ℤ shoulder.x);
      y = int_wrap w32 (hand.y +ℤ elbow.y +ℤ shoulder.y);
    })) }
{
    let mut arm = Scene::new(alloc)?;
    let upper = arm.add_root(shoulder)?;
    let lower = arm.add_child(upper, elbow)?;
    let tip = arm.add_child(lower, hand)?;
    Ok(arm.world(tip))
}

/// Moves the hand to another piece of its arm, and returns where it is then.
///
/// It keeps its own shift, and is then under that piece, which stays where it was.
pub fn move_hand(
    arm: &mut Scene<DefaultKey, Offset>,
    hand: DefaultKey,
    piece: DefaultKey,
) -> Option<Offset> {
    let shift = *arm.get(hand)?;
    let base = arm.world(piece)?;
    let Ok(()) = arm.reparent(hand, piece) else {
        return None;
    };
    let place = arm.world(hand)?;
    prove_eq!(place, shift.under(&base));
    Some(place)
}
