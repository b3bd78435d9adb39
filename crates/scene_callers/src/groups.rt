//! A scene whose nodes are put under a new root.

ghost use Rattle.std.specs.Prelude.{◌≡◌, ◌≢◌, Some, IfOk, [], ◌∷◌};
ghost use Rattle.slotmap_scene.specs.Climb.{parent_of};
ghost use Rattle.slotmap_scene.specs.Family.{children_of};

use slotmap::{DefaultKey, InsertError};
use slotmap_scene::{ReparentError, Scene};
use thiserror::Error;

/// Why there is no group.
#[derive(Debug, Drop, Error)]
pub enum GroupError {
    #[error("no root: {0}")]
    Root(#[from] InsertError<u64>),
    #[error("not moved: {0}")]
    Move(#[from] ReparentError),
}

/// Puts two nodes, with all that is below them, under a new root.
#[tactic(auto, using(slotmap::proofs::Callers::keys, slotmap_scene::proofs::Callers::families))]
pub fn group(
    scene: &mut Scene<DefaultKey, u64>,
    a: DefaultKey,
    b: DefaultKey,
) -> Result<DefaultKey, GroupError>
    requires { a ≢ b }
    ensures first { IfOk result (λ root. parent_of scene.new.nodes.live a ≡ Some root) }
    ensures second { IfOk result (λ root. parent_of scene.new.nodes.live b ≡ Some root) }
    ensures children { IfOk result (λ root. children_of scene.new.nodes.live root ≡ a ∷ b ∷ []) }
{
    let root = scene.add_root(0)?;
    scene.reparent(a, root)?;
    scene.reparent(b, root)?;
    Ok(root)
}
