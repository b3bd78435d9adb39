//! Places of floats in a scene: the parts of an arm, each where it is from the part that it hangs on.

use slotmap::NodeKey;
use slotmap_scene::Scene;
use slotmap_scene::world::{HasTransform, Transform};

/// A shift along two axes.
#[derive(Clone, Copy, Debug)]
pub struct Place {
    /// Along the first.
    pub x: f64,
    /// Along the second.
    pub y: f64,
}

impl Transform for Place {
    ghost use Rattle.std.specs.Float.{binary64};
    ghost use Rattle.std.specs.Float.Ieee.{add};

    ghost under = { λ a b. record { x = add binary64 a.x b.x; y = add binary64 a.y b.y } };

    fn under(&self, parent: &Place) -> Place {
        Place {
            x: self.x + parent.x,
            y: self.y + parent.y,
        }
    }
}

/// A part of an arm.
#[derive(Debug, Drop)]
pub struct Part {
    /// What it is called.
    pub number: u64,
    /// Where it is from the part that it hangs on.
    pub place: Place,
}

impl HasTransform for Part {
    type Transform = Place;

    ghost transform_of = { λ part. part.place };

    fn transform(&self) -> Place {
        self.place
    }
}

/// Where a part is, if it exists.
pub fn place_of(scene: &Scene<NodeKey, Part>, part: NodeKey) -> Option<Place> {
    scene.world_transform(part)
}
