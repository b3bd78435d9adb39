//! Guards of what several maps have in common, each written once.
//!
//! A guard of a call of `Primary`, `Detaching` or `Secondary` holds of each map that has the trait: a
//! clause of the map that says less than the trait's is refused in the crate of the map. Calls that
//! maps share and no trait has are methods of `Calls` or `SideCalls`: each map's call is proved to do
//! what the method says.

pub mod calls;
pub mod primary;
pub mod secondary;
pub mod side_calls;
