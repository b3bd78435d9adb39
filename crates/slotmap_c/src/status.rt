//! What calls return: the numbers that `slotmap.h` names.

/// The call did what it is for.
pub(crate) const OK: u32 = 0;

/// So many keys are over the limit.
pub(crate) const FULL: u32 = 1;

/// Memory ran out.
pub(crate) const NO_MEMORY: u32 = 2;

/// The handle is closed.
pub(crate) const CLOSED: u32 = 3;

/// The handle is open already.
pub(crate) const OPEN: u32 = 4;

/// The key isn't live, or isn't in the side table.
pub(crate) const NOT_LIVE: u32 = 5;

/// The key isn't detached.
pub(crate) const NOT_DETACHED: u32 = 6;

/// No live key comes later.
pub(crate) const NO_MORE: u32 = 7;

/// The key is null, or older than the one at its index.
pub(crate) const NO_ENTRY: u32 = 8;
