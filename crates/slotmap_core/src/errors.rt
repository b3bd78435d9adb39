//! The errors of the maps.
//!
//! A call that fails leaves the contents of the map unchanged. (`extend` and `extend_refs` of the
//! secondary maps keep what they put before memory ran out.) A value that was to be stored is returned
//! in the error. A closure, a list, and the pairs that `from_iter` had put are dropped. An older key
//! that a sparse entry removed stays removed. Each type is an `Error` with a short
//! message, so `?` passes it on, to `anyhow` too.

ghost use Rattle.std.specs.Prelude.{◌≡◌};
ghost use Rattle.slotmap_core.specs.Words.{uninserted, unattached, with_uninserted, with_unattached};
ghost use Rattle.slotmap_core.specs.declared.errors.JsonError.TheVariants.{Memory as JsonMemory};
ghost use Rattle.slotmap_core.specs.declared.errors.SlotsError.TheVariants.{Memory as SlotsMemory};

use std::alloc::{AllocError, AllocFailed};
use std::fmt::Display;
use thiserror::Error;

/// Memory ran out.
///
/// ```
/// assert_eq!(rt; format!(in alloc; "{OutOfMemory}")?.as_str(), "out of memory");
/// ```
#[derive(Debug, Drop, Error)]
#[error("out of memory")]
pub struct OutOfMemory;

/// The error of an insert, with the value.
///
/// ```
/// let error = InsertError::Full(5);
/// assert_eq!(rt; format!(in alloc; "{error}")?.as_str(), "full");
/// assert!(rt; matches!(error, InsertError::Full(5)));
/// ```
#[derive(Debug, Drop, Error)]
pub enum InsertError<V> {
    /// 4294967294 keys are live, detached or retired, as many as a map can have.
    #[error("full")]
    Full(V),
    /// Memory ran out for one more slot.
    #[error("out of memory")]
    Memory(V),
}

/// The error of an insert by a closure that returns a value. The closure wasn't called.
///
/// ```
/// assert_eq!(rt; format!(in alloc; "{}", InsertWithError::Full)?.as_str(), "full");
/// ```
#[derive(Debug, Drop, Error)]
pub enum InsertWithError {
    /// 4294967294 keys are live, detached or retired, as many as a map can have.
    #[error("full")]
    Full,
    /// Memory ran out for one more slot.
    #[error("out of memory")]
    Memory,
}

/// The error of an insert by a closure that may fail. Only for `Closure` was the closure called.
///
/// ```
/// let error: TryInsertError<&str> = TryInsertError::Closure("not now");
/// assert_eq!(rt; format!(in alloc; "{error}")?.as_str(), "not now");
/// ```
#[derive(Debug, Drop, Error)]
#[error_bound(E: Display)]
pub enum TryInsertError<E> {
    /// 4294967294 keys are live, detached or retired, as many as a map can have.
    #[error("full")]
    Full,
    /// Memory ran out for one more slot.
    #[error("out of memory")]
    Memory,
    /// The closure's own error. Its message is the message of this one.
    #[error("{0}")]
    Closure(E),
}

/// The error of `reattach`, with the value.
///
/// ```
/// let mut map: SlotMap<DefaultKey, u64> = SlotMap::new(alloc)?;
/// let key = map.insert(5)?;
/// assert!(rt; matches!(map.reattach(key, 6), Err(ReattachError::NotDetached(6))));
/// ```
#[derive(Debug, Drop, Error)]
pub enum ReattachError<V> {
    /// The key isn't detached in this map.
    #[error("not detached")]
    NotDetached(V),
    /// Memory ran out for the value.
    #[error("out of memory")]
    Memory(V),
}

/// The error of a call that reserves room.
///
/// ```
/// let mut map: SlotMap<DefaultKey, u64> = SlotMap::new(alloc)?;
/// assert!(rt; matches!(map.reserve(4294967295), Err(ReserveError::TooGreat)));
/// ```
#[derive(Debug, Drop, Error)]
pub enum ReserveError {
    /// The room is for more keys than a map can have.
    #[error("too great")]
    TooGreat,
    /// Memory ran out for that much room.
    #[error("out of memory")]
    Memory,
}

/// The error of an insert into a secondary map, with the value. Memory ran out.
///
/// ```
/// assert_eq!(rt; format!(in alloc; "{}", PutError(5))?.as_str(), "out of memory");
/// ```
#[derive(Debug, Drop, Error)]
#[error("out of memory")]
pub struct PutError<V>(pub V);

/// The error of a list of slots that isn't read as a map.
///
/// ```
/// let error = SlotsError::Inconsistent(3);
/// assert_eq!(rt; format!(in alloc; "{error}")?.as_str(), "inconsistent 3");
/// ```
#[derive(Debug, Drop, Error)]
pub enum SlotsError {
    /// The list has as many slots as the limit, or more.
    #[error("too many")]
    TooMany,
    /// The list is empty, or its first version is odd.
    #[error("first not empty")]
    FirstNotEmpty,
    /// The first position with a value and an even version, or with no value and an odd version.
    #[error("inconsistent {0}")]
    Inconsistent(usize),
    /// Memory ran out for the map.
    #[error("out of memory")]
    Memory,
}

/// The error of JSON that isn't read as a key or as a list of slots.
///
/// ```
/// let value = Value::from_str(alloc, "[1, 2]")?;
/// let key: Result<DefaultKey, JsonError> = key_from_value(&value);
/// assert!(rt; matches!(key, Err(JsonError::Shape)));
/// ```
#[derive(Debug, Drop, Error)]
pub enum JsonError {
    /// The JSON has another form.
    #[error("shape")]
    Shape,
    /// Memory ran out for the result.
    #[error("out of memory")]
    Memory,
}

impl<V> InsertError<V> {
    /// Returns the value that was to be inserted.
    ///
    /// Constant time.
    ///
    /// ```
    /// assert_eq!(rt; InsertError::Full(5).into_inner(), 5);
    /// ```
    pub fn into_inner(self) -> V
        ensures { result ≡ uninserted self }
    {
        match self {
            InsertError::Full(value) => value,
            InsertError::Memory(value) => value,
        }
    }

    /// Changes the value in the error by a closure, and keeps the cause: for a type that
    /// stores the caller's value inside one of its own.
    ///
    /// One call of the closure.
    ///
    /// ```
    /// let error = InsertError::Full((5, "five")).map(|pair| pair.0);
    /// assert!(rt; matches!(error, InsertError::Full(5)));
    /// ```
    pub fn map<W, F: FnOnce(V) -> W>(self, f: F) -> InsertError<W>
        requires { F.pre f (uninserted self) }
        ensures { (w : W) × F.post f (uninserted self) w × (result ≡ with_uninserted self w) }
    {
        match self {
            InsertError::Full(value) => InsertError::Full(f(value)),
            InsertError::Memory(value) => InsertError::Memory(f(value)),
        }
    }
}

impl<V> ReattachError<V> {
    /// Returns the value that was to be bound to the key again.
    ///
    /// Constant time.
    ///
    /// ```
    /// assert_eq!(rt; ReattachError::NotDetached(5).into_inner(), 5);
    /// ```
    pub fn into_inner(self) -> V
        ensures { result ≡ unattached self }
    {
        match self {
            ReattachError::NotDetached(value) => value,
            ReattachError::Memory(value) => value,
        }
    }

    /// Changes the value in the error by a closure, and keeps the cause.
    ///
    /// One call of the closure.
    ///
    /// ```
    /// let error = ReattachError::NotDetached((5, "five")).map(|pair| pair.0);
    /// assert!(rt; matches!(error, ReattachError::NotDetached(5)));
    /// ```
    pub fn map<W, F: FnOnce(V) -> W>(self, f: F) -> ReattachError<W>
        requires { F.pre f (unattached self) }
        ensures { (w : W) × F.post f (unattached self) w × (result ≡ with_unattached self w) }
    {
        match self {
            ReattachError::NotDetached(value) => ReattachError::NotDetached(f(value)),
            ReattachError::Memory(value) => ReattachError::Memory(f(value)),
        }
    }
}

impl<V> PutError<V> {
    /// Changes the value in the error by a closure. The value itself is the field `0`.
    ///
    /// One call of the closure.
    ///
    /// ```
    /// assert_eq!(rt; PutError((5, "five")).map(|pair| pair.0).0, 5);
    /// ```
    pub fn map<W, F: FnOnce(V) -> W>(self, f: F) -> PutError<W>
        requires { F.pre f self.0 }
        ensures { F.post f self.0 result.0 }
    {
        PutError(f(self.0))
    }
}

impl From<AllocError> for OutOfMemory {
    fn from(_error: AllocError) -> OutOfMemory {
        OutOfMemory
    }
}

impl From<AllocError> for ReserveError {
    ghost use Rattle.slotmap_core.specs.declared.errors.ReserveError.TheVariants as reserve;

    ghost from_gives = { λ _ error. error ≡ reserve.Memory };

    fn from(_error: AllocError) -> ReserveError {
        ReserveError::Memory
    }
}

impl<T: Drop> From<AllocFailed<T>> for OutOfMemory {
    fn from(_error: AllocFailed<T>) -> OutOfMemory {
        OutOfMemory
    }
}

impl From<AllocError> for SlotsError {
    ghost from_gives = { λ _ error. error ≡ SlotsMemory };

    fn from(_error: AllocError) -> SlotsError {
        SlotsError::Memory
    }
}

impl<T: Drop> From<AllocFailed<T>> for SlotsError {
    ghost from_gives = { λ _ error. error ≡ SlotsMemory };

    fn from(_error: AllocFailed<T>) -> SlotsError {
        SlotsError::Memory
    }
}

impl From<AllocError> for JsonError {
    ghost from_gives = { λ _ error. error ≡ JsonMemory };

    fn from(_error: AllocError) -> JsonError {
        JsonError::Memory
    }
}

impl<T: Drop> From<AllocFailed<T>> for JsonError {
    ghost from_gives = { λ _ error. error ≡ JsonMemory };

    fn from(_error: AllocFailed<T>) -> JsonError {
        JsonError::Memory
    }
}
