//! Results that are numbers or flags.

use crate::maps::write_reserved;
use crate::number::Number;
use crate::stop::Stop;
use crate::texts::write_option;
use slotmap_core::errors::ReserveError;

/// The result of a call, before it is written. So a function with many calls writes only once.
#[derive(Drop)]
pub enum Outcome {
    Number(u64),
    Flag(bool),
    Value(Option<u64>),
    Reserved(Result<(), ReserveError>),
}

impl Outcome {
    /// Writes the result. Fails if memory ran out for the call.
    pub fn write(self, reply: &mut String) -> Result<(), Stop> {
        match self {
            Outcome::Number(number) => write!(reply, "{number}")?,
            Outcome::Flag(flag) => write!(reply, "{flag}")?,
            Outcome::Value(value) => write_option(reply, value)?,
            Outcome::Reserved(reserved) => return write_reserved(reply, reserved),
        }
        Ok(())
    }
}

/// The number of a value that was taken out of its map, and is dropped.
pub fn taken(value: Option<Number<'_>>) -> Option<u64> {
    match value {
        Some(value) => Some(value.value),
        None => None,
    }
}
