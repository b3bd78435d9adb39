//! A key, a list of slots and a map that are written as JSON and read again.

ghost use Rattle.std.specs.Prelude.{◌≡◌, IfOk, IfSome, Ok};
ghost use Rattle.serde_json.specs.Data.{number, unsigned};
ghost use Rattle.serde_json.specs.Find.{as_number, as_u64};
ghost use Rattle.serde_json.specs.View.{view};
ghost use Rattle.std.specs.Result.{result_ok};
ghost use Rattle.std.specs.Option.{option_and_then};
ghost use Rattle.slotmap.specs.Words.{Restores};

use serde_json::Value;
use slotmap::{
    DefaultKey, JsonError, OutOfMemory, SlotMap, SlotRecord, key_from_value, key_to_value,
    slots_from_value, slots_to_value,
};
use std::alloc::Global;

/// Writes a key as JSON, and reads it again.
pub fn key_through_json(alloc: Global, key: DefaultKey) -> Option<Result<DefaultKey, JsonError>>
    ensures same { IfSome result (λ read. read ≡ Ok key) }
{
    let Ok(value) = key_to_value(alloc, key) else {
        return None;
    };
    let read = key_from_value(&value);
    Some(read)
}

/// The JSON of a value.
fn number_to_value(value: &u64) -> Result<Value, OutOfMemory>
    ensures { IfOk result (λ written. view written ≡ number (unsigned value.now)) }
{
    Ok(Value::from(*value))
}

/// Reads a value from JSON.
fn number_from_value(value: &Value) -> Result<u64, JsonError>
    ensures { result_ok result ≡ option_and_then as_u64 (as_number (view value.now)) }
{
    value.as_u64().ok_or(JsonError::Shape)
}

/// Writes a list of slots as JSON, and reads it again.
pub fn list_through_json(alloc: Global, list: &[SlotRecord<u64>]) -> Option<Vec<SlotRecord<u64>>>
    ensures same { IfSome result (λ read. read.items ≡ list.now) }
{
    let Ok(value) = slots_to_value(alloc, list, number_to_value) else {
        return None;
    };
    let Ok(read) = slots_from_value(alloc, &value, number_from_value) else {
        return None;
    };
    Some(read)
}

/// Writes a map as JSON, and makes one of it again. The live keys and their values are the same;
/// what was detached is gone.
pub fn map_through_json(
    alloc: Global,
    store: &SlotMap<DefaultKey, u64>,
) -> Option<SlotMap<DefaultKey, u64>>
    ensures live { IfSome result (λ read. read.live ≡ store.now.live) }
    ensures restores { IfSome result (Restores store.now) }
{
    let Ok(list) = store.to_slots() else {
        return None;
    };
    let read = list_through_json(alloc, &list)?;
    let Ok(made) = SlotMap::from_slots(alloc, read) else {
        return None;
    };
    Some(made)
}
