//! JSON of keys and of lists of slots, at the smallest lists.

ghost use Rattle.std.specs.Prelude.{◌≡◌, [], Ok, Err, IfSome, IfErr, IsOk};
ghost use Rattle.serde_json.specs.Data.{null};
ghost use Rattle.serde_json.specs.View.{view};
ghost use Rattle.slotmap_core.specs.declared.errors.JsonError.TheVariants.{Shape};

use serde_json::Value;
use slotmap_core::errors::{JsonError, OutOfMemory};
use slotmap_core::keys::DefaultKey;
use slotmap_core::serial::SlotRecord;
use slotmap_json::{key_from_value, key_to_value, slots_from_value, slots_to_value};
use std::alloc::Global;

/// A key is read from the JSON that was written for it.
pub fn key_is_read_as_it_was_written(
    alloc: Global,
    key: DefaultKey,
) -> Option<Result<DefaultKey, JsonError>>
    // Holds by `value` of `key_to_value` and `ok` of `key_from_value`.
    ensures { IfSome result (λ read. read ≡ Ok key) }
{
    let Ok(value) = key_to_value(alloc, key) else {
        return None;
    };
    Some(key_from_value(&value))
}

/// No key is read from `null`.
pub fn no_key_is_read_from_null(value: &Value) -> Result<DefaultKey, JsonError>
    requires { view value.now ≡ null }
    // Holds by `ok` and `err` of `key_from_value`.
    ensures { result ≡ Err Shape }
{
    key_from_value(value)
}

fn null_of(value: &u64) -> Result<Value, OutOfMemory> {
    Ok(Value::from(*value))
}

fn number_of(value: &Value) -> Result<u64, JsonError> {
    value.as_u64().ok_or(JsonError::Shape)
}

/// A list without slots asks for no memory.
pub fn empty_list_is_written(alloc: Global, list: &[SlotRecord<u64>]) -> Result<Value, OutOfMemory>
    requires { list.now ≡ [] }
    // Holds by `err` of `slots_to_value`.
    ensures { IsOk result }
{
    slots_to_value(alloc, list, null_of)
}

/// No list is read from `null`.
pub fn no_list_is_read_from_null(
    alloc: Global,
    value: &Value,
) -> Result<Vec<SlotRecord<u64>>, JsonError>
    requires { view value.now ≡ null }
    // Holds by `ok` and `err` of `slots_from_value`.
    ensures { IfErr result (λ error. error ≡ Shape) }
{
    slots_from_value(alloc, value, number_of)
}
