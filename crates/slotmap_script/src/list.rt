//! Maps written as the JSON text of their list of slots, and read from it.

ghost use Rattle.std.specs.Prelude.{◌≡◌, ◌<◌, ◌≤◌, ◌++◌, ◌∷◌, ℕ, ℤ, List, [], Some, option_and_then, OnOk, IfOk, IfErr, ⊤};
ghost use Rattle.std.specs.Io.KnownBytes.{Appends};
ghost use Rattle.serde_json.specs.Find.{as_number, as_i64};
ghost use Rattle.serde_json.specs.View.{view};
ghost use Rattle.slotmap_core.specs.declared.errors.JsonError.TheVariants.{Shape};
ghost use Rattle.slotmap_core.specs.declared.serial.SlotRecord.{SlotRecord};
ghost use Rattle.slotmap_script.specs.Printed.{SlotLists, PrintsSlots, Loads, IsReason};
ghost use Rattle.slotmap_script.specs.StopText.{IsBegun};
ghost use Rattle.slotmap_script.specs.declared.stop.Stop.TheVariants.{Output};
ghost use Rattle.slotmap_script.specs.Kinds.{basic_lists, dense_lists, hop_lists};
ghost use Rattle.slotmap_script.specs.ListText.{slot_text, slots_text, refusal_text, TellsRefusal};

use crate::stop::{Stop, write_text};
use serde::{Deserialize, Deserializer, Format};
use serde_json::Value;
use slotmap_basic::SlotMap;
use slotmap_core::errors::{JsonError, OutOfMemory, SlotsError};
use slotmap_core::keys::DefaultKey;
use slotmap_core::serial::SlotRecord;
use slotmap_dense::DenseSlotMap;
use slotmap_hop::HopSlotMap;
use slotmap_json::slot_from_value;
use std::alloc::Global;
use std::io;
use std::io::Write;

/// A map that can be written as a list of slots and read from one.
pub trait Listed: Sized {
    // The lists that it may be written as, the map that a list may be read as, and why a list isn't read.
    ghost lists: { SlotLists Self } = { record { writes = λ _ _. ⊤; reads = λ _ _. ⊤; refuses = λ _ _. ⊤ } };

    /// The map as a list of slots. It fails only if memory runs out.
    fn to_slots(&self) -> Result<Vec<SlotRecord<i32>>, OutOfMemory>
        ensures { IfOk result (λ slots. lists.writes self.now slots.items) };

    /// The map that a list of slots describes. [`SlotsError`] says why it fails.
    fn from_slots(alloc: Global, list: Vec<SlotRecord<i32>>) -> Result<Self, SlotsError>
        ensures reads { IfOk result (λ made. lists.reads list.items made) }
        ensures err { IfErr result (lists.refuses list.items) };
}

impl Listed for SlotMap<DefaultKey, i32> {
    ghost lists = { basic_lists };

    fn to_slots(&self) -> Result<Vec<SlotRecord<i32>>, OutOfMemory> {
        SlotMap::to_slots(self)
    }

    fn from_slots(alloc: Global, list: Vec<SlotRecord<i32>>) -> Result<Self, SlotsError> {
        SlotMap::from_slots(alloc, list)
    }
}

impl Listed for DenseSlotMap<DefaultKey, i32> {
    ghost lists = { dense_lists };

    fn to_slots(&self) -> Result<Vec<SlotRecord<i32>>, OutOfMemory> {
        DenseSlotMap::to_slots(self)
    }

    fn from_slots(alloc: Global, list: Vec<SlotRecord<i32>>) -> Result<Self, SlotsError> {
        DenseSlotMap::from_slots(alloc, list)
    }
}

impl Listed for HopSlotMap<DefaultKey, i32> {
    ghost lists = { hop_lists };

    fn to_slots(&self) -> Result<Vec<SlotRecord<i32>>, OutOfMemory> {
        HopSlotMap::to_slots(self)
    }

    fn from_slots(alloc: Global, list: Vec<SlotRecord<i32>>) -> Result<Self, SlotsError> {
        HopSlotMap::from_slots(alloc, list)
    }
}

/// Why a map isn't read from a text.
#[derive(Drop)]
pub enum LoadError {
    /// The text isn't JSON, or isn't a list of slots with values of 32 bits; or memory ran out while it
    /// was read.
    Json(JsonError),
    /// The list isn't read as a map: [`SlotsError`] says why.
    Slots(SlotsError),
}

// A list is printed in pieces of about so many bytes.
const PIECE: usize = 8192;

// More bytes than a slot takes as text.
const LONGEST: usize = 64;

/// Prints a map's list of slots as a line of compact JSON, in pieces, or `memory` if there is no memory
/// for the list. It fails with `Output` if the output can't be written.
pub fn write_slots<M: Listed, W: Write>(alloc: Global, map: &M, output: &mut W) -> Result<(), Stop>
    ensures ok { OnOk result ((text : List ℕ) × PrintsSlots M.lists map.now text
        × Appends (W.contents output.old) (W.contents output.new) text) }
    ensures err { IfErr result (λ why. (why ≡ Output) × ((text : List ℕ) × PrintsSlots M.lists map.now text
        × IsBegun text (Appends (W.contents output.old) (W.contents output.new)))) }
{
    let Ok(slots) = map.to_slots() else {
        return write_text(output, b"memory\n");
    };
    let Ok(piece) = Vec::with_capacity(alloc, PIECE + LONGEST) else {
        return write_text(output, b"memory\n");
    };
    write_list(output, &slots, piece)
}

// Prints a list of slots as a line of compact JSON. It gathers each piece of the line in `piece`, which
// is empty and has room for one.
fn write_list<W: Write>(
    output: &mut W,
    slots: &[SlotRecord<i32>],
    piece: Vec<u8>,
) -> Result<(), Stop>
    requires { piece.items ≡ [] }
    ensures ok { OnOk result (Appends (W.contents output.old) (W.contents output.new) (slots_text slots.now)) }
    ensures err { IfErr result (λ why. (why ≡ Output)
        × IsBegun (slots_text slots.now) (Appends (W.contents output.old) (W.contents output.new))) }
{
    let mut piece = piece;
    let Ok(()) = write!(piece, "[") else {
        return Err(Stop::Output);
    };
    for (i, slot) in slots.iter().enumerate() {
        let Ok(()) = add_slot(&mut piece, i, slot) else {
            return Err(Stop::Output);
        };
        pass_on(output, &mut piece)?;
    }
    let Ok(()) = writeln!(piece, "]") else {
        return Err(Stop::Output);
    };
    write_text(output, &piece)
}

// Adds the slot at a position of a list, after a comma if it isn't the first.
fn add_slot(piece: &mut Vec<u8>, position: usize, slot: &SlotRecord<i32>) -> io::Result<()>
    ensures first { OnOk result (position ≤ 0 → piece.new.items ≡ piece.old.items ++ slot_text slot.now) }
    ensures next { OnOk result (0 < position → piece.new.items ≡ piece.old.items ++ (44 ∷ slot_text slot.now)) }
{
    if position > 0 {
        write!(piece, ",")?;
    }
    write_slot(piece, slot)
}

// Writes a piece that is long enough, and empties it.
fn pass_on<W: Write>(output: &mut W, piece: &mut Vec<u8>) -> Result<(), Stop>
    ensures ok { OnOk result ((gone : List ℕ) × Appends (W.contents output.old) (W.contents output.new) gone
        × (piece.old.items ≡ gone ++ piece.new.items)) }
    ensures err { IfErr result (λ why. (why ≡ Output)
        × IsBegun piece.old.items (Appends (W.contents output.old) (W.contents output.new))) }
{
    if piece.len() >= PIECE {
        write_text(output, piece)?;
        piece.clear();
    }
    Ok(())
}

fn write_slot<W: Write>(output: &mut W, slot: &SlotRecord<i32>) -> io::Result<()>
    ensures { OnOk result (Appends (W.contents output.old) (W.contents output.new) (slot_text slot.now)) }
{
    let version = slot.version;
    match slot.value {
        Some(value) => write!(output, "{{\"value\":{value},\"version\":{version}}}"),
        None => write!(output, "{{\"value\":null,\"version\":{version}}}"),
    }
}

/// Replaces the map by the one that the text describes, and prints `done`. If no map is read, the old
/// one stays, and the reason is printed, or `memory` if there is no memory for that line. It fails
/// with `Output` if the output can't be written; the map may be the new one then.
pub fn load<M: Listed + Drop, W: Write>(
    alloc: Global,
    map: &mut M,
    text: &str,
    output: &mut W,
) -> Result<(), Stop>
    ensures ok { OnOk result ((text : List ℕ) × Loads M.lists map.old text map.new
        × Appends (W.contents output.old) (W.contents output.new) text) }
    ensures err { IfErr result (λ why. (why ≡ Output) × ((text : List ℕ) × (new : M) × Loads M.lists map.old text new
        × IsBegun text (Appends (W.contents output.old) (W.contents output.new)))) }
{
    match read_map(alloc, text) {
        Ok(read) => {
            *map = read;
            write_text(output, b"done\n")
        }
        Err(error) => tell_refusal(alloc, output, &error),
    }
}

// Prints why a map wasn't read, or `memory` if there is no memory for that line.
fn tell_refusal<W: Write>(alloc: Global, output: &mut W, error: &LoadError) -> Result<(), Stop>
    ensures ok { OnOk result ((text : List ℕ) × TellsRefusal error.now text
        × Appends (W.contents output.old) (W.contents output.new) text) }
    ensures err { IfErr result (λ why. (why ≡ Output) × ((text : List ℕ) × TellsRefusal error.now text
        × IsBegun text (Appends (W.contents output.old) (W.contents output.new)))) }
{
    let mut text = Vec::new(alloc);
    match write_refusal(&mut text, error) {
        Ok(()) => write_text(output, &text),
        Err(_) => write_text(output, b"memory\n"),
    }
}

fn read_map<M: Listed>(alloc: Global, text: &str) -> Result<M, LoadError>
    ensures ok { IfOk result (λ made. (slots : List (SlotRecord ℤ)) × M.lists.reads slots made) }
    ensures err { IfErr result (IsReason M.lists) }
{
    match read_slots(alloc, text) {
        Ok(slots) => M::from_slots(alloc, slots).map_err(LoadError::Slots),
        Err(error) => Err(LoadError::Json(error)),
    }
}

fn read_slots(alloc: Global, text: &str) -> Result<Vec<SlotRecord<i32>>, JsonError> {
    match serde_json::from_str::<SlotList>(alloc, text) {
        Ok(list) => Ok(list.slots),
        Err(error) if error.is_memory() => Err(JsonError::Memory),
        Err(_) => Err(JsonError::Shape),
    }
}

/// The slots of a JSON text. It is read record by record, so one record at a time is a JSON value.
#[derive(Drop)]
struct SlotList {
    slots: Vec<SlotRecord<i32>>,
}

impl<'de> Deserialize<'de> for SlotList {
    fn deserialize<F: Format>(
        alloc: Global,
        from: &mut Deserializer<'de, '_, F>,
    ) -> Result<SlotList, F::Error> {
        from.begin_seq()?;
        let mut slots = Vec::new(alloc);
        // It ends at the end of the array, or at the first error.
        for _ in 0..u64::MAX {
            if !from.next_item()? {
                break;
            }
            let record: Value = Deserialize::deserialize(alloc, from)?;
            let Ok(slot) = slot_from_value(&record, &read_value) else {
                return Err(from.invalid());
            };
            if slots.push(slot).is_err() {
                return Err(from.no_memory());
            }
        }
        Ok(SlotList { slots })
    }
}

// Reads a number of 32 bits.
fn read_value(value: &Value) -> Result<i32, JsonError>
    ensures ok { IfOk result (λ number. option_and_then as_i64 (as_number (view value.now)) ≡ Some number) }
    ensures err { IfErr result (λ error. error ≡ Shape) }
{
    let number = value.as_i64().ok_or(JsonError::Shape)?;
    i32::try_from(number).map_err(|_| JsonError::Shape)
}

/// Writes why a map wasn't read.
pub fn write_refusal<W: Write>(output: &mut W, error: &LoadError) -> io::Result<()>
    ensures { OnOk result (Appends (W.contents output.old) (W.contents output.new) (refusal_text error.now)) }
{
    match error {
        LoadError::Json(JsonError::Shape) => writeln!(output, "shape"),
        LoadError::Slots(SlotsError::TooMany) => writeln!(output, "too many"),
        LoadError::Slots(SlotsError::FirstNotEmpty) => writeln!(output, "first not empty"),
        LoadError::Slots(SlotsError::Inconsistent(position)) => {
            writeln!(output, "inconsistent {position}")
        }
        LoadError::Json(JsonError::Memory) | LoadError::Slots(SlotsError::Memory) => {
            writeln!(output, "memory")
        }
    }
}
