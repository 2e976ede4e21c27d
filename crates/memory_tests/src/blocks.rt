//! A file of 64 blocks that is cut and written, and put back.
ghost use Rattle.std.specs.Prelude.{◌≡◌, ◌<◌, ◌*◌, IfOk, OnErr};
ghost use Rattle.sk_changes.specs.Changes.{CanUndo, value_undone};

use crate::sights::begins;
use sk_changes::{Change, Invertible, NotApplied, Undo};
use sk_ids::Text;
use sk_objects::{Kind, Value};
use std::alloc::{AllocError, Global};
use std::io::Write;
use tests_support::finding::Finding;

/// How many blocks a file has at most.
const BLOCKS: u8 = 64;
/// The length of a block, in bytes.
const BLOCK: u32 = 512;

fn empty_file(alloc: Global) -> Result<Value, AllocError> {
    match Value::empty(alloc, Kind::File) {
        Ok(value) => Ok(value),
        Err(AllocError) => Value::empty(alloc, Kind::File),
    }
}

/// Makes a change that fits, and makes it again where memory was wanted and the size is as it was.
fn changes(alloc: Global, value: &mut Value, change: &Change) -> Result<Undo, Finding>
    ensures ok { IfOk result
        (λ undo. CanUndo value.new undo × (value_undone value.new undo ≡ value.old)) }
    ensures err { OnErr result (value.new ≡ value.old) }
{
    let size = value.size();
    match value.apply(alloc, *change) {
        Ok(undo) => return Ok(undo),
        Err(NotApplied::Memory) => {}
        Err(NotApplied::Unfit) => return Err(Finding::Changed),
    }
    if value.size() != size {
        return Err(Finding::Changed);
    }
    match value.apply(alloc, *change) {
        Ok(undo) => Ok(undo),
        Err(_) => Err(Finding::Memory(AllocError)),
    }
}

fn written(alloc: Global, value: &mut Value, offset: u32, bytes: &[u8]) -> Result<Undo, Finding>
    ensures ok { IfOk result
        (λ undo. CanUndo value.new undo × (value_undone value.new undo ≡ value.old)) }
    ensures err { OnErr result (value.new ≡ value.old) }
{
    let bytes = Text::new(bytes).ok_or(Finding::Changed)?;
    changes(alloc, value, &Change::WriteAt { offset, bytes })
}

/// Fills a block of a file, at this place from 0 on, with 512 times the byte behind its place.
fn fill_block(alloc: Global, value: &mut Value, place: u8) -> Result<(), Finding>
    requires { place < 64 }
{
    let block = [place + 1; BLOCK as usize];
    let _undo = written(alloc, value, u32::from(place) * BLOCK, &block)?;
    Ok(())
}

/// Fills each block of a file.
fn fill(alloc: Global, value: &mut Value) -> Result<(), Finding> {
    for place in 0..BLOCKS {
        fill_block(alloc, value, place)?;
    }
    Ok(())
}

/// Whether a block is as it was filled.
fn is_filled_block(value: &Value, place: u8) -> bool
    requires { place < 64 }
{
    let block = [place + 1; BLOCK as usize];
    let offset = u64::from(place) * u64::from(BLOCK);
    value.bytes_at(offset, BLOCK as usize) == Text::new(&block)
}

/// Fine where the file is as it was filled.
fn is_filled(value: &Value) -> Result<(), Finding> {
    for place in 0..BLOCKS {
        if !is_filled_block(value, place) {
            return Err(Finding::Changed);
        }
    }
    match value.size() {
        Some(32_768) => Ok(()),
        _ => Err(Finding::Changed),
    }
}

/// Tells the size of a file.
fn tells<W: Write>(what: &str, value: &Value, out: &mut W) -> Result<(), Finding> {
    let size = value.size().unwrap_or(1);
    writeln!(out, "{what}, {size} bytes")?;
    Ok(())
}

/// Tells the size of a file, and that a call begins.
fn tells_before<W: Write>(what: &str, value: &Value, out: &mut W) -> Result<(), Finding> {
    tells(what, value, out)?;
    begins(out)
}

/// The file is cut to nothing, and that is taken back.
fn cut_and_restored<W: Write>(
    alloc: Global,
    value: &mut Value,
    out: &mut W,
) -> Result<(), Finding> {
    let undo = changes(alloc, value, &Change::CutTo(0))?;
    let told = tells_before("1 cut", value, out);
    value.undo(undo);
    told?;
    tells("2 restored", value, out)?;
    is_filled(value)
}

/// Fine where a file has only zeros from the cut on to where it was written.
fn is_cut(value: &Value) -> Result<(), Finding> {
    if value.bytes_at(700, 300) == Text::new(&[0; 300]) {
        Ok(())
    } else {
        Err(Finding::Changed)
    }
}

/// A file that was cut is written behind the cut, and that is taken back.
fn written_behind<W: Write>(alloc: Global, value: &mut Value, out: &mut W) -> Result<(), Finding>
    ensures { value.new ≡ value.old }
{
    let write = written(alloc, value, 1_000, b"q")?;
    let cut = is_cut(value);
    let told = tells_before("3 written", value, out);
    value.undo(write);
    cut?;
    told
}

/// The file is cut and written behind the cut, and both are taken back.
fn written_and_restored<W: Write>(
    alloc: Global,
    value: &mut Value,
    out: &mut W,
) -> Result<(), Finding> {
    let cut = changes(alloc, value, &Change::CutTo(700))?;
    let told = written_behind(alloc, value, out);
    value.undo(cut);
    told?;
    tells("4 restored", value, out)?;
    is_filled(value)
}

/// Cuts and writes of a file, each taken back.
fn plays_filled<W: Write>(alloc: Global, value: &mut Value, out: &mut W) -> Result<(), Finding> {
    fill(alloc, value)?;
    is_filled(value)?;
    cut_and_restored(alloc, value, out)?;
    written_and_restored(alloc, value, out)
}

/// Cuts and writes of a file of 64 blocks, each taken back.
pub fn plays_blocks<W: Write>(alloc: Global, out: &mut W) -> Result<(), Finding> {
    let mut value = empty_file(alloc)?;
    plays_filled(alloc, &mut value, out)
}
