//! Places of keys, in the order of their bytes.
ghost use Rattle.std.specs.Prelude.{◌≡◌, ◌∷◌, [], true, None, IfSome, OnErr, OnOk};
ghost use Rattle.sk_commands.specs.Table.{told};
ghost use Rattle.sk_plain_store.specs.Plain.{written_at, written_to};
ghost use Rattle.sk_plain_store.specs.Places.{entries_of, has_place, HavePlaces, KeepsPlaces};

use sk_commands::{ByteString, Writes};
use std::alloc::{AllocError, Global};
use std::collections::BTreeMap;

/// Keys with what they have; with nothing where a place is only held for what is to be written.
pub(crate) type Places = BTreeMap<Vec<u8>, Option<ByteString>>;

/// Holds a place for a key, if it has none.
fn hold(alloc: Global, places: &mut Places, key: &[u8]) -> Result<(), AllocError>
    ensures same { entries_of places.new.entries ≡ entries_of places.old.entries }
    ensures held { OnOk result (has_place places.new.entries key.now ≡ true) }
    ensures keeps { KeepsPlaces places.old.entries places.new.entries }
{
    if places.contains_key(key) {
        return Ok(());
    }
    let copy = Vec::from_slice(alloc, key)?;
    places.insert(copy, None)?;
    Ok(())
}

/// Holds places for all keys that are to be written.
fn hold_all(
    alloc: Global,
    places: &mut Places,
    written: &[(Vec<u8>, Option<ByteString>)],
) -> Result<(), AllocError>
    ensures same { entries_of places.new.entries ≡ entries_of places.old.entries }
    ensures held { OnOk result (HavePlaces (told written.now) places.new.entries) }
{
    for write in written {
        hold(alloc, places, write.0.as_slice())?;
    }
    Ok(())
}

/// A key that has a place gets this.
fn set(places: &mut Places, key: &[u8], value: Option<ByteString>)
    requires { has_place places.old.entries key.now ≡ true }
    ensures written { entries_of places.new.entries
        ≡ written_at key.now value (entries_of places.old.entries) }
    ensures keeps { KeepsPlaces places.old.entries places.new.entries }
{
    if let Some(place) = places.get_mut(key) {
        *place = value;
    }
}

/// Keys that have places get these, one after another. The keys are kept behind the others, if there is room.
fn set_all(places: &mut Places, written: Writes, keys: &mut Vec<Vec<u8>>)
    requires { HavePlaces (told written.items) places.old.entries }
    ensures { entries_of places.new.entries
        ≡ written_to (told written.items) (entries_of places.old.entries) }
{
    for write in written {
        let (key, value) = write;
        set(places, key.as_slice(), value);
        let _kept = keys.push(key);
    }
}

/// Lets the place of a key go, if it was only held and nothing stands there.
fn let_go(places: &mut Places, key: &[u8])
    ensures { entries_of places.new.entries ≡ entries_of places.old.entries }
{
    if let Some(None) = places.get(key) {
        places.remove(key);
    }
}

/// Lets those places of these keys go that were only held.
fn let_go_all(places: &mut Places, keys: &[Vec<u8>])
    ensures { entries_of places.new.entries ≡ entries_of places.old.entries }
{
    for key in keys {
        let_go(places, key.as_slice());
    }
}

/// Lets the places go that were only held for these writes.
fn give_up(places: &mut Places, written: &[(Vec<u8>, Option<ByteString>)])
    ensures { entries_of places.new.entries ≡ entries_of places.old.entries }
{
    for write in written {
        let_go(places, write.0.as_slice());
    }
}

/// Keys get these, one after another, once all have places; without memory nothing has changed.
fn write_all(alloc: Global, places: &mut Places, written: Writes) -> Result<(), AllocError>
    ensures ok { OnOk result (entries_of places.new.entries
        ≡ written_to (told written.items) (entries_of places.old.entries)) }
    ensures err { OnErr result (entries_of places.new.entries ≡ entries_of places.old.entries) }
{
    let mut keys = Vec::with_capacity(alloc, written.len())?;
    if hold_all(alloc, places, written.as_slice()).is_err() {
        give_up(places, written.as_slice());
        return Err(AllocError);
    }
    set_all(places, written, &mut keys);
    let_go_all(places, keys.as_slice());
    Ok(())
}

/// A key gets this; without memory nothing has changed.
fn write_one(places: &mut Places, key: Vec<u8>, value: Option<ByteString>) -> Result<(), AllocError>
    ensures ok { OnOk result (entries_of places.new.entries
        ≡ written_at key.items value (entries_of places.old.entries)) }
    ensures err { OnErr result (entries_of places.new.entries ≡ entries_of places.old.entries) }
{
    let _rising = places.len();
    match value {
        Some(value) => {
            places.insert(key, Some(value))?;
        }
        None => {
            places.remove(key.as_slice());
        }
    }
    Ok(())
}

/// The only write of a list, taken out; `None` where there is none or more than one.
fn take_only(written: &mut Writes) -> Option<(Vec<u8>, Option<ByteString>)>
    ensures only { IfSome result (λ write. written.old.items ≡ write ∷ []) }
    ensures same { result ≡ None → written.new.items ≡ written.old.items }
{
    if written.len() != 1 {
        return None;
    }
    written.pop()
}

/// Keys get these, one after another; without memory nothing has changed.
pub(crate) fn write(
    alloc: Global,
    places: &mut Places,
    mut written: Writes,
) -> Result<(), AllocError>
    ensures ok { OnOk result (entries_of places.new.entries
        ≡ written_to (told written.items) (entries_of places.old.entries)) }
    ensures err { OnErr result (entries_of places.new.entries ≡ entries_of places.old.entries) }
{
    match take_only(&mut written) {
        Some((key, value)) => write_one(places, key, value),
        None => write_all(alloc, places, written),
    }
}
