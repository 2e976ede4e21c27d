//! What the calls of a kernel over its caller's own byte strings do, and what they are told.
ghost use Rattle.std.specs.Prelude.{◌≡◌, option_map};
ghost use Rattle.sk_handles.specs.OwnCalls.{commit_told, depends_on, fail_told, part_told, refused, status_number, AreOwnCounts, Commits, Fails, Guesses, Looks, Puts, Releases, Removes, Says, ShowsBytes, ShowsDependent, Steps, TellsChannel, TellsPlaces, TellsStatus, TellsTag, TellsWaiting};
ghost use Rattle.sk_handles.specs.OwnCalls as own;
ghost use Rattle.sk_handles.specs.Told.{just, told_by};

use crate::codes::{
    ABSENT, DONE, GONE, GUESSED, MEMORY, NO_TOKEN, REFUSED, SHOWN, STEPPED, WRITTEN,
};
use crate::room::put;
use crate::told::Told;
use sk_bytes::{Refusal, Unmade};
use sk_held::Held;
use sk_ids::GuessId;
use sk_record::Status;
use sk_speculator::Committed;

/// What a refused call is told.
fn refused(why: Refusal) -> Told
    ensures { result ≡ refused why }
{
    match why {
        Refusal::LongKey => Told::of(REFUSED, 1),
        Refusal::LongValue => Told::of(REFUSED, 2),
        Refusal::TooMany => Told::of(REFUSED, 3),
        Refusal::NoNumber => Told::of(REFUSED, 4),
        Refusal::Memory => Told::of(MEMORY, 0),
    }
}

/// What a part of a step is told.
fn of_part(did: Result<(), Refusal>) -> Told
    ensures { result ≡ part_told did }
{
    match did {
        Ok(()) => Told::of(WRITTEN, 0),
        Err(why) => refused(why),
    }
}

fn of_step(did: Result<(), Refusal>) -> Told
    ensures { result ≡ told_by (λ _. just STEPPED 0) refused did }
{
    match did {
        Ok(()) => Told::of(STEPPED, 0),
        Err(why) => refused(why),
    }
}

fn of_guess(did: Result<GuessId, Refusal>) -> Told
    ensures { result ≡ told_by (just GUESSED) refused did }
{
    match did {
        Ok(id) => Told::of(GUESSED, id.number()),
        Err(why) => refused(why),
    }
}

fn of_commit(did: Option<Committed>) -> Told
    ensures { result ≡ commit_told did }
{
    match did {
        Some(Committed::Done) => Told::of(DONE, 0),
        Some(Committed::Gone) => Told::of(GONE, 0),
        None => Told::of(NO_TOKEN, 0),
    }
}

fn of_fail(did: Option<Unmade>) -> Told
    ensures { result ≡ fail_told did }
{
    match did {
        Some(Unmade::Done { keys, struck }) => Told::of(DONE, keys as u64).with_text(struck),
        Some(Unmade::Gone) => Told::of(GONE, 0),
        None => Told::of(NO_TOKEN, 0),
    }
}

/// Shows bytes in the room, if there are any to show.
fn shown(bytes: Option<&[u8]>, room: &mut [u8]) -> Told
    ensures { ShowsBytes result (option_map (λ b. b.now) bytes.entry) room.old room.new }
{
    match bytes {
        Some(bytes) => {
            put(bytes, room);
            Told::of(SHOWN, 0).with_text(bytes.len())
        }
        None => Told::of(ABSENT, 0),
    }
}

pub fn look(held: &mut Held, key: &[u8]) -> Told
    ensures { Looks key.now result held.old held.new }
{
    of_part(held.look(key))
}

pub fn put_value(held: &mut Held, key: &[u8], value: &[u8]) -> Told
    ensures { Puts key.now value.now result held.old held.new }
{
    of_part(held.put(key, value))
}

pub fn remove(held: &mut Held, key: &[u8]) -> Told
    ensures { Removes key.now result held.old held.new }
{
    of_part(held.remove(key))
}

pub fn say(held: &mut Held, channel: u16, output: &[u8]) -> Told
    ensures { Says channel output.now result held.old held.new }
{
    of_part(held.say(channel, output))
}

pub fn take(held: &mut Held) -> Told
    ensures { Steps result held.old held.new }
{
    of_step(held.take())
}

pub fn guess(held: &mut Held) -> Told
    ensures { Guesses result held.old held.new }
{
    of_guess(held.guess())
}

pub fn commit(held: &mut Held, guess: u64) -> Told
    ensures { Commits guess result held.old held.new }
{
    of_commit(held.commit(guess))
}

pub fn fail(held: &mut Held, guess: u64) -> Told
    ensures { Fails guess result held.old held.new }
{
    of_fail(held.fail(guess))
}

/// Shows one of the keys that the last failure took back.
pub fn tell_undone(held: &Held, place: usize, room: &mut [u8]) -> Told
    ensures { ShowsBytes result (own.undone_at place held.now) room.old room.new }
{
    shown(held.kernel().undone(place), room)
}

/// Shows what a key has.
pub fn tell_value(held: &Held, key: &[u8], room: &mut [u8]) -> Told
    ensures { ShowsBytes result (own.value_of key.now held.now) room.old room.new }
{
    match held.kernel().value(key) {
        Some(value) => shown(Some(value.as_slice()), room),
        None => Told::of(ABSENT, 0),
    }
}

/// The guess at a place among those that a key depends on.
pub fn tell_tag(held: &Held, key: &[u8], place: usize) -> Told
    ensures { TellsTag (own.tag_at key.now place) result held.now }
{
    match held.kernel().tags_of(key).ids().get(place) {
        Some(id) => Told::of(SHOWN, id.number()),
        None => Told::of(ABSENT, 0),
    }
}

/// Shows the next output that can be handed over. It is handed over where the room has all of it.
pub fn tell_released(held: &mut Held, channel: u16, room: &mut [u8]) -> Told
    ensures { Releases channel room.old room.new result held.old held.new }
{
    if held.bring(channel).is_err() {
        return Told::of(MEMORY, 0);
    }
    let Some(bytes) = held.output(channel) else {
        return Told::of(ABSENT, 0);
    };
    put(bytes, room);
    let count = bytes.len();
    if count <= room.len() {
        held.handed_over(channel);
    }
    Told::of(SHOWN, 0).with_text(count)
}

/// What of such a kernel is counted in constant time.
#[repr(C)]
#[derive(Clone, Copy)]
pub struct OwnCounts {
    pub keys: usize,
    pub undecided: usize,
    pub struck: usize,
    pub settled: u64,
}

pub fn count(held: &Held, counts: &mut OwnCounts) -> Told
    ensures told { result ≡ just SHOWN 0 }
    ensures counts { AreOwnCounts held.now counts.new }
{
    let kernel = held.kernel();
    counts.keys = kernel.len();
    counts.undecided = kernel.undecided();
    counts.struck = kernel.struck();
    counts.settled = kernel.settled();
    Told::of(SHOWN, 0)
}

/// A place behind all that keys have.
pub fn tell_places(held: &Held) -> Told
    ensures { TellsPlaces result held.now }
{
    Told::of(SHOWN, held.kernel().places() as u64)
}

/// Shows the key that has a place.
pub fn tell_key(held: &Held, place: usize, room: &mut [u8]) -> Told
    ensures { ShowsBytes result (own.key_at place held.now) room.old room.new }
{
    shown(held.kernel().key_at(place), room)
}

/// Shows one of the keys that depend on a guess.
pub fn tell_dependent(held: &Held, guess: u64, place: usize, room: &mut [u8]) -> Told
    ensures { ShowsDependent guess place room.old room.new result held.now }
{
    match GuessId::new(guess) {
        Some(id) => shown(held.kernel().dependent(id, place), room),
        None => Told::of(ABSENT, 0),
    }
}

/// The number of a status.
fn number_of(status: Status) -> u64
    ensures { result ≡ status_number status }
{
    match status {
        Status::Undecided => 1,
        Status::Struck => 2,
        Status::Committed => 3,
        Status::Failed => 4,
    }
}

/// On how many undecided guesses the own step of a guess depends, itself among them.
fn depends_on(held: &Held, id: GuessId) -> usize
    ensures { result ≡ depends_on id held.now }
{
    match held.kernel().tags_of_guess(id) {
        Some(tags) => tags.ids().len(),
        None => 0,
    }
}

/// What is known of a guess, and on how many its own step depends.
pub fn tell_status(held: &Held, guess: u64) -> Told
    ensures { TellsStatus guess result held.now }
{
    let Some(id) = GuessId::new(guess) else {
        return Told::of(ABSENT, 0);
    };
    match held.kernel().status(id) {
        Some(status) => Told::of(SHOWN, number_of(status)).with_text(depends_on(held, id)),
        None => Told::of(ABSENT, 0),
    }
}

/// How many outputs of a channel wait.
pub fn tell_waiting(held: &Held, channel: u16) -> Told
    ensures { TellsWaiting channel result held.now }
{
    Told::of(SHOWN, held.kernel().waiting(channel) as u64)
}

/// A channel that has an output to take.
pub fn tell_channel(held: &Held) -> Told
    ensures { TellsChannel result held.now }
{
    match held.kernel().next_channel() {
        Some(channel) => Told::of(SHOWN, u64::from(channel)),
        None => Told::of(ABSENT, 0),
    }
}
