//! The library for C: a kernel or a world behind a handle, called by the lines of a section.
#![tactic(auto)]

ghost use Rattle.std.specs.Prelude.{◌≡◌, None, Some};
ghost use Rattle.std.specs.Str.Lines.{lines};
ghost use Rattle.sk_scenario.specs.Scenario.{scenario_of};
ghost use Rattle.sk_handles.specs.Opening.{opening, Opens};
ghost use Rattle.sk_handles.specs.PlayCalls.{EndsEpoch, TakesLine};
ghost use Rattle.sk_handles.specs.Handles.{Does, DoesAs, Tells};
ghost use Rattle.sk_handles.specs.Asked.{report_shown, value_shown, tags_shown, terminal_shown, released_text, CountsKernel, ShowsIn};
ghost use Rattle.sk_talk.specs.Played.{kernel_of, report_of};
ghost use Rattle.sk_engine.specs.Rounds.{may_tell, CarriesOut, Loses, RoundDoes};
ghost use Rattle.sk_engine.specs.Told.{batch_told, fence_told, lead_told, round_told};
ghost use Rattle.sk_handles.specs.EngineCalls.{batch_answer_of, fence_answer_of, lead_answer_of, round_answer_of, word_told};
ghost use Rattle.sk_handles.specs.Faults.{TellsFault};
ghost use Rattle.sk_handles.specs.Leases.{ClientLeases, PlayLeases};
ghost use Rattle.sk_messages.specs.Replies.{reply_of};
ghost use Rattle.sk_words.specs.Operands.{pid};
ghost use Rattle.sk_handles.specs.DeskCalls.{desk_in, desk_kernel, left_text, BeginsEpoch, Gives, SendsRequest, TakesTurn, TellsPending};
ghost use Rattle.sk_handles.specs.Reading.{EndsWith, GivesPiece, ReadingOpens, TakesHead, TakesPiece};
ghost use Rattle.sk_handles.specs.Reopening.{StoreOpens};
ghost use Rattle.sk_requests.specs.Replies.{error_text};
ghost use Rattle.sk_commands.specs.Faults.{words_of};
ghost use Rattle.sk_commands.specs.Names.{name_of};
ghost use Rattle.sk_commands.specs.declared.fault.Fault.TheVariants.{Unknown};
ghost use Rattle.sk_handles.specs.RoundCalls.{SaysStill, TakesRound};
ghost use Rattle.sk_handles.specs.StoreCalls as durable;
ghost use Rattle.sk_handles.specs.StoreCalls.{may_write_told, Connects, CountsStore, CutsOff, Decides, Feeds, FeedsAhead, HangsUp, NextReady, OutputsTo, SendsHead, ShowsAhead, ShowsAsked, Syncs, TakesFrame, TellsClosed, TellsCut, TellsLeft, TellsQueued, TellsReply, Turns, WindsUp};
ghost use Rattle.sk_durable.specs.Store.{rests_on_at};
ghost use Rattle.sk_handles.specs.OwnCalls.{key_at, tag_at, undone_at, value_of, Clears, Commits, CountsOwn, Fails, Guesses, Looks, OwnOpens, Puts, Releases, Removes, Says, ShowsDependent, ShowsKept, Steps, TellsChannel, TellsPlaces, TellsStatus, TellsTag, TellsWaiting};

use sk_cells::holds::{put_in, take_out};
use sk_counts::Counts;
use sk_engine::{Batch, Fence, Round, Rounds};
use sk_handles::asked::{tell_counts, tell_report, tell_tags, tell_terminal, tell_value};
use sk_handles::client::client_of;
use sk_handles::codes::{CLOSED, HELD, MEMORY, REFUSED, WRITTEN};
use sk_handles::desk::DeskHandle;
use sk_handles::durable::Durable;
use sk_handles::engine::{tell_batch, tell_fence, tell_lead, tell_round};
use sk_handles::faults::{FaultPlace, tell_fault};
use sk_handles::handle::Handle;
use sk_handles::opening::{play_of, tell_epoch, tell_lease, tell_line};
use sk_handles::own::Own;
use sk_handles::own_calls::{
    OwnCounts, commit, count, fail, guess, look, put_value, remove, say, take, tell_channel,
    tell_dependent, tell_key, tell_places, tell_released, tell_status, tell_tag, tell_undone,
    tell_waiting,
};
use sk_handles::reading::{ReadCounts, Reading};
use sk_handles::recovering::Recovering;
use sk_handles::reopening::{StoreLimits, not_opened, opened};
use sk_handles::store_calls::{CutOff, FramePlace, StoreCounts};
use sk_handles::told::Told;
use sk_handles::{asked, own_calls, rounds, store_calls};
use sk_held::Held;
use std::alloc::Global;
use std::num::NonZeroU16;

/// Does this with what a handle holds, which it holds again then. Where it holds nothing that is told.
macro_rules! with {
    ($handle:ident, $alloc:ident, $held:ident => $told:expr) => {{
        let Some(mut $held) = take_out($handle, $alloc) else {
            return Told::of(CLOSED, 0);
        };
        let told = $told;
        put_in($handle, $held);
        told
    }};
}

/// Opens what a text declares, for a handle that holds nothing: a world where the text ends with the line `world`, else
/// a kernel. Of a fault the line is told; then, and without memory, the handle still holds nothing.
#[unsafe(no_mangle)]
pub extern "C" fn hidewillow_open(alloc: Global, handle: &mut Handle, text: &[u8]) -> Told
    ensures { Opens opening result text.now handle.old.held handle.new.held }
{
    if let Some(play) = take_out(handle, alloc) {
        put_in(handle, play);
        return Told::of(HELD, 0);
    }
    match play_of(alloc, text) {
        Ok(play) => {
            put_in(handle, play);
            Told::opened()
        }
        Err(why) => Told::unopened(why),
    }
}

/// Makes the call that a line says. Its text, as the program prints it, goes into the room as far as that reaches.
#[unsafe(no_mangle)]
pub extern "C" fn hidewillow_line(
    alloc: Global,
    handle: &mut Handle,
    line: &[u8],
    room: &mut [u8],
) -> Told
    ensures { Does (TakesLine line.now room.old room.new) (room.new ≡ room.old) result handle.old.held
        handle.new.held }
{
    with!(handle, alloc, play => tell_line(&mut play, alloc, line, room))
}

/// Shows the report in the room, as far as that reaches.
#[unsafe(no_mangle)]
pub extern "C" fn hidewillow_report(alloc: Global, handle: &mut Handle, room: &mut [u8]) -> Told
    ensures { Tells (ShowsIn report_of Some room.old room.new) (room.new ≡ room.old) result handle.old.held
        handle.new.held }
{
    with!(handle, alloc, play => tell_report(&play, alloc, room))
}

/// Shows in the room what an entity has that the report names so, as `proc 1`.
#[unsafe(no_mangle)]
pub extern "C" fn hidewillow_value(
    alloc: Global,
    handle: &mut Handle,
    name: &[u8],
    room: &mut [u8],
) -> Told
    ensures { Tells (ShowsIn kernel_of (value_shown name.now) room.old room.new) (room.new ≡ room.old)
        result handle.old.held handle.new.held }
{
    with!(handle, alloc, play => tell_value(&play, alloc, name, room))
}

/// Shows in the room the undecided guesses that an entity depends on, which the report names so.
#[unsafe(no_mangle)]
pub extern "C" fn hidewillow_tags(
    alloc: Global,
    handle: &mut Handle,
    name: &[u8],
    room: &mut [u8],
) -> Told
    ensures { Tells (ShowsIn kernel_of (tags_shown name.now) room.old room.new) (room.new ≡ room.old)
        result handle.old.held handle.new.held }
{
    with!(handle, alloc, play => tell_tags(&play, alloc, name, room))
}

/// Shows in the room what a terminal has released, and how many texts wait.
#[unsafe(no_mangle)]
pub extern "C" fn hidewillow_terminal(
    alloc: Global,
    handle: &mut Handle,
    number: u16,
    room: &mut [u8],
) -> Told
    ensures { Tells (ShowsIn kernel_of (terminal_shown number) room.old room.new) (room.new ≡ room.old)
        result handle.old.held handle.new.held }
{
    with!(handle, alloc, play => tell_terminal(&play, alloc, number, room))
}

/// Shows in the room the text at a place among those that a terminal has released in this epoch.
#[unsafe(no_mangle)]
pub extern "C" fn hidewillow_released(
    alloc: Global,
    handle: &mut Handle,
    number: u16,
    place: usize,
    room: &mut [u8],
) -> Told
    ensures { Tells (ShowsKept (released_text number place) room.old room.new) (room.new ≡ room.old) result
        handle.old.held handle.new.held }
{
    with!(handle, alloc, play => asked::tell_released(&play, number, place, room))
}

/// Begins a new epoch: the trace and the texts are let go.
#[unsafe(no_mangle)]
pub extern "C" fn hidewillow_epoch(alloc: Global, handle: &mut Handle) -> Told
    ensures { Does EndsEpoch (Unit {0}) result handle.old.held handle.new.held }
{
    with!(handle, alloc, play => tell_epoch(&mut play))
}

/// Lends the process of this name, has it do up to so many private instructions, and hands it in: each is a step.
#[unsafe(no_mangle)]
pub extern "C" fn hidewillow_lease(
    alloc: Global,
    handle: &mut Handle,
    name: &[u8],
    count: u32,
) -> Told
    ensures { Does (DoesAs (PlayLeases count) (pid name.now)) (Unit {0}) result handle.old.held
        handle.new.held }
{
    with!(handle, alloc, play => tell_lease(&mut play, name, count))
}

/// Counts the guesses and the steps so far.
#[unsafe(no_mangle)]
pub extern "C" fn hidewillow_counts(alloc: Global, handle: &mut Handle, counts: &mut Counts) -> Told
    ensures { Tells (CountsKernel kernel_of counts.old counts.new) (counts.new ≡ counts.old) result
        handle.old.held handle.new.held }
{
    with!(handle, alloc, play => tell_counts(&play, alloc, counts))
}

/// Ends what the handle holds: the guesses that are left fail, and nothing is committed. The handle holds nothing then.
#[unsafe(no_mangle)]
pub extern "C" fn hidewillow_close(alloc: Global, handle: &mut Handle)
    ensures { handle.new.held ≡ None }
{
    let _play = take_out(handle, alloc);
}

/// Tells the first fault of a text that is to be opened: its line, its kind and its word's place, and in the room what is wrong
/// there and what was expected.
#[unsafe(no_mangle)]
pub extern "C" fn hidewillow_fault(
    alloc: Global,
    text: &[u8],
    place: &mut FaultPlace,
    room: &mut [u8],
) -> Told
    ensures { TellsFault (scenario_of text.now) (lines text.now) result place.old place.new
        room.old room.new }
{
    tell_fault(alloc, text, place, room)
}

/// Opens a kernel over its caller's own byte strings, for a handle that holds nothing: its number, how many guesses may be
/// undecided at once, and a seed that its users don't know. A limit of 0 is refused.
#[unsafe(no_mangle)]
pub extern "C" fn hidewillow_own_open(
    alloc: Global,
    own: &mut Own,
    number: u64,
    limit: u16,
    seed: u64,
) -> Told
    ensures { OwnOpens number limit result own.old.held own.new.held }
{
    if let Some(held) = take_out(own, alloc) {
        put_in(own, held);
        return Told::of(HELD, 0);
    }
    let Some(limit) = NonZeroU16::new(limit) else {
        return Told::of(REFUSED, 5);
    };
    match Box::new(alloc, Held::new(alloc, number, limit, seed)) {
        Ok(held) => {
            put_in(own, held);
            Told::opened()
        }
        Err(_) => Told::of(MEMORY, 0),
    }
}

/// Lets go of the step that is being written.
#[unsafe(no_mangle)]
pub extern "C" fn hidewillow_own_clear(alloc: Global, own: &mut Own) -> Told
    ensures { Does Clears (Unit {0}) result own.old.held own.new.held }
{
    with!(own, alloc, held => {
        held.clear();
        Told::of(WRITTEN, 0)
    })
}

/// The step that is being written looked at a key.
#[unsafe(no_mangle)]
pub extern "C" fn hidewillow_own_look(alloc: Global, own: &mut Own, key: &[u8]) -> Told
    ensures { Does (Looks key.now) (Unit {0}) result own.old.held own.new.held }
{
    with!(own, alloc, held => look(&mut held, key))
}

/// The step that is being written sets what a key has.
#[unsafe(no_mangle)]
pub extern "C" fn hidewillow_own_put(alloc: Global, own: &mut Own, key: &[u8], value: &[u8]) -> Told
    ensures { Does (Puts key.now value.now) (Unit {0}) result own.old.held own.new.held }
{
    with!(own, alloc, held => put_value(&mut held, key, value))
}

/// The step that is being written makes a key absent.
#[unsafe(no_mangle)]
pub extern "C" fn hidewillow_own_remove(alloc: Global, own: &mut Own, key: &[u8]) -> Told
    ensures { Does (Removes key.now) (Unit {0}) result own.old.held own.new.held }
{
    with!(own, alloc, held => remove(&mut held, key))
}

/// The step that is being written says this to a channel, in place of whatever it said before.
#[unsafe(no_mangle)]
pub extern "C" fn hidewillow_own_say(
    alloc: Global,
    own: &mut Own,
    channel: u16,
    output: &[u8],
) -> Told
    ensures { Does (Says channel output.now) (Unit {0}) result own.old.held own.new.held }
{
    with!(own, alloc, held => say(&mut held, channel, output))
}

/// Takes the step that was written. After a refusal it is as it was.
#[unsafe(no_mangle)]
pub extern "C" fn hidewillow_own_take(alloc: Global, own: &mut Own) -> Told
    ensures { Does Steps (Unit {0}) result own.old.held own.new.held }
{
    with!(own, alloc, held => take(&mut held))
}

/// Draws a guess with the step that was written. After a refusal it is as it was.
#[unsafe(no_mangle)]
pub extern "C" fn hidewillow_own_guess(alloc: Global, own: &mut Own) -> Told
    ensures { Does Guesses (Unit {0}) result own.old.held own.new.held }
{
    with!(own, alloc, held => guess(&mut held))
}

/// Commits a guess.
#[unsafe(no_mangle)]
pub extern "C" fn hidewillow_own_commit(alloc: Global, own: &mut Own, number: u64) -> Told
    ensures { Does (Commits number) (Unit {0}) result own.old.held own.new.held }
{
    with!(own, alloc, held => commit(&mut held, number))
}

/// Fails a guess: tells how many keys it took back, and how many guesses it struck.
#[unsafe(no_mangle)]
pub extern "C" fn hidewillow_own_fail(alloc: Global, own: &mut Own, number: u64) -> Told
    ensures { Does (Fails number) (Unit {0}) result own.old.held own.new.held }
{
    with!(own, alloc, held => fail(&mut held, number))
}

/// Shows one of the keys that the last failure took back.
#[unsafe(no_mangle)]
pub extern "C" fn hidewillow_own_undone(
    alloc: Global,
    own: &mut Own,
    place: usize,
    room: &mut [u8],
) -> Told
    ensures { Tells (ShowsKept (undone_at place) room.old room.new) (room.new ≡ room.old) result own.old.held
        own.new.held }
{
    with!(own, alloc, held => tell_undone(&held, place, room))
}

/// Shows what a key has.
#[unsafe(no_mangle)]
pub extern "C" fn hidewillow_own_value(
    alloc: Global,
    own: &mut Own,
    key: &[u8],
    room: &mut [u8],
) -> Told
    ensures { Tells (ShowsKept (value_of key.now) room.old room.new) (room.new ≡ room.old) result own.old.held
        own.new.held }
{
    with!(own, alloc, held => own_calls::tell_value(&held, key, room))
}

/// Tells one of the undecided guesses that a key depends on, by its place among them.
#[unsafe(no_mangle)]
pub extern "C" fn hidewillow_own_tag(alloc: Global, own: &mut Own, key: &[u8], place: usize) -> Told
    ensures { Tells (TellsTag (tag_at key.now place)) (Unit {0}) result own.old.held own.new.held }
{
    with!(own, alloc, held => tell_tag(&held, key, place))
}

/// Shows the next output of a channel that depends on nothing, which is gone then if the room has all of it.
#[unsafe(no_mangle)]
pub extern "C" fn hidewillow_own_released(
    alloc: Global,
    own: &mut Own,
    channel: u16,
    room: &mut [u8],
) -> Told
    ensures { Does (Releases channel room.old room.new) (room.new ≡ room.old) result
        own.old.held own.new.held }
{
    with!(own, alloc, held => tell_released(&mut held, channel, room))
}

/// Counts keys and guesses, in constant time.
#[unsafe(no_mangle)]
pub extern "C" fn hidewillow_own_counts(
    alloc: Global,
    own: &mut Own,
    counts: &mut OwnCounts,
) -> Told
    ensures { Tells (CountsOwn counts.new) (counts.new ≡ counts.old) result own.old.held
        own.new.held }
{
    with!(own, alloc, held => count(&held, counts))
}

/// Tells a place behind all that keys have.
#[unsafe(no_mangle)]
pub extern "C" fn hidewillow_own_places(alloc: Global, own: &mut Own) -> Told
    ensures { Tells TellsPlaces (Unit {0}) result own.old.held own.new.held }
{
    with!(own, alloc, held => tell_places(&held))
}

/// Shows the key that has a place.
#[unsafe(no_mangle)]
pub extern "C" fn hidewillow_own_key(
    alloc: Global,
    own: &mut Own,
    place: usize,
    room: &mut [u8],
) -> Told
    ensures { Tells (ShowsKept (key_at place) room.old room.new) (room.new ≡ room.old) result own.old.held
        own.new.held }
{
    with!(own, alloc, held => tell_key(&held, place, room))
}

/// Shows one of the keys that depend on a guess, by its place among them.
#[unsafe(no_mangle)]
pub extern "C" fn hidewillow_own_dependent(
    alloc: Global,
    own: &mut Own,
    number: u64,
    place: usize,
    room: &mut [u8],
) -> Told
    ensures { Tells (ShowsDependent number place room.old room.new) (room.new ≡ room.old) result own.old.held
        own.new.held }
{
    with!(own, alloc, held => tell_dependent(&held, number, place, room))
}

/// Tells what is known of a guess.
#[unsafe(no_mangle)]
pub extern "C" fn hidewillow_own_status(alloc: Global, own: &mut Own, number: u64) -> Told
    ensures { Tells (TellsStatus number) (Unit {0}) result own.old.held own.new.held }
{
    with!(own, alloc, held => tell_status(&held, number))
}

/// Tells how many outputs of a channel wait.
#[unsafe(no_mangle)]
pub extern "C" fn hidewillow_own_waiting(alloc: Global, own: &mut Own, channel: u16) -> Told
    ensures { Tells (TellsWaiting channel) (Unit {0}) result own.old.held own.new.held }
{
    with!(own, alloc, held => tell_waiting(&held, channel))
}

/// Tells a channel of which an output can be taken.
#[unsafe(no_mangle)]
pub extern "C" fn hidewillow_own_channel(alloc: Global, own: &mut Own) -> Told
    ensures { Tells TellsChannel (Unit {0}) result own.old.held own.new.held }
{
    with!(own, alloc, held => tell_channel(&held))
}

/// Ends what the handle holds: the guesses that are left fail, and nothing is committed. The handle holds nothing then.
#[unsafe(no_mangle)]
pub extern "C" fn hidewillow_own_close(alloc: Global, own: &mut Own)
    ensures { own.new.held ≡ None }
{
    let _held = take_out(own, alloc);
}

/// Begins to read a log, for a handle that holds nothing. The first frame of its segments has this number.
#[unsafe(no_mangle)]
pub extern "C" fn hidewillow_recovery_open(
    alloc: Global,
    recovery: &mut Recovering,
    first: u64,
) -> Told
    ensures { ReadingOpens first result recovery.old.held recovery.new.held }
{
    if let Some(read) = take_out(recovery, alloc) {
        put_in(recovery, read);
        return Told::of(HELD, 0);
    }
    match Box::new(alloc, Reading::new(first)) {
        Ok(read) => {
            put_in(recovery, read);
            Told::opened()
        }
        Err(_) => Told::of(MEMORY, 0),
    }
}

/// The head of the next segment comes: its first 24 bytes, or all there are.
#[unsafe(no_mangle)]
pub extern "C" fn hidewillow_recovery_head(
    alloc: Global,
    recovery: &mut Recovering,
    segment: u64,
    bytes: &[u8],
) -> Told
    ensures { Does (TakesHead segment bytes.now) (Unit {0}) result recovery.old.held
        recovery.new.held }
{
    with!(recovery, alloc, read => read.head(alloc, segment, bytes))
}

/// A piece of a segment comes, or one of a snapshot, whose number is 0; what came whole is carried out. Without memory all
/// begins anew.
#[unsafe(no_mangle)]
pub extern "C" fn hidewillow_recovery_feed(
    alloc: Global,
    recovery: &mut Recovering,
    segment: u64,
    bytes: &[u8],
) -> Told
    ensures { Does (TakesPiece segment bytes.now) (Unit {0}) result recovery.old.held
        recovery.new.held }
{
    with!(recovery, alloc, read => read.feed(alloc, segment, bytes))
}

/// All came: counts what was read, where no more was dropped than may have been in flight, and no frame is missing of those up to
/// the one that is known as synced.
#[unsafe(no_mangle)]
pub extern "C" fn hidewillow_recovery_end(
    alloc: Global,
    recovery: &mut Recovering,
    in_flight: u64,
    known: u64,
    counts: &mut ReadCounts,
) -> Told
    ensures { Does (EndsWith in_flight known counts.old counts.new) (counts.new ≡ counts.old)
        result recovery.old.held recovery.new.held }
{
    with!(recovery, alloc, read => read.end(alloc, in_flight, known, counts))
}

/// The next piece of a snapshot of what was found, as a frame in the room.
#[unsafe(no_mangle)]
pub extern "C" fn hidewillow_recovery_snapshot(
    alloc: Global,
    recovery: &mut Recovering,
    room: &mut [u8],
) -> Told
    ensures { Does (GivesPiece room.old room.new) (room.new ≡ room.old) result
        recovery.old.held recovery.new.held }
{
    with!(recovery, alloc, read => read.piece(alloc, room))
}

/// Ends what the handle holds. It holds nothing then.
#[unsafe(no_mangle)]
pub extern "C" fn hidewillow_recovery_close(alloc: Global, recovery: &mut Recovering)
    ensures { recovery.new.held ≡ None }
{
    let _read = take_out(recovery, alloc);
}

/// Opens a store behind what was read of its log, for a handle that holds nothing. The room has the head of the segment then in
/// which the log goes on, and its place is told: it is to be written and synced before anything else is done. The recovery
/// holds nothing then; where no store is opened it holds what it held.
#[unsafe(no_mangle)]
pub extern "C" fn hidewillow_store_open(
    alloc: Global,
    store: &mut Durable,
    recovery: &mut Recovering,
    limits: &StoreLimits,
    seed: u64,
    room: &mut [u8],
    place: &mut FramePlace,
) -> Told
    ensures { StoreOpens limits.now result store.old.held store.new.held recovery.old.held
        recovery.new.held room.old room.new place.old place.new }
{
    if let Some(held) = take_out(store, alloc) {
        put_in(store, held);
        return Told::of(HELD, 0);
    }
    let Some(read) = take_out(recovery, alloc) else {
        return Told::of(CLOSED, 0);
    };
    match opened(alloc, &read, limits, seed, room, place) {
        Ok(held) => {
            put_in(store, held);
            Told::opened()
        }
        Err(why) => {
            put_in(recovery, read);
            not_opened(why)
        }
    }
}

/// A channel more, whose number is told.
#[unsafe(no_mangle)]
pub extern "C" fn hidewillow_store_connect(alloc: Global, store: &mut Durable) -> Told
    ensures { Does Connects (Unit {0}) result store.old.held store.new.held }
{
    with!(store, alloc, held => store_calls::connect(&mut held))
}

/// A channel is gone: its replies are dropped, its writes stand.
#[unsafe(no_mangle)]
pub extern "C" fn hidewillow_store_hang_up(alloc: Global, store: &mut Durable, channel: u16) -> Told
    ensures { Does (HangsUp channel) (Unit {0}) result store.old.held store.new.held }
{
    with!(store, alloc, held => store_calls::hang_up(&mut held, channel))
}

/// Takes bytes that came on a channel, up to the end of a request, which is carried out, or all.
#[unsafe(no_mangle)]
pub extern "C" fn hidewillow_store_feed(
    alloc: Global,
    store: &mut Durable,
    channel: u16,
    bytes: &[u8],
) -> Told
    ensures { Does (Feeds channel bytes.now) (Unit {0}) result store.old.held store.new.held }
{
    with!(store, alloc, held => store_calls::feed(&mut held, channel, bytes))
}

/// As feed; and of a request that was carried out the answer is shown by `hidewillow_store_ahead`.
#[unsafe(no_mangle)]
pub extern "C" fn hidewillow_store_feed_ahead(
    alloc: Global,
    store: &mut Durable,
    channel: u16,
    bytes: &[u8],
) -> Told
    ensures { Does (FeedsAhead channel bytes.now) (Unit {0}) result
        store.old.held store.new.held }
{
    with!(store, alloc, held => store_calls::feed_ahead(&mut held, channel, bytes))
}

/// Shows the answer to the request that the last call of `hidewillow_store_feed_ahead` carried out.
#[unsafe(no_mangle)]
pub extern "C" fn hidewillow_store_ahead(
    alloc: Global,
    store: &mut Durable,
    room: &mut [u8],
) -> Told
    ensures { Tells (ShowsAhead room.old room.new) (room.new ≡ room.old) result
        store.old.held store.new.held }
{
    with!(store, alloc, held => store_calls::tell_ahead(&held, room))
}

/// Shows a word of the request that the host is asked on a channel, by its place.
#[unsafe(no_mangle)]
pub extern "C" fn hidewillow_store_asked(
    alloc: Global,
    store: &mut Durable,
    channel: u16,
    place: usize,
    room: &mut [u8],
) -> Told
    ensures { Tells (ShowsAsked channel place room.old room.new) (room.new ≡ room.old) result
        store.old.held store.new.held }
{
    with!(store, alloc, held => store_calls::tell_asked(&held, channel, place, room))
}

/// The host tells the reply to what it is asked on a channel, which goes out in its turn.
#[unsafe(no_mangle)]
pub extern "C" fn hidewillow_store_tell(
    alloc: Global,
    store: &mut Durable,
    channel: u16,
    reply: &[u8],
) -> Told
    ensures { Does (TellsReply channel reply.now) (Unit {0}) result
        store.old.held store.new.held }
{
    with!(store, alloc, held => store_calls::tell(&mut held, channel, reply))
}

/// The host tells that it knows no such command either.
#[unsafe(no_mangle)]
pub extern "C" fn hidewillow_store_tell_unknown(
    alloc: Global,
    store: &mut Durable,
    channel: u16,
) -> Told
    ensures { Does (TellsReply channel (error_text (words_of Unknown))) (Unit {0}) result
        store.old.held store.new.held }
{
    with!(store, alloc, held => store_calls::tell_unknown(&mut held, channel))
}

/// Tells whether a fault was told on a channel: what comes is dropped, and it is to be hung up once its output is taken.
#[unsafe(no_mangle)]
pub extern "C" fn hidewillow_store_is_closed(
    alloc: Global,
    store: &mut Durable,
    channel: u16,
) -> Told
    ensures { Tells (TellsClosed channel) (Unit {0}) result store.old.held store.new.held }
{
    with!(store, alloc, held => store_calls::tell_closed(&mut held, channel))
}

/// Tells how many bytes the commands take that wait for EXEC on a channel; none where no queue is open.
#[unsafe(no_mangle)]
pub extern "C" fn hidewillow_store_queued(alloc: Global, store: &mut Durable, channel: u16) -> Told
    ensures { Tells (TellsQueued channel) (Unit {0}) result store.old.held store.new.held }
{
    with!(store, alloc, held => store_calls::tell_queued(&held, channel))
}

/// Moves bytes that may go out on a channel into the room. It is to be called until it moves none.
#[unsafe(no_mangle)]
pub extern "C" fn hidewillow_store_output(
    alloc: Global,
    store: &mut Durable,
    channel: u16,
    room: &mut [u8],
) -> Told
    ensures { Does (OutputsTo channel room.old room.new) (room.new ≡ room.old) result
        store.old.held store.new.held }
{
    with!(store, alloc, held => store_calls::output(&mut held, channel, room))
}

/// Tells a channel that there is output for.
#[unsafe(no_mangle)]
pub extern "C" fn hidewillow_store_next_ready(alloc: Global, store: &mut Durable) -> Told
    ensures { Does NextReady (Unit {0}) result store.old.held store.new.held }
{
    with!(store, alloc, held => store_calls::next_ready(&mut held))
}

/// Takes the next frame into the room, and tells where it is to be written.
#[unsafe(no_mangle)]
pub extern "C" fn hidewillow_store_take_frame(
    alloc: Global,
    store: &mut Durable,
    room: &mut [u8],
    place: &mut FramePlace,
) -> Told
    ensures { Does (TakesFrame room.old room.new place.old place.new) ((room.new ≡ room.old) ×
        (place.new ≡ place.old)) result store.old.held store.new.held }
{
    with!(store, alloc, held => store_calls::take_frame(&mut held, room, place))
}

/// The log goes on at the front of the next segment.
#[unsafe(no_mangle)]
pub extern "C" fn hidewillow_store_turn(alloc: Global, store: &mut Durable) -> Told
    ensures { Does Turns (Unit {0}) result store.old.held store.new.held }
{
    with!(store, alloc, held => store_calls::turn(&mut held))
}

/// Drops what decisions of many keys left of old values, of at most so many keys, and tells of how many there are still some.
#[unsafe(no_mangle)]
pub extern "C" fn hidewillow_store_let_go(alloc: Global, store: &mut Durable, most: usize) -> Told
    ensures { Tells TellsLeft (Unit {0}) result store.old.held store.new.held }
{
    with!(store, alloc, held => store_calls::let_go(&mut held, most))
}

/// The host says that a frame is synced.
#[unsafe(no_mangle)]
pub extern "C" fn hidewillow_store_synced(alloc: Global, store: &mut Durable, frame: u64) -> Told
    ensures { Does (Syncs frame) (Unit {0}) result store.old.held store.new.held }
{
    with!(store, alloc, held => store_calls::synced(&mut held, frame))
}

/// The host says that a frame failed.
#[unsafe(no_mangle)]
pub extern "C" fn hidewillow_store_failed(alloc: Global, store: &mut Durable, frame: u64) -> Told
    ensures { Does (durable.Fails frame) (Unit {0}) result store.old.held store.new.held }
{
    with!(store, alloc, held => store_calls::failed(&mut held, frame))
}

/// Tells the cut that is to be made, once a frame failed and all that were sent were told of.
#[unsafe(no_mangle)]
pub extern "C" fn hidewillow_store_cut_due(
    alloc: Global,
    store: &mut Durable,
    cut: &mut CutOff,
) -> Told
    ensures { Tells (TellsCut cut.old cut.new) (cut.new ≡ cut.old) result store.old.held
        store.new.held }
{
    with!(store, alloc, held => store_calls::tell_cut(&held, cut))
}

/// Writes the head that makes the cut into the room, and tells where it is to be written.
#[unsafe(no_mangle)]
pub extern "C" fn hidewillow_store_cut_frame(
    alloc: Global,
    store: &mut Durable,
    room: &mut [u8],
    place: &mut FramePlace,
) -> Told
    ensures { Tells (SendsHead room.old room.new place.old place.new) ((room.new ≡ room.old) ×
        (place.new ≡ place.old)) result store.old.held store.new.held }
{
    with!(store, alloc, held => store_calls::cut_frame(&held, room, place))
}

/// The host says whether the cut was made; 0 says that it could not be, and the store stops.
#[unsafe(no_mangle)]
pub extern "C" fn hidewillow_store_cut(alloc: Global, store: &mut Durable, made: u32) -> Told
    ensures { Does (CutsOff made) (Unit {0}) result store.old.held store.new.held }
{
    with!(store, alloc, held => store_calls::cut(&mut held, made))
}

/// The host says that the leadership is over by which its log lies in an engine, once each frame that was sent has its word: what
/// was open is refused, from the first frame on that failed. The room is as long as a frame of all that is undecided.
#[unsafe(no_mangle)]
pub extern "C" fn hidewillow_store_lost(alloc: Global, store: &mut Durable, room: &mut [u8]) -> Told
    ensures { Does (WindsUp room.old) (room.new ≡ room.old) result store.old.held store.new.held }
{
    with!(store, alloc, held => store_calls::lost(&mut held, room))
}

/// Decides the oldest batch, if it is decided. It is to be called until it tells none.
#[unsafe(no_mangle)]
pub extern "C" fn hidewillow_store_decide(alloc: Global, store: &mut Durable) -> Told
    ensures { Does Decides (Unit {0}) result store.old.held store.new.held }
{
    with!(store, alloc, held => store_calls::decide(&mut held))
}

/// Shows what a key has, whatever it depends on.
#[unsafe(no_mangle)]
pub extern "C" fn hidewillow_store_value(
    alloc: Global,
    store: &mut Durable,
    key: &[u8],
    room: &mut [u8],
) -> Told
    ensures { Tells (ShowsKept (durable.value_at key.now) room.old room.new) (room.new ≡ room.old) result
        store.old.held store.new.held }
{
    with!(store, alloc, held => store_calls::tell_value(&held, key, room))
}

/// Tells one of the undecided batches that a key depends on, by its place among them.
#[unsafe(no_mangle)]
pub extern "C" fn hidewillow_store_rests_on(
    alloc: Global,
    store: &mut Durable,
    key: &[u8],
    place: usize,
) -> Told
    ensures { Tells (TellsTag (rests_on_at key.now place)) (Unit {0}) result store.old.held store.new.held }
{
    with!(store, alloc, held => store_calls::tell_rests_on(&held, key, place))
}

/// Counts what is undecided, in constant time.
#[unsafe(no_mangle)]
pub extern "C" fn hidewillow_store_counts(
    alloc: Global,
    store: &mut Durable,
    counts: &mut StoreCounts,
) -> Told
    ensures { Tells (CountsStore counts.new) (counts.new ≡ counts.old) result store.old.held
        store.new.held }
{
    with!(store, alloc, held => store_calls::count(&held, counts))
}

/// Ends what the handle holds: what is undecided is dropped, and nothing goes out. It holds nothing then.
#[unsafe(no_mangle)]
pub extern "C" fn hidewillow_store_close(alloc: Global, store: &mut Durable)
    ensures { store.new.held ≡ None }
{
    let _held = take_out(store, alloc);
}

/// Tells whether a request may write whose first word this is: as a command, or by carrying out a queue.
#[unsafe(no_mangle)]
pub extern "C" fn hidewillow_may_write(word: &[u8]) -> Told
    ensures { result ≡ may_write_told (name_of word.now) }
{
    store_calls::tell_may_write(word)
}

/// Opens a desk over the kernel that a text declares, for a handle that holds nothing: the text ends with the line `world`, and
/// the files that it declares are the server's. Of a fault the line is told; then, and without memory, the handle still holds
/// nothing.
#[unsafe(no_mangle)]
pub extern "C" fn hidewillow_desk_open(alloc: Global, desk: &mut DeskHandle, text: &[u8]) -> Told
    ensures { Opens desk_in result text.now desk.old.held desk.new.held }
{
    if let Some(client) = take_out(desk, alloc) {
        put_in(desk, client);
        return Told::of(HELD, 0);
    }
    match client_of(alloc, text) {
        Ok(client) => {
            put_in(desk, client);
            Told::opened()
        }
        Err(why) => Told::unopened(why),
    }
}

/// Takes a turn of the process of this name.
#[unsafe(no_mangle)]
pub extern "C" fn hidewillow_desk_turn(alloc: Global, desk: &mut DeskHandle, name: &[u8]) -> Told
    ensures { Does (DoesAs TakesTurn (pid name.now)) (Unit {0}) result desk.old.held desk.new.held }
{
    with!(desk, alloc, client => client.turn(name))
}

/// Lends the process of this name, has it do up to so many private instructions, and hands it in: each is a step.
#[unsafe(no_mangle)]
pub extern "C" fn hidewillow_desk_lease(
    alloc: Global,
    desk: &mut DeskHandle,
    name: &[u8],
    count: u32,
) -> Told
    ensures { Does (DoesAs (ClientLeases count) (pid name.now)) (Unit {0}) result
        desk.old.held desk.new.held }
{
    with!(desk, alloc, client => client.lease(name, count))
}

/// Shows the oldest request that waits, as bytes. It is taken where the room has all of it; else the next call shows it again.
#[unsafe(no_mangle)]
pub extern "C" fn hidewillow_desk_request(
    alloc: Global,
    desk: &mut DeskHandle,
    room: &mut [u8],
) -> Told
    ensures { Does (SendsRequest room.old room.new) (room.new ≡ room.old) result desk.old.held desk.new.held }
{
    with!(desk, alloc, client => client.request(alloc, room))
}

/// Gives the reply that these bytes are. After a refusal everything is as it was.
#[unsafe(no_mangle)]
pub extern "C" fn hidewillow_desk_reply(alloc: Global, desk: &mut DeskHandle, bytes: &[u8]) -> Told
    ensures { Does (Gives (reply_of bytes.now)) (Unit {0}) result desk.old.held desk.new.held }
{
    with!(desk, alloc, client => client.reply(bytes))
}

/// Tells the number of the request whose reply is next, and how many have none.
#[unsafe(no_mangle)]
pub extern "C" fn hidewillow_desk_pending(alloc: Global, desk: &mut DeskHandle) -> Told
    ensures { Tells TellsPending (Unit {0}) result desk.old.held desk.new.held }
{
    with!(desk, alloc, client => client.tell_pending())
}

/// Begins a new epoch, where each request has its reply: the trace is let go of, and what terminals have released is kept until
/// the next one.
#[unsafe(no_mangle)]
pub extern "C" fn hidewillow_desk_epoch(alloc: Global, desk: &mut DeskHandle) -> Told
    ensures { Does BeginsEpoch (Unit {0}) result desk.old.held desk.new.held }
{
    with!(desk, alloc, client => client.begin_epoch())
}

/// Shows the text at a place among those that a terminal had released when the last epoch ended.
#[unsafe(no_mangle)]
pub extern "C" fn hidewillow_desk_left(
    alloc: Global,
    desk: &mut DeskHandle,
    number: u16,
    place: usize,
    room: &mut [u8],
) -> Told
    ensures { Tells (ShowsKept (left_text number place) room.old room.new) (room.new ≡ room.old) result
        desk.old.held desk.new.held }
{
    with!(desk, alloc, client => client.tell_left(number, place, room))
}

/// Shows the report of the kernel in the room.
#[unsafe(no_mangle)]
pub extern "C" fn hidewillow_desk_report(
    alloc: Global,
    desk: &mut DeskHandle,
    room: &mut [u8],
) -> Told
    ensures { Tells (ShowsIn desk_kernel report_shown room.old room.new) (room.new ≡ room.old) result
        desk.old.held desk.new.held }
{
    with!(desk, alloc, client => client.tell_report(alloc, room))
}

/// Shows what an entity has that the report names so.
#[unsafe(no_mangle)]
pub extern "C" fn hidewillow_desk_value(
    alloc: Global,
    desk: &mut DeskHandle,
    name: &[u8],
    room: &mut [u8],
) -> Told
    ensures { Tells (ShowsIn desk_kernel (value_shown name.now) room.old room.new) (room.new ≡ room.old)
        result desk.old.held desk.new.held }
{
    with!(desk, alloc, client => client.tell_value(alloc, name, room))
}

/// Shows the undecided guesses that an entity depends on, which the report names so.
#[unsafe(no_mangle)]
pub extern "C" fn hidewillow_desk_tags(
    alloc: Global,
    desk: &mut DeskHandle,
    name: &[u8],
    room: &mut [u8],
) -> Told
    ensures { Tells (ShowsIn desk_kernel (tags_shown name.now) room.old room.new) (room.new ≡ room.old)
        result desk.old.held desk.new.held }
{
    with!(desk, alloc, client => client.tell_tags(alloc, name, room))
}

/// Shows what a terminal has released in this epoch, and how many texts wait.
#[unsafe(no_mangle)]
pub extern "C" fn hidewillow_desk_terminal(
    alloc: Global,
    desk: &mut DeskHandle,
    number: u16,
    room: &mut [u8],
) -> Told
    ensures { Tells (ShowsIn desk_kernel (terminal_shown number) room.old room.new) (room.new ≡ room.old)
        result desk.old.held desk.new.held }
{
    with!(desk, alloc, client => client.tell_terminal(alloc, number, room))
}

/// Counts the guesses and the steps of this epoch.
#[unsafe(no_mangle)]
pub extern "C" fn hidewillow_desk_counts(
    alloc: Global,
    desk: &mut DeskHandle,
    counts: &mut Counts,
) -> Told
    ensures { Tells (CountsKernel desk_kernel counts.old counts.new) (counts.new ≡ counts.old) result
        desk.old.held desk.new.held }
{
    with!(desk, alloc, client => client.tell_counts(alloc, counts))
}

/// Ends what the handle holds: the guesses of requests without a reply fail. The handle holds nothing then.
#[unsafe(no_mangle)]
pub extern "C" fn hidewillow_desk_close(alloc: Global, desk: &mut DeskHandle)
    ensures { desk.new.held ≡ None }
{
    let _client = take_out(desk, alloc);
}

/// Tells a host whose log lies in a consensus engine what an answer to a try of a batch means, which was to be put under its
/// number.
#[unsafe(no_mangle)]
pub extern "C" fn hidewillow_engine_batch(
    leadership: u64,
    number: u64,
    answer: u32,
    leader: u64,
    held: u32,
    snap: u64,
) -> Told
    ensures { result ≡ word_told (batch_told (record { leadership = leadership; number = number })
        (batch_answer_of answer leader held snap)) }
{
    tell_batch(Batch { leadership, number }, answer, leader, held, snap)
}

/// Tells it what an answer to a try of a fence means, by which a new leadership deletes all from the gap on.
#[unsafe(no_mangle)]
pub extern "C" fn hidewillow_engine_fence(
    leadership: u64,
    gap: u64,
    answer: u32,
    leader: u64,
    fenced: u64,
) -> Told
    ensures { result ≡ word_told (fence_told (record { leadership = leadership; gap = gap })
        (fence_answer_of answer leader fenced)) }
{
    tell_fence(Fence { leadership, gap }, answer, leader, fenced)
}

/// Tells it what the answer to a round means, a question whether a leadership still holds.
#[unsafe(no_mangle)]
pub extern "C" fn hidewillow_engine_round(
    leadership: u64,
    number: u64,
    answer: u32,
    leader: u64,
) -> Told
    ensures { result ≡ word_told (round_told (record { leadership = leadership; number = number })
        (round_answer_of answer leader)) }
{
    tell_round(Round { leadership, number }, answer, leader)
}

/// Tells it what an answer to one of its tries to lead means, by a word that nobody else puts: of which leadership it is, where
/// it was put; else that of the leader that was seen, and whether it has this word.
#[unsafe(no_mangle)]
pub extern "C" fn hidewillow_engine_lead(answer: u32, leadership: u64, held: u32) -> Told
    ensures { result ≡ word_told (lead_told (lead_answer_of answer leadership held)) }
{
    tell_lead(answer, leadership, held)
}

/// Something was carried out for a host whose log lies in a consensus engine, and waits for a round that is taken later. This is
/// its mark.
#[unsafe(no_mangle)]
pub extern "C" fn hidewillow_rounds_carried_out(rounds: &mut Rounds) -> u64
    ensures { RoundDoes rounds.old (CarriesOut result) rounds.new }
{
    rounds.carried_out()
}

/// Takes the next round, where something waits for one. It is begun later, or a batch is sent then for the first time.
#[unsafe(no_mangle)]
pub extern "C" fn hidewillow_rounds_take(rounds: &mut Rounds) -> Told
    ensures { TakesRound result rounds.old rounds.new }
{
    rounds::take(rounds)
}

/// The host says that it led at some moment after this round was taken.
#[unsafe(no_mangle)]
pub extern "C" fn hidewillow_rounds_still(rounds: &mut Rounds, round: u64) -> Told
    ensures { SaysStill round result rounds.old rounds.new }
{
    rounds::still(rounds, round)
}

/// The host says that it leads no more.
#[unsafe(no_mangle)]
pub extern "C" fn hidewillow_rounds_lost(rounds: &mut Rounds)
    ensures { RoundDoes rounds.old Loses rounds.new }
{
    rounds.lost();
}

/// Whether what has this mark may be told.
#[unsafe(no_mangle)]
pub extern "C" fn hidewillow_rounds_may_tell(rounds: &Rounds, mark: u64) -> bool
    ensures { result ≡ may_tell mark rounds.now }
{
    rounds.may_tell(mark)
}
