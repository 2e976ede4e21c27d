//! The end of a store whose leadership is over.
ghost use Rattle.std.specs.Prelude.{◌≡◌, length, None};
ghost use Rattle.sk_led.specs.Base.{word_refused, decided, Failed, Does, Learns};
ghost use Rattle.sk_led.specs.Winding.{DecidesAll, FailPost, TakePost, WindUpPost};

use sk_batches::{Refusal, Sealed};
use sk_durable::Store;

/// Winds a store up whose leadership is over, once each frame that was sent has its word, and those that are lost were told as
/// failed: the first of these is cut off with all behind it, and so is what was never sent. All of it is refused. The room is as
/// long as the next frame, and what is in it then is nothing. After a refusal it may be called again.
pub fn wind_up(store: &mut Store, room: &mut [u8]) -> Result<(), Refusal>
    ensures { WindUpPost result (length room.old) store.old store.new }
{
    decide_all(store);
    while has_failed(store, room)? {
        store.cut(true)?;
        decide_all(store);
    }
    Ok(())
}

/// Decides all that can be.
fn decide_all(store: &mut Store)
    ensures { DecidesAll store.old store.new }
{
    while let Some(_outcome) = store.decide() {}
}

/// Whether a frame has failed that is to be cut off: one that was lost, or else the next, which is taken for that, if anything
/// waits for it.
fn has_failed(store: &mut Store, room: &mut [u8]) -> Result<bool, Refusal>
    requires { decided store.old.batched.queue.batches ≡ None }
    ensures { FailPost result (length room.old) store.old store.new }
{
    if store.cut_due().is_some() {
        return Ok(true);
    }
    if store.in_flight() > 0 {
        return Err(Refusal::Busy);
    }
    match take(store, room) {
        Ok(sealed) => {
            fail(store, sealed.frame);
            Ok(true)
        }
        Err(Refusal::Nothing) => Ok(false),
        Err(why) => Err(why),
    }
}

/// Takes the next frame, in the next segment where its own has no room for it.
fn take(store: &mut Store, room: &mut [u8]) -> Result<Sealed, Refusal>
    ensures { TakePost result (length room.old) store.old store.new }
{
    let taken = store.take_frame(room);
    let is_full = matches!(taken, Err(Refusal::Full));
    if is_full {
        store.turn()?;
        return store.take_frame(room);
    }
    taken
}

/// A frame that was taken is told as failed.
fn fail(store: &mut Store, frame: u64)
    requires { word_refused store.old.batched.queue frame ≡ None }
    ensures { Does store.old (Learns frame Failed) store.new }
{
    match store.failed(frame) {
        Ok(()) => {}
        Err(_) => unreachable!(),
    }
}
