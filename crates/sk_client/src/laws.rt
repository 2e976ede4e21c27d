//! What holds of a kernel with its desk and a server, after every list of turns, replies and foreign edits. Each law is
//! the contract of a function that does nothing.
ghost use Rattle.std.specs.Prelude.{◌≡◌, ℕ, length, List, ◌++◌, Some, None, Result, Ok};
ghost use Rattle.sk_client.specs.Base.{BootView, LeaseView, after_private, Token, Input, TerminalMap, TraceView};
ghost use Rattle.sk_client.specs.Base.{Refusal, KernelView, booted, record_at, next_guess, step_refused, guess_refused};
ghost use Rattle.sk_client.specs.Base.{StepPost, GuessPost, CommitPost, FailPost, EpochPost, HandInPost, Outcome};
ghost use Rattle.sk_client.specs.Base.{Stranger, FailRefusal, EpochRefusal, HandIn, ServerView, WorldEvent};
ghost use Rattle.sk_trace.specs.declared.event.Event.TheVariants as events;
ghost use Rattle.sk_client.specs.Table.{Bytes, IsNumbered};
ghost use Rattle.sk_client.specs.Desk.{DeskView, opened, entry};
ghost use Rattle.sk_client.specs.DeskCalls.{DeskEpochPost};
ghost use Rattle.sk_client.specs.Exchanges.{Exchanges, Leads};
ghost use Rattle.sk_client.specs.Ready.{WasBooted, IsReady, Begins, Always, AlwaysLater};
ghost use Rattle.sk_client.specs.AcceptedStores.{StoresStand, StoresStood, StandApart};
ghost use Rattle.sk_client.specs.AskedSteps.{StepsAreTaken, ForgottenAreDropped};
ghost use Rattle.sk_client.specs.Replied.{StepsAreReplied, AreRepliedOnce, PlacesAreKept};
ghost use Rattle.sk_client.specs.Writes.{writes_of, AreWritten};
ghost use Rattle.sk_client.specs.WorldView.{WorldView, joined};

use sk_script::{Boot, BootProcess};

/// A kernel that was booted is such after each step, guess, commit, failure, hand-in and new epoch, whatever they are
/// answered, by what these calls ensure; the process of a lease is what its instructions made of it, as of each lease. With the
/// numbers of its boot (`numbered`) it is so from `Kernel::boot` on. It is ready where nothing is undecided, which is what
/// `Desk::new` requires of it.
pub fn ready()
    ensures boot { (number : ℕ) (boot : BootView) (limit : ℕ) → IsNumbered boot
        → WasBooted (booted number boot limit) }
    ensures step { (result : Result (Unit {0}) Refusal) (pid : ℕ) (input : Input)
        (old new : KernelView)
        → StepPost result (step_refused old (entry pid input None)) (events.Step pid input) old
        new → WasBooted old → WasBooted new }
    ensures guess { (result : Result Token Refusal) (pid : ℕ) (input : Input) (old new : KernelView)
        → GuessPost result (guess_refused old (entry pid input (Some (next_guess old)))) pid input
        old new → WasBooted old → WasBooted new }
    ensures commit { (result : Result Outcome Stranger) (token : Token) (old new : KernelView)
        → CommitPost result token old new → WasBooted old → WasBooted new }
    ensures fail { (result : Result Outcome FailRefusal) (token : Token) (old new : KernelView)
        → FailPost result token old new → WasBooted old → WasBooted new }
    ensures hand_in { (result : Result (Unit {0}) (LeaseView × HandIn)) (l : LeaseView)
        (old new : KernelView)
        → HandInPost result l old new → after_private l.script l.count l.lent ≡ Some l.now
        → WasBooted old → WasBooted new }
    ensures new_epoch { (result : Result (TraceView × TerminalMap) EpochRefusal)
        (old new : KernelView)
        → EpochPost result old new → WasBooted old → WasBooted new }
{}

/// A world begins where a desk is opened over a kernel that is ready, in whatever epoch, and a server has answered nothing; and
/// after any list of its events, where its desk begins a new epoch, a world begins over that desk, with the server as it is.
pub fn begins()
    ensures first { (k : KernelView) (server : ServerView) → IsReady k → server.next ≡ 1
        → Begins (joined (opened k) server) }
    ensures epoch { Always (λ w served v. (left : TraceView × TerminalMap) (new : DeskView)
        → DeskEpochPost (Ok left) v.desk new → Begins (joined new v.server)) }
{}

/// Accepted stores stand: after any list of a world's events, and any list behind it, the step of each store that the
/// server accepted in the first list stands in the record of the kernel, where it was made with a guess, or its reply was
/// given in that list (`stand`). And it stood there since its guess: after the first list there stands the step of each store
/// that was made with a guess by then, if the server accepts it in that list or in the one behind (`stood`). What is made by
/// then has a number below that of the desk's next request.
pub fn accepted()
    ensures stand { AlwaysLater (λ w served v more last. StoresStand served v last) }
    ensures stood { AlwaysLater (λ w served v more last. StoresStood (served ++ more) v) }
{}

/// No two accepted stores have one step: each has a place of the record where its step stands, and no two have one place.
pub fn apart()
    ensures { AlwaysLater (λ w served v more last. StandApart served v last) }
{}

/// Steps and accepted requests are one for one. Of the steps that a record has since the world began those are meant that were
/// given Good and were asked, or whose guess committed; of the accepted requests those whose reply was given. Each such step
/// is that of such a request, each such request has its step, and no two have one. A store's step sets the copy, a check's
/// writes no copy at all, and no fetch of a copy that is not there has one. No two steps are one request's, also of those that
/// were given something else than Good or whose guess is undecided. Each asked request whose reply was given has its step,
/// with what the reply gives, but those that the server dropped. A step is by its request's process, which is said of the
/// requests that were pending after the first list. No request has two replies (`replies`), whatever they answer.
pub fn replied()
    ensures steps { AlwaysLater (λ w served v more last.
        StepsAreReplied (length (record_at w.desk.kernel)) (served ++ more) v last) }
    ensures replies { Always (λ w served v. AreRepliedOnce served v) }
{}

/// The trace keeps its limit, with a place for the decision of each undecided guess and for the step of each asked request.
pub fn places()
    ensures { Always (λ w served v. PlacesAreKept v) }
{}

/// No asked step is left out: after any list of a world's events, a reply that is answered by `Taken` has its step
/// accepted by the kernel and in the trace, and one that is answered by `Forgotten` says that the server dropped the
/// request.
pub fn taken()
    ensures steps { Always (λ w served v. StepsAreTaken v) }
    ensures forgotten { Always (λ w served v. ForgottenAreDropped v) }
{}

/// The server's files after any list of a world's events are the first ones after each write in order: the foreign edits
/// that were answered `Ok`, and just the stores that the server accepted. Each write expects the version that its file has
/// then.
pub fn files()
    ensures { (w : WorldView) (es : List WorldEvent) (served : Exchanges) (last : WorldView)
        → (h : Leads w es served last)
        → AreWritten w (writes_of w es served last h) served last }
{}

/// The numbers of a boot's processes are as the laws ask.
pub fn numbered(boot: &Boot)
    ensures { IsNumbered boot.now }
{
    for process in boot.processes() {
        number_of(process);
    }
}

/// The number of a process.
fn number_of(process: &BootProcess) -> u16
    ensures value { result ≡ process.now.number }
{
    process.number
}
