//! What the definitions of kernels come to. Each law is the contract of a function that does nothing.
ghost use Rattle.std.specs.Prelude.{◌≡◌, ◌<◌, ◌↔◌, ℕ, false, List, [], None, Some};
ghost use Rattle.sk_kernel.specs.Base.{has, Undecided, Entity, Input, LeaseView, Event, after_private};
ghost use Rattle.sk_trace.specs.declared.event.Event.TheVariants as events;
ghost use Rattle.sk_kernel.specs.Kernel.{KernelView, HasStatus, RestsOn, next_guess, entry, tags_at, undecided_at, with_event};
ghost use Rattle.sk_kernel.specs.Calls.{IsNextEpoch};
ghost use Rattle.sk_kernel.specs.Laws.{HasSoundTrace, AnswersAlike, with_events, WasDrawn, KeepsUnwritten, WritesAll, AreEntries};
ghost use Rattle.sk_kernel.specs.HandIn.{IsAsLent, with_steps};

/// The number of the next guess is above that of each guess that was made.
pub fn numbers()
    ensures { (k : KernelView) (id : ℕ) → HasSoundTrace k → WasDrawn k id → id < next_guess k }
{}

/// A kernel behind a new epoch goes on as the one without it: after the same events it answers each call alike, but for the
/// trace, its room and the texts.
pub fn epochs()
    ensures sound { (old new : KernelView) (later : List Event) → HasSoundTrace old
        → undecided_at old ≡ [] → IsNextEpoch old new
        → HasSoundTrace (with_events old later) ↔ HasSoundTrace (with_events new later) }
    ensures alike { (old new : KernelView) (later : List Event)
        → HasSoundTrace (with_events old later) → undecided_at old ≡ [] → IsNextEpoch old new
        → AnswersAlike (with_events old later) (with_events new later) }
{}

/// What an accepted step or guess does not write keeps its value and its tags.
pub fn unwritten()
    ensures step { (k : KernelView) (pid : ℕ) (input : Input) → HasSoundTrace k
        → KeepsUnwritten k (entry pid input None) (with_event k (events.Step pid input)) }
    ensures guess { (k : KernelView) (pid : ℕ) (input : Input) → HasSoundTrace k
        → KeepsUnwritten k (entry pid input (Some (next_guess k)))
        (with_event k (events.Guess (next_guess k) pid input)) }
{}

/// What an accepted step or guess writes has the value that the step gives it, and depends on just what the step depends on.
pub fn written()
    ensures step { (k : KernelView) (pid : ℕ) (input : Input) → HasSoundTrace k
        → WritesAll k (entry pid input None) (with_event k (events.Step pid input)) }
    ensures guess { (k : KernelView) (pid : ℕ) (input : Input) → HasSoundTrace k
        → WritesAll k (entry pid input (Some (next_guess k)))
        (with_event k (events.Guess (next_guess k) pid input)) }
{}

/// A hand-in of so many private instructions is as many entries of the record, and leaves the process as they do.
pub fn handed_in()
    ensures { (k : KernelView) (l : LeaseView) → HasSoundTrace k → IsAsLent k l
        → after_private l.script l.count l.lent ≡ Some l.now
        → AreEntries k (with_steps k l.lent.pid l.count) l.lent.pid l.count l.now }
{}

/// After the failure of a guess nothing depends on it.
pub fn failed()
    ensures rests { (k : KernelView) (id : ℕ) (e : Entity)
        → RestsOn (with_event k (events.Fail id)) e id → ⊥ }
    ensures tags { (k : KernelView) (id : ℕ) (e : Entity) → HasSoundTrace k
        → HasStatus k id Undecided → has id (tags_at (with_event k (events.Fail id)) e) ≡ false }
{}
