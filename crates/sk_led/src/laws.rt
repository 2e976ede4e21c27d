//! What holds of stores whose log lies in an engine. Each law is the contract of a function that does nothing.
ghost use Rattle.sk_led.specs.Host.{RepliesAreNewest};
ghost use Rattle.sk_led.specs.Laws.{LeadersGoOn, LoggedIsInEngine, NobodyWaits, RefusedIsNowhere, RepliesRestOnEngine};
ghost use Rattle.sk_led.specs.Order.{OneOrder};
ghost use Rattle.sk_led.specs.Winding.{WoundUpIsLed};

/// What a batch logs that was told as logged stands in the engine for ever, and each later leadership finds it.
pub fn logged_law()
    ensures { LoggedIsInEngine }
{}

/// A reply that went out depends on such batches alone: what each of them logs stands in the engine for ever.
pub fn replies_law()
    ensures { RepliesRestOnEngine }
{}

/// What is found of a leadership is what the first of its logged commands leave of the store that it began with: among these is
/// all of each batch that was told as logged.
pub fn found_law()
    ensures { LeadersGoOn }
{}

/// No command that was refused, be it since the leadership was over, is among what is found of that leadership.
pub fn refused_law()
    ensures { RefusedIsNowhere }
{}

/// Once no batch is undecided, each ticket was told its answer, or that nothing was done.
pub fn ended_law()
    ensures { NobodyWaits }
{}

/// A reply goes out only behind a round that was taken after its command was carried out, and that has held: so it is not old.
pub fn newest_law()
    ensures { RepliesAreNewest }
{}

/// Over any number of leaderships there is one order of commands, of each the first that it logged, with all that are settled,
/// and the last begins with what a plain store has behind it.
pub fn order_law()
    ensures { OneOrder }
{}

/// However a store that led is wound up, all of this holds of it still, if of its frames just lost ones were told as failed.
pub fn wound_up_law()
    ensures { WoundUpIsLed }
{}
