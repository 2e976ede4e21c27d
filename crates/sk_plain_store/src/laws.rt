//! What is known of a plain store. Each law is the contract of a function that does nothing.
ghost use Rattle.sk_plain_store.specs.Laws.{HoldsWhatIsWritten, KnowsItsKeys, StaysInOrder};

/// After writes each key has what it was given last, and the others what they had.
pub fn map_law()
    ensures { HoldsWhatIsWritten }
{}

/// The keys that are known are just those that are there.
pub fn keys_law()
    ensures { KnowsItsKeys }
{}

/// The keys stay in the order of their bytes, each once.
pub fn order_law()
    ensures { StaysInOrder }
{}
