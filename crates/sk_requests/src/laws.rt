//! Laws of requests. Each is the contract of a function that does nothing.
ghost use Rattle.sk_requests.specs.Laws.{RequestsAreApart, FaultsAreFinal, FaultsAreApart, PartsAreNone, StreamsReadOnce, StreamsGoOn, CutsDontMatter};

/// At the front of bytes at most one request stands.
pub fn one_law()
    ensures { RequestsAreApart }
{}

/// Bytes that have a fault begin no request, whatever follows them.
pub fn fault_law()
    ensures { FaultsAreFinal }
{}

/// Bytes that have a fault have no other one, whatever follows them.
pub fn one_fault_law()
    ensures { FaultsAreApart }
{}

/// What a reader has read of a request, and told nothing of yet, is no whole request.
pub fn part_law()
    ensures { PartsAreNone }
{}

/// A stream has one reading, whatever way it was cut into pieces.
pub fn stream_law()
    ensures { StreamsReadOnce }
{}

/// What is told of a stream is told of it when more bytes come, and a request that they end is told next.
pub fn on_law()
    ensures { StreamsGoOn }
{}

/// Two readers are told the same of a stream, whatever way it was cut for each.
pub fn cut_law()
    ensures { CutsDontMatter }
{}
