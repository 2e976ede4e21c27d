//! Laws of channels. Each is the contract of a function that does nothing.
ghost use Rattle.sk_channels.specs.Laws.{AsksAreSaid, CutsDontMatter, TicketsInOrder};

/// Where there was memory to queue, a channel asks for just what the requests of its stream say, one after another.
pub fn asks_law()
    ensures { AsksAreSaid }
{}

/// Two channels ask for the same of a stream, with the same tickets, whatever way it was cut for each.
pub fn cuts_law()
    ensures { CutsDontMatter }
{}

/// What a channel has handed over is a front part of what its tickets are told, in order, each once.
pub fn order_law()
    ensures { TicketsInOrder }
{}
