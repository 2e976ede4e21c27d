//! New epochs of what is at play.
ghost use Rattle.std.specs.Prelude.{◌≡◌, Some, None, MatchResult};
ghost use Rattle.sk_talk.specs.Epochs.{undecided_told, EpochBegins, EpochComes};

use crate::play::Play;
use sk_kernel::EpochRefusal;
use sk_plain::Trace;
use sk_play::EpochTold;
use sk_terminal::Texts;
use std::alloc::AllocError;

impl Play {
    /// Begins a new epoch of a kernel of which no guess is undecided, or of a world where each request has its reply. The
    /// trace, and what terminals have released, are handed out, and the tokens of struck guesses are let go; numbers of guesses
    /// and of requests go on. Refusals: `Undecided`, with how many guesses or requests, then `Memory`.
    pub fn begin_epoch(&mut self) -> Result<(Trace, Texts), EpochRefusal>
        ensures { EpochBegins result self.old self.new }
    {
        match self {
            Play::Steps(session) => session.begin_epoch(),
            Play::World(world) => world.new_epoch(),
        }
    }

    /// The epoch is refused while so many guesses are undecided, or so many requests have no reply.
    fn undecided(&self, count: usize) -> EpochTold
        ensures { result ≡ undecided_told self.now count }
    {
        match self {
            Play::Steps(_) => EpochTold::Undecided(count),
            Play::World(_) => EpochTold::Pending(count),
        }
    }

    /// Begins a new epoch, of which the trace and the texts are let go, and tells what came of it.
    pub fn new_epoch(&mut self) -> Result<EpochTold, AllocError>
        ensures { MatchResult result (λ told. EpochComes (Some told) self.old self.new)
            (λ _. EpochComes None self.old self.new) }
    {
        match self.begin_epoch() {
            Ok((trace, _texts)) => Ok(EpochTold::Begun(trace.events().len())),
            Err(EpochRefusal::Undecided(count)) => Ok(self.undecided(count)),
            Err(EpochRefusal::Memory) => Err(AllocError),
        }
    }
}
