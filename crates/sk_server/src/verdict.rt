//! How a request is answered, in a few words.
ghost use Rattle.std.specs.Prelude.{◌≡◌};
ghost use Rattle.sk_server.specs.Files.{FileMap};
ghost use Rattle.sk_server.specs.Server.{refused_by};
ghost use Rattle.sk_server.specs.Verdict.{said};
ghost use Rattle.sk_server.specs.declared.request.Ask.{Ask};

use sk_ids::GuessId;

/// An answer, where the content is that of the file that is asked about.
#[derive(Clone, Copy)]
pub(crate) enum Verdict {
    Yes,
    No,
    Copy,
    Dropped,
}

/// The guess that an answer refuses.
pub(crate) fn refused_by(guess: Option<GuessId>, verdict: Verdict) -> Option<GuessId>
    ensures { (files : FileMap) (ask : Ask) → result ≡ refused_by guess (said files ask verdict) }
{
    match verdict {
        Verdict::No | Verdict::Dropped => guess,
        Verdict::Yes | Verdict::Copy => None,
    }
}
