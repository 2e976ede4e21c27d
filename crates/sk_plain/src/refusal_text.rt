//! How refusals are printed.
ghost use Rattle.std.specs.Prelude.{◌≡◌};
ghost use Rattle.sk_plain.specs.RefusalText.{refusal_name};

use crate::Refusal;
use std::fmt;

/// A refusal as it is printed: its number and its name.
#[derive(Clone, Copy)]
pub struct PrintedRefusal(pub Refusal);

impl fmt::Display for PrintedRefusal {
    ghost use Rattle.std.specs.Prelude.{Some};
    ghost use Rattle.sk_plain.specs.RefusalText.{refusal_words};

    ghost output = { λ r. Some (refusal_words r.0) };

    fn fmt<W: fmt::Write>(&self, f: &mut fmt::Formatter<W>) -> fmt::Result {
        let number = self.0.number();
        let name = name_of(self.0);
        write!(f, "{number} {name}")
    }
}

/// The name of a refusal.
fn name_of(refusal: Refusal) -> &'static str
    ensures { result.now ≡ refusal_name refusal }
{
    match refusal {
        Refusal::NoProcess => "NoProcess",
        Refusal::Ended => "Ended",
        Refusal::Mismatch => "Mismatch",
        Refusal::NeedsReply => "NeedsReply",
        Refusal::Blocked => "Blocked",
        Refusal::NoRoom => "NoRoom",
        Refusal::TooMany => "TooMany",
        Refusal::TraceFull => "TraceFull",
        Refusal::Memory => "Memory",
    }
}
