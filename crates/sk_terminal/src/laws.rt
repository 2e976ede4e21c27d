//! Laws of terminals. Each is the contract of a function that does nothing.
ghost use Rattle.std.specs.Prelude.{ℕ, List, [], ◌∷◌, ◌++◌};
ghost use Rattle.sk_record.specs.Machine.{released, lightened, not_dropped};
ghost use Rattle.sk_record.specs.Release.{IsFront};
ghost use Rattle.sk_terminal.specs.Terminal.{TaggedText};

/// What was released stays released, whatever is said, committed or thrown away.
pub fn released_stays()
    ensures said { (texts : List TaggedText) (next : TaggedText)
        → IsFront (released texts) (released (texts ++ next ∷ [])) }
    ensures committed { (texts : List TaggedText) (id : ℕ)
        → IsFront (released texts) (released (lightened id texts)) }
    ensures thrown_away { (texts : List TaggedText) (id : ℕ)
        → IsFront (released texts) (released (not_dropped id texts)) }
{}
