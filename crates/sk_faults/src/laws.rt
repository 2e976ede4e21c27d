//! What is found in a line is what its reading tells. Each law is the contract of a function that does nothing.
ghost use Rattle.std.specs.Prelude.{◌≡◌, ℕ, List, false};
ghost use Rattle.sk_faults.specs.Base.{WorldEvent, words, first_of, ScriptState, script_line, Event, event_line, Call};
ghost use Rattle.sk_faults.specs.Base.{step_line, Declared, line_said, is_end, world_line, Declarations, Script, Steps};
ghost use Rattle.sk_faults.specs.Base.{World, Trace};
ghost use Rattle.sk_faults.specs.Found.{IsToldIn};

/// What is found in a line of a script is what its reading tells.
pub fn script_lines()
    ensures { (s : ScriptState) (line : List ℕ) → is_end line ≡ false
        → IsToldIn Script (words line) (script_line s line) }
{}

/// What is found in a declaration is what its reading tells, whatever is declared.
pub fn declarations()
    ensures { (d : Declared) (line : List ℕ)
        → IsToldIn Declarations (words line) (line_said d (first_of (words line))) }
{}

/// What is found in an event of a world is what its reading tells.
pub fn world_lines()
    ensures { (before : List WorldEvent) (line : List ℕ)
        → IsToldIn World (words line) (world_line before line) }
{}

/// What is found in an event of steps is what its reading tells.
pub fn step_lines()
    ensures { (before : List Call) (line : List ℕ)
        → IsToldIn Steps (words line) (step_line before line) }
{}

/// What is found in an event of a trace is what its reading tells.
pub fn trace_lines()
    ensures { (before : List Event) (line : List ℕ)
        → IsToldIn Trace (words line) (event_line before line) }
{}
