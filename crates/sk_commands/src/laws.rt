//! Commands are steps of a kernel. Each law is the contract of a function that does nothing.
ghost use Rattle.std.specs.Prelude.{◌≡◌, ◌∷◌, ℕ, List, None, Ok, Option, Some, [], false, flat_map, map};
ghost use Rattle.sk_commands.specs.Base.{perform, effect_of, Limits, Splits, Command, Name, Run, Queue, Work};
ghost use Rattle.sk_commands.specs.Table.{asks, is_told_of_all, may_write, outcome, Have};
ghost use Rattle.sk_commands.specs.Work.{comes_to, may_write_some, wants_all};
ghost use Rattle.sk_commands.specs.Law.{act, deed, may_write_said};
ghost use Rattle.sk_commands.specs.Names.{may_write_by, name_of};
ghost use Rattle.sk_commands.specs.Parsing.{order_of};
ghost use Rattle.sk_commands.specs.Session.{turn};
ghost use Rattle.sk_commands.specs.Requests.{log_text, requests_of, words_for, work_for, AreAsked, AreWithin, IsReplyOrAsked, WaitsSaid};

/// For whatever keys have, and whatever keys are known: the step of a command, or of a queue, asks for just the keys that are
/// looked at, and then writes and says what comes of them.
pub fn commands_act()
    ensures { (channel : ℕ) (known : List (List ℕ)) (work : Work) (has : Have)
        → perform has (act channel known work) ≡ Ok (effect_of has (deed channel known work has)) }
{}

/// For a command, or a queue, that is not told of all keys it is the same whatever keys are known.
pub fn others_act_alone()
    ensures asks { (command : Command) (known others : List (List ℕ)) → is_told_of_all command ≡ false
        → asks known command ≡ asks others command }
    ensures outcome { (command : Command) (known others : List (List ℕ)) (has : Have)
        → is_told_of_all command ≡ false → outcome known command has ≡ outcome others command has }
    ensures work { (work : Work) (known others : List (List ℕ)) (has : Have)
        → wants_all work ≡ false → comes_to known work has ≡ comes_to others work has }
{}

/// What may not write writes nothing, for whatever keys have and whatever keys are known.
pub fn others_write_nothing()
    ensures command { (command : Command) (known : List (List ℕ)) (has : Have)
        → may_write command ≡ false → (outcome known command has).written ≡ [] }
    ensures work { (work : Work) (known : List (List ℕ)) (has : Have)
        → may_write_some work ≡ false → (comes_to known work has).written ≡ [] }
{}

/// A request whose first word names a command that may not write says none that may.
pub fn names_tell_what_may_write()
    ensures { (word : List ℕ) (words : List (List ℕ)) (name : Name) → name_of word ≡ Some name
        → may_write_by name ≡ false → may_write_said (order_of (word ∷ words)) ≡ false }
{}

/// What a request says is said again by the words that a log keeps of it.
pub fn commands_are_said_again()
    ensures { (words : List (List ℕ)) (command : Command) → order_of words ≡ Ok (Run command)
        → order_of (words_for command) ≡ Ok (Run command) }
{}

/// What a channel carries out is what its requests said, whatever it was asked before.
pub fn channels_carry_out_what_is_said()
    ensures { (queue : Option Queue) (words : List (List ℕ)) → WaitsSaid queue
        → WaitsSaid (turn queue (order_of words)).queue
        × IsReplyOrAsked (turn queue (order_of words)).work }
{}

/// What a channel carries out for the requests that a log keeps is just what was carried out.
pub fn works_are_carried_out_again()
    ensures { (works : List Work) → AreAsked works → work_for None (flat_map requests_of works) ≡ works }
{}

/// A reader of the bytes that a log keeps is told of just these requests, where each is within its limits.
pub fn logs_are_read_again()
    ensures { (limits : Limits) (works : List Work)
        → AreWithin limits (flat_map requests_of works)
        → Splits limits (map Some (flat_map requests_of works)) [] (flat_map log_text works) }
{}
