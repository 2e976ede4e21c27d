//! Which rule a turn takes.
ghost use Rattle.std.specs.Prelude.{◌≡◌, ℕ, List, Option, is_some};
ghost use Rattle.sk_script.specs.declared.instruction.Input.{Input};
ghost use Rattle.sk_client.specs.Desk.{fetch_rule, store_rule, unless_kept};
ghost use Rattle.sk_client.specs.Wish.{wished};

use sk_ids::Name;
use sk_objects::content::LAST_VERSION;

/// What is asked of a file whose name is lent, but for the bytes of a store, which are the buffer of the process.
#[derive(Clone, Copy)]
pub(crate) enum Wanted<'a> {
    Get(&'a Name),
    Check(&'a Name, u64),
    Store(&'a Name, u64),
}

/// What a turn does, in a few words.
#[derive(Clone, Copy)]
pub(crate) enum Wish<'a> {
    /// It takes a step without input.
    Steps,
    /// It takes a step with the kept answer.
    TakesKept,
    /// It guesses that the cached copy is good, and asks whether it is.
    Guesses(Wanted<'a>),
    /// It asks, and takes no step.
    Asks(Wanted<'a>),
}

/// What a fetch does where this version is cached.
pub(crate) fn fetch_wish(name: &Name, cached: Option<u64>) -> Wish<'_>
    ensures { (kept : Option Input) (bytes : List ℕ)
        → wished kept bytes result ≡ fetch_rule name.now cached }
{
    match cached {
        Some(version) => Wish::Guesses(Wanted::Check(name, version)),
        None => Wish::Asks(Wanted::Get(name)),
    }
}

/// What a store does where this version is cached.
pub(crate) fn store_wish(name: &Name, cached: Option<u64>) -> Wish<'_>
    ensures { (kept : Option Input) (bytes : List ℕ)
        → wished kept bytes result ≡ store_rule name.now bytes cached }
{
    match cached {
        Some(version) if version < LAST_VERSION => Wish::Guesses(Wanted::Store(name, version)),
        Some(version) => Wish::Asks(Wanted::Store(name, version)),
        None => Wish::Asks(Wanted::Store(name, 0)),
    }
}
