//! Names, texts, contents, processes, guesses and tags by plain bytes and numbers, or else what is wrong.
ghost use Rattle.std.specs.Prelude.{◌≡◌, ◌∷◌, [], IfOk, Some};
ghost use Rattle.sk_ids.specs.Pid.{boot_pid};

use crate::wrong::Wrong;
use sk_ids::{GuessId, Name, Pid, TagSet, Text};
use sk_objects::Content;
use std::alloc::Global;

pub fn name(bytes: &[u8]) -> Result<Name, Wrong>
    ensures { IfOk result (λ name. name ≡ bytes.now) }
{
    Name::new(bytes).ok_or(Wrong::Value)
}

pub fn text(bytes: &[u8]) -> Result<Text, Wrong>
    ensures { IfOk result (λ text. text ≡ bytes.now) }
{
    Text::new(bytes).ok_or(Wrong::Value)
}

pub fn content(version: u64, bytes: &[u8]) -> Result<Content, Wrong>
    ensures { IfOk result
        (λ content. content ≡ record { version = version; bytes = bytes.now }) }
{
    Content::new(version, text(bytes)?).ok_or(Wrong::Value)
}

/// A process of the boot.
pub fn pid(number: u16) -> Result<Pid, Wrong>
    ensures { IfOk result (λ pid. boot_pid number ≡ Some pid) }
{
    Pid::boot(number).ok_or(Wrong::Value)
}

pub fn guess(number: u64) -> Result<GuessId, Wrong>
    ensures { IfOk result (λ id. id ≡ number) }
{
    GuessId::new(number).ok_or(Wrong::Value)
}

/// The tag of a guess.
pub fn tag(alloc: Global, number: u64) -> Result<TagSet, Wrong>
    ensures { IfOk result (λ tags. tags ≡ number ∷ []) }
{
    Ok(TagSet::of(alloc, guess(number)?))
}

/// The tags of these guesses.
pub fn tags(alloc: Global, numbers: &[u64]) -> Result<TagSet, Wrong> {
    let mut all = TagSet::new(alloc);
    for number in numbers {
        all = all.union(&tag(alloc, *number)?)?;
    }
    Ok(all)
}
