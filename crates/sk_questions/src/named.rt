//! The entity that words name.
ghost use Rattle.std.specs.Prelude.{◌≡◌, option_map};
ghost use Rattle.sk_questions.specs.Named.{halves, maker, object_by, entity_of, entity};

use sk_ids::{Entity, Name, ObjId, Pid};
use sk_words::{FaultKind, Operand, Words, one, two};
use std::marker::Model;

/// An object as one word: its maker, or 0, a colon and its number. Contracts see the object.
#[derive(Clone, Copy)]
pub struct Object {
    id: ObjId,
}

impl Model for Object {
    ghost use Rattle.sk_ids.specs.declared.pid.ObjId.{ObjId};

    ghost Value = { ObjId };

    ghost view = { λ o. o.id };

    ghost inverse = { λ id. record { id = id } };
}

impl Object {
    /// The object.
    pub fn id(self) -> ObjId
        ensures { result ≡ self }
    {
        self.id
    }
}

impl Operand for Object {
    ghost use Rattle.sk_questions.specs.Named.{object};

    ghost said = { object };

    fn read(word: &[u8]) -> Result<Object, FaultKind> {
        match halves(word) {
            Some((first, second)) => object_by(first, second),
            None => Err(FaultKind::Operand),
        }
    }
}

/// What stands before and behind the first colon.
fn halves(word: &[u8]) -> Option<(&[u8], &[u8])>
    ensures { option_map (λ h. (h.0.now, h.1.now)) result ≡ halves word.now }
{
    for (i, byte) in word.iter().enumerate() {
        if *byte == b':' {
            return Some((&word[..i], &word[i + 1..]));
        }
    }
    None
}

/// The maker of an object; the boot's objects have none.
fn maker(word: &[u8]) -> Result<Option<Pid>, FaultKind>
    ensures { result ≡ maker word.now }
{
    if word == b"0".as_slice() {
        return Ok(None);
    }
    Ok(Some(Operand::read(word)?))
}

/// The object of this maker and this number.
fn object_by(first: &[u8], second: &[u8]) -> Result<Object, FaultKind>
    ensures { result ≡ object_by first.now second.now }
{
    let maker = maker(first)?;
    let count = Operand::read(second)?;
    Ok(Object {
        id: ObjId { maker, count },
    })
}

/// What words name of which this is the first.
#[tactic(auto, unfolding(crate::specs::Named::entity_of))]
fn entity_of(word: &str, words: &Words) -> Result<Entity, FaultKind>
    ensures { result ≡ entity_of word.now words.now }
{
    match word {
        "proc" => Ok(Entity::Proc(one(words)?)),
        "sig" => Ok(Entity::Sig(one(words)?)),
        "exit" => Ok(Entity::Exit(one(words)?)),
        "obj" => {
            let object: Object = one(words)?;
            Ok(Entity::Obj(object.id()))
        }
        "link" => {
            let (directory, name): (Object, Name) = two(words)?;
            Ok(Entity::Link(directory.id(), name))
        }
        "copy" => Ok(Entity::Copy(one(words)?)),
        _ => Err(FaultKind::Word),
    }
}

/// What words name of which these bytes are the first.
fn entity_behind(word: &[u8], words: &Words) -> Result<Entity, FaultKind>
    ensures { result ≡ entity_of word.now words.now }
{
    match str::from_utf8(word) {
        Ok(word) => entity_of(word, words),
        Err(_) => Err(FaultKind::Word),
    }
}

/// The entity that these words name, as `proc 1.3`, `obj 1:2` or `link 0:1 NAME`.
pub fn entity(words: &Words) -> Result<Entity, FaultKind>
    ensures { result ≡ entity words.now }
{
    let mut words = words.again();
    match words.next() {
        Some(first) => entity_behind(first, &words),
        None => Err(FaultKind::Word),
    }
}
