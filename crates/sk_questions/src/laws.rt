//! What names an entity is read as that entity. Each law is the contract of a function that does nothing.
ghost use Rattle.std.specs.Prelude.{◌≡◌, Ok};
ghost use Rattle.std.specs.List.{AllByRecursion};
ghost use Rattle.sk_ids.specs.declared.entity.Entity.{Entity};
ghost use Rattle.sk_words.specs.Words.{words};
ghost use Rattle.sk_words.specs.Spelling.{spaced};
ghost use Rattle.sk_words.specs.Printed.{IsWord};
ghost use Rattle.sk_questions.specs.Named.{IsEntity, entity, entity_words};

/// Every entity that there can be has words that name it, and no other; they are cut again where single spaces part them.
pub fn entities()
    ensures again { (e : Entity) → IsEntity e → entity (entity_words e) ≡ Ok e }
    ensures words { (e : Entity) → IsEntity e → AllByRecursion IsWord (entity_words e) }
    ensures line { (e : Entity) → IsEntity e → words (spaced (entity_words e)) ≡ entity_words e }
{}
