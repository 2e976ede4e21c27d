//! What a word has to be.
use sk_questions::Object;
use sk_script::Form;
use sk_words::Operand;
use std::fmt;

/// What is wanted behind a first word.
#[derive(Clone, Copy)]
pub enum Wanted {
    /// A word of this form.
    Form(Form),
    /// The kind of an entity, and what names it behind that.
    Entity,
    /// An object.
    Object,
}

/// What is wanted behind a word, in order.
pub(crate) type Wants = &'static [Wanted];

/// What is wanted behind the kind of an entity; `None` where the word is no such kind.
pub(crate) fn wants_of_entity(kind: &[u8]) -> Option<Wants> {
    match kind {
        b"proc" | b"sig" | b"exit" => Some(&[Wanted::Form(Form::Process)]),
        b"obj" => Some(&[Wanted::Object]),
        b"link" => Some(&[Wanted::Object, Wanted::Form(Form::Name)]),
        b"copy" => Some(&[Wanted::Form(Form::Name)]),
        _ => None,
    }
}

/// What is wanted behind the first word of a line that asks; `None` where the word doesn't ask.
pub(crate) fn wants_of_question(first: &[u8]) -> Option<Wants> {
    match first {
        b"value" | b"tags" => Some(&[Wanted::Entity]),
        b"dependents" => Some(&[Wanted::Form(Form::Guess)]),
        b"terminal" | b"released" => Some(&[Wanted::Form(Form::Index)]),
        b"counts" | b"trace" | b"report" | b"epoch" => Some(&[]),
        b"lease" => Some(&[Wanted::Form(Form::Process), Wanted::Form(Form::Short)]),
        _ => None,
    }
}

/// Whether a word names an object.
fn is_object(word: &[u8]) -> bool {
    let object: Result<Object, _> = Operand::read(word);
    object.is_ok()
}

impl Wanted {
    /// Whether a word is what is wanted.
    pub fn fits(self, word: &[u8]) -> bool {
        match self {
            Wanted::Form(form) => form.fits(word),
            Wanted::Entity => wants_of_entity(word).is_some(),
            Wanted::Object => is_object(word),
        }
    }

    /// What it is called.
    pub fn called(self) -> &'static str {
        match self {
            Wanted::Form(form) => form.called(),
            Wanted::Entity => "entity",
            Wanted::Object => "object",
        }
    }
}

/// The words that are wanted.
impl fmt::Display for Wanted {
    fn fmt<W: fmt::Write>(&self, f: &mut fmt::Formatter<W>) -> fmt::Result {
        match self {
            Wanted::Form(form) => write!(f, "{form}"),
            Wanted::Entity => write!(
                f,
                "proc P, sig P, exit P, obj M:N, link M:N NAME or copy NAME"
            ),
            Wanted::Object => write!(
                f,
                "M:N, the process that made it or 0, and its number there"
            ),
        }
    }
}
