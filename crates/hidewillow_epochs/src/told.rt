//! What calls are told, as numbers for C.
ghost use Rattle.std.specs.Prelude.{◌≡◌, if◌then◌else◌};
ghost use Rattle.hidewillow_epochs.specs.Told.{just, number_told, place_told, refused, step_told};

use real_epochs::Refused;

/// What was called for is done; told is the number of the epoch that began, or the checkpoint of the one that has its reply.
pub const DONE: u32 = 0;
/// What was asked for is told.
pub const SHOWN: u32 = 1;
/// Of what was asked for there is nothing.
pub const NONE: u32 = 2;
/// What was asked is so.
pub const YES: u32 = 3;
/// What was asked is not so.
pub const NO: u32 = 4;
/// Refused, with the number of the reason; nothing has changed.
pub const REFUSED: u32 = 5;
/// Want of memory; nothing has changed.
pub const MEMORY: u32 = 6;
/// The handle holds epochs already, and it is left as it was.
pub const HELD: u32 = 7;
/// The handle holds nothing.
pub const CLOSED: u32 = 8;

/// What a call is told: the number of its answer, that of what the answer names, and how many names a refusal took back.
#[repr(C)]
#[derive(Clone, Copy)]
pub struct Told {
    pub answer: u32,
    pub number: u64,
    pub names: usize,
}

impl Told {
    pub fn of(answer: u32, number: u64) -> Told
        ensures { result ≡ just answer number }
    {
        Told {
            answer,
            number,
            names: 0,
        }
    }

    /// This answer, of a refusal that took back so many names.
    pub fn with_names(self, names: usize) -> Told
        ensures { result ≡ record self { names = names } }
    {
        Told { names, ..self }
    }

    /// What a call is told of what may be there: this answer with its number, or `NONE`.
    pub fn of_place(place: Option<u64>, answer: u32) -> Told
        ensures { result ≡ place_told answer place }
    {
        match place {
            Some(number) => Told::of(answer, number),
            None => Told::of(NONE, 0),
        }
    }

    /// What a question is told: `YES` or `NO`.
    pub fn of_answer(is_so: bool) -> Told
        ensures { result ≡ if is_so then just YES 0 else just NO 0 }
    {
        if is_so {
            Told::of(YES, 0)
        } else {
            Told::of(NO, 0)
        }
    }

    /// What a call that begins an epoch is told: its number, or why it is refused.
    pub fn of_number(did: Result<u64, Refused>) -> Told
        ensures { result ≡ number_told did }
    {
        match did {
            Ok(number) => Told::of(DONE, number),
            Err(why) => Told::refused(why),
        }
    }

    /// What a call is told by which something was to happen: that it has, or why it is refused.
    pub fn of_step(did: Result<(), Refused>) -> Told
        ensures { result ≡ step_told did }
    {
        match did {
            Ok(()) => Told::of(DONE, 0),
            Err(why) => Told::refused(why),
        }
    }

    fn refused(why: Refused) -> Told
        ensures { result ≡ refused why }
    {
        match why {
            Refused::NoName => Told::of(REFUSED, 1),
            Refused::Changed => Told::of(REFUSED, 2),
            Refused::TooMany => Told::of(REFUSED, 3),
            Refused::NoNumber => Told::of(REFUSED, 4),
            Refused::Memory => Told::of(MEMORY, 0),
        }
    }
}
