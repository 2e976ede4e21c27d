//! What the lines of a section of a world say.
ghost use Rattle.sk_scenario.specs.Base.{Leaves, with_said};
ghost use Rattle.sk_scenario.specs.WorldEvents.{edit};

use crate::glance::{behind_byte, behind_reply, behind_serve, behind_turn, digit_pid};
use crate::kept::KeptEvent;
use sk_words::{FaultKind, Items, Listed, Natural, Rules, Words, none, one, three};

/// The lines of a section of a world.
#[derive(Drop)]
pub struct WorldRules;

/// The events of a world, in order.
pub type WorldEvents = Items<WorldRules>;

/// Adds what the words of an edit say. It stands apart, since what it reads is large.
#[inline(never)]
fn add_edit(events: &mut WorldEvents, words: &Words) -> Result<(), FaultKind>
    ensures { Leaves result (with_said events.old (edit words.now)) events.old events.new }
{
    let (name, version, bytes): (_, Natural, _) = three(words)?;
    let event = KeptEvent::edit(*events.allocator(), name, version.get(), bytes)?;
    events.push(event)
}

impl Listed for WorldRules {
    type Item = KeptEvent;

    ghost use Rattle.std.specs.Prelude.{⊤};

    ghost fits = { λ _. ⊤ };
}

impl Rules for WorldRules {
    ghost use Rattle.sk_scenario.specs.WorldEvents.{world_event};

    ghost rule = { world_event };

    #[tactic(auto, unfolding(crate::specs::WorldEvents::world_event))]
    fn add(events: &mut WorldEvents, word: &[u8], words: &Words) -> Result<(), FaultKind> {
        match word {
            [b't', b'u', b'r', b'n'] => {
                let pid = one(words)?;
                events.push(KeptEvent::turn(pid))
            }
            [b's', b'e', b'r', b'v', b'e'] => {
                none(words)?;
                events.push(KeptEvent::serve())
            }
            [b'r', b'e', b'p', b'l', b'y'] => {
                none(words)?;
                events.push(KeptEvent::reply())
            }
            [b'e', b'd', b'i', b't'] => add_edit(events, words),
            _ => Err(FaultKind::Word),
        }
    }

    #[inline(always)]
    fn glance(text: &[u8]) -> Option<(KeptEvent, &[u8])> {
        if let Some(tail) = behind_turn(text) {
            let pid = digit_pid(tail)?;
            let rest = behind_byte(tail)?;
            return Some((KeptEvent::turn(pid), rest));
        }
        if let Some(rest) = behind_serve(text) {
            return Some((KeptEvent::serve(), rest));
        }
        let rest = behind_reply(text)?;
        Some((KeptEvent::reply(), rest))
    }
}
