//! What puts a write back.
ghost use Rattle.std.specs.Prelude.{◌≡◌, Option};
ghost use Rattle.sk_inversion.specs.Undone.{value_before, CanJoin, FitsBefore};

use crate::Inversion;

/// The value before a write, or the undo of a change.
#[derive(Drop)]
pub enum Before<V, U> {
    Was(Option<V>),
    Changed(U),
}

/// Puts back what was there before a write, in place and without memory.
pub fn put_back<V: Drop, I: Inversion<V>>(value: &mut Option<V>, before: Before<V, I::Undo>)
    requires { FitsBefore I.fits before value.old }
    ensures { value.new ≡ value_before I.undone before value.old }
{
    match before {
        Before::Was(old) => *value = old,
        Before::Changed(undo) => {
            if let Some(inner) = value {
                I::undo(inner, undo);
            }
        }
    }
}

/// What puts two writes back, the later one first. It takes no memory.
pub fn join<V: Drop, I: Inversion<V>>(
    later: Before<V, I::Undo>,
    earlier: Before<V, I::Undo>,
) -> Before<V, I::Undo>
    requires { CanJoin I.fits later earlier }
    ensures fits { (now : Option V) → FitsBefore I.fits later now
        → FitsBefore I.fits earlier (value_before I.undone later now)
        → FitsBefore I.fits result now }
    ensures back { (now : Option V) → FitsBefore I.fits later now
        → FitsBefore I.fits earlier (value_before I.undone later now)
        → value_before I.undone result now
        ≡ value_before I.undone earlier (value_before I.undone later now) }
{
    match (later, earlier) {
        (_, Before::Was(value)) => Before::Was(value),
        (Before::Was(mut value), earlier @ Before::Changed(_)) => {
            put_back::<V, I>(&mut value, earlier);
            Before::Was(value)
        }
        (Before::Changed(later), Before::Changed(earlier)) => {
            Before::Changed(I::join(later, earlier))
        }
    }
}
