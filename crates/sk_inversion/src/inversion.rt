//! How values are written, and put back.
use crate::Before;

/// A way to write values of a type, and to put them back. It is no part of the type: values of one type may be changed in
/// many ways, and most are only ever set (`Whole`). Nothing here takes memory: a write brings what it wants.
pub trait Inversion<V> {
    ghost use Rattle.std.specs.Prelude.{◌≡◌, Option};
    ghost use Rattle.sk_inversion.specs.Undone.{value_before, FitsBefore};

    /// A whole value, or a change; the default stands where one was moved out.
    type Write: Default;

    /// What a change is undone by: mostly far less than the value.
    type Undo: Drop;

    /// What is there after a write.
    ghost written: { Self.Write → Option V → Option V };

    /// The value before a change.
    ghost undone: { Self.Undo → V → V };

    /// A value that this undoes a change of.
    ghost fits: { Self.Undo → V → Type 0 };

    /// Writes a value, and answers what puts the write back.
    fn write(value: &mut Option<V>, write: Self::Write) -> Before<V, Self::Undo>
        ensures value { value.new ≡ written write value.old }
        ensures fits { FitsBefore fits result value.new }
        ensures back { value_before undone result value.new ≡ value.old };

    /// Changes a value back.
    fn undo(value: &mut V, undo: Self::Undo)
        requires { fits undo value.old }
        ensures { value.new ≡ undone undo value.old };

    /// What undoes two changes, the later one first.
    fn join(later: Self::Undo, earlier: Self::Undo) -> Self::Undo
        ensures fits { (v : V) → fits later v → fits earlier (undone later v) → fits result v }
        ensures back { (v : V) → fits later v → fits earlier (undone later v)
            → undone result v ≡ undone earlier (undone later v) };
}
