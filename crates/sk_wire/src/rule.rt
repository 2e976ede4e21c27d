//! The rule of a wire: what its passes know, and what each step with them does and tells.
ghost use Rattle.std.specs.Prelude.{ℕ};

use crate::numbered::HasNumber;
use crossbeam_queue::protocol::{Join, Lesson, Outcome, Protocol, Split};
use std::collections::LinkedList;
use std::marker::{Brand, PhantomData};

/// A wire takes fewer items than this in all.
pub const WIRE_ITEMS: u64 = 1 << 62;

/// What a pass may do, the first number of its wire, and what was sent and received by it. Contracts alone have
/// values of it.
pub struct PassView<T> {
    pub sends: bool,
    pub receives: bool,
    pub first: u64,
    pub sent: LinkedList<T>,
    pub received: LinkedList<T>,
}

/// The rule: what was sent is what was received and then what the wire holds, numbered from the first on.
pub struct InTurn;

impl<T: HasNumber> Protocol<T, PassView<T>> for InTurn {
    ghost use Rattle.std.specs.Prelude.{true, []};
    ghost use Rattle.sk_wire.specs.Rule.{known, IsInTurn};

    ghost holds = { IsInTurn T.number_of };

    ghost first = { known true true 0 [] [] };
}

/// A type that has the first number of a wire. Each call of `Wire::new` picks its own, in proofs.
pub trait First {
    ghost first: { ℕ };
}

impl First for Brand {
    ghost first = { 0 };
}

/// The first pass becomes one that sends and one that receives, and the first number is set.
pub struct Sides<F>(PhantomData<F>);

impl<T, F: First> Split<PassView<T>> for Sides<F> {
    ghost use Rattle.sk_wire.specs.Rule.{sender, receiver};

    ghost left = { λ v. sender F.first };

    ghost right = { λ v. receiver F.first };
}

/// A pass that sends and one that receives become one that does both.
pub struct Both;

impl<T> Join<PassView<T>> for Both {
    ghost use Rattle.std.specs.Prelude.{false, []};
    ghost use Rattle.sk_wire.specs.Rule.{known, joined};

    ghost both = { joined };

    ghost spent = { known false false 0 [] [] };
}

/// An item is sent, or the wire is full.
pub struct Sends;

impl<T> Outcome<T, PassView<T>> for Sends {
    ghost use Rattle.std.specs.Prelude.{◌≡◌};
    ghost use Rattle.sk_wire.specs.Rule.{with_sent};

    ghost then = { λ v x w. w ≡ with_sent v x };
}

impl<T> Lesson<T, PassView<T>> for Sends {
    ghost use Rattle.sk_wire.specs.Rule.{IsLeft};

    ghost fact = { IsLeft };
}

/// An item is received, or the wire is empty.
pub struct Receives;

impl<T: HasNumber> Outcome<T, PassView<T>> for Receives {
    ghost use Rattle.std.specs.Prelude.{◌≡◌};
    ghost use Rattle.sk_wire.specs.Rule.{with_received, IsNext};

    ghost then = { λ v x w. (w ≡ with_received v x) × IsNext T.number_of v x };
}

impl<T> Lesson<T, PassView<T>> for Receives {
    ghost use Rattle.std.specs.Prelude.{◌≡◌, true};
    ghost use Rattle.sk_wire.specs.Rule.{IsLeft};

    ghost fact = { λ v items. v.sends ≡ true → IsLeft v items };
}

/// Both passes of a wire are one.
pub struct Ends;

impl<T: HasNumber> Lesson<T, PassView<T>> for Ends {
    ghost use Rattle.std.specs.Prelude.{◌≡◌, ◌++◌};
    ghost use Rattle.sk_wire.specs.Rule.{AreNumbered};

    ghost fact = { λ v items. (v.sent ≡ v.received ++ items)
        × AreNumbered T.number_of v.first v.sent };
}
