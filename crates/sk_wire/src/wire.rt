//! A wire between two threads.
ghost use Rattle.std.specs.Prelude.{◌≡◌, ◌<◌, ◌+◌, length, IfOk};
ghost use Rattle.crossbeam_queue.specs.Passes.{view, ruled_capacity};
ghost use Rattle.sk_record.specs.Release.{IsFront};
ghost use Rattle.sk_wire.specs.declared.wire.TheConstants.{WIRE_LIMIT};
ghost use Rattle.sk_wire.specs.declared.rule.TheConstants.{WIRE_ITEMS};
ghost use Rattle.sk_wire.specs.Rule.{sender, receiver, joined, AreNumbered};
ghost use Rattle.sk_wire.specs.Calls.{PushPost, PopPost};

use crate::numbered::HasNumber;
use crate::rule::{Both, Ends, First, InTurn, PassView, Receives, Sends, Sides};
use crossbeam_queue::{Pass, RuledArrayQueue};
use std::alloc::{AllocError, Global};
use std::marker::Brand;
use std::sync::Wait;

/// The greatest number of items that a wire holds.
pub const WIRE_LIMIT: usize = 64;

/// The right to send or to receive by a wire, with what its thread knows of it. It has no bytes.
pub type WirePass<T> = Pass<T, PassView<T>>;

/// A queue of at most `WIRE_LIMIT` items from one sender to one receiver: each item is handed out once, and in order.
#[derive(Drop)]
pub struct Wire<T: HasNumber> {
    line: RuledArrayQueue<T, PassView<T>, InTurn>,
    ghost room: { ruled_capacity line ≡ WIRE_LIMIT },
}

impl<T: HasNumber + Drop> Wire<T> {
    ghost use Rattle.sk_wire.specs.Wire.{IsSending, IsReceiving};

    /// A wire for items that are numbered from `first` on, its sending and its receiving pass.
    pub fn new(alloc: Global, first: u64) -> Result<(Wire<T>, WirePass<T>, WirePass<T>), AllocError>
        ensures sending { IfOk result (λ w. IsSending w.0 w.1 × (view w.1 ≡ sender first)) }
        ensures receiving { IfOk result (λ w. IsReceiving w.0 w.2 × (view w.2 ≡ receiver first)) }
    {
        Wire::<T>::laid::<Brand>(alloc, first)
    }

    /// Sends the next item, or hands it back where the wire holds `WIRE_LIMIT`. This takes no memory.
    pub fn push<R: Wait>(&self, rt: &R, pass: WirePass<T>, item: T) -> (WirePass<T>, Result<(), T>)
        requires pass { IsSending self.now pass }
        requires number { T.number_of item ≡ (view pass).first + length (view pass).sent }
        requires limit { T.number_of item < (view pass).first + WIRE_ITEMS }
        ensures pass { IsSending self.now result.0 }
        ensures item { PushPost result.1 item (view pass) (view result.0) }
    {
        let mut pass = pass;
        let sent = self.line.push_as::<Sends, R>(rt, &mut pass, item);
        (pass, sent)
    }

    /// Receives the next item; `None` where the wire holds none. This takes no memory.
    pub fn pop<R: Wait>(&self, rt: &R, pass: WirePass<T>) -> (WirePass<T>, Option<T>)
        requires { IsReceiving self.now pass }
        ensures pass { IsReceiving self.now result.0 }
        ensures item { PopPost T.number_of result.1 (view pass) (view result.0) }
    {
        let mut pass = pass;
        let received = self.line.pop_as::<Receives, R>(rt, &mut pass);
        (pass, received)
    }

    /// Joins both passes: what was received is the first part of what was sent. The pass that they make sends and
    /// receives. This takes no memory and waits for nobody.
    pub fn end<R: Wait>(&self, _rt: &R, sending: WirePass<T>, receiving: WirePass<T>) -> WirePass<T>
        requires sending { IsSending self.now sending }
        requires receiving { IsReceiving self.now receiving }
        ensures sends { IsSending self.now result }
        ensures receives { IsReceiving self.now result }
        ensures view { view result ≡ joined (view sending) (view receiving) }
        ensures front { IsFront (view receiving).received (view sending).sent }
        ensures numbers { AreNumbered T.number_of (view sending).first (view sending).sent }
    {
        let mut pass = sending;
        self.line.absorb::<Both>(&mut pass, receiving);
        self.line.learn_as::<Ends>(&mut pass);
        pass
    }

    /// A wire whose first number is that of a type.
    fn laid<F: First>(
        alloc: Global,
        first: u64,
    ) -> Result<(Wire<T>, WirePass<T>, WirePass<T>), AllocError>
        requires { first ≡ F.first }
        ensures sending { IfOk result (λ w. IsSending w.0 w.1 × (view w.1 ≡ sender first)) }
        ensures receiving { IfOk result (λ w. IsReceiving w.0 w.2 × (view w.2 ≡ receiver first)) }
    {
        let (line, mut sending) = RuledArrayQueue::<T, PassView<T>, InTurn>::ruled(
            alloc, WIRE_LIMIT,
        )?;
        let receiving = line.another::<Sides<F>>(&mut sending);
        Ok((Wire { line }, sending, receiving))
    }
}
