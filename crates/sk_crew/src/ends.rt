//! The two ends of a wire.
ghost use Rattle.std.specs.Prelude.{◌≡◌, ◌+◌, ◌<◌, ◌^◌, ◌↔◌, length, IfOk, IfErr, OnOk, IsTrue};
ghost use Rattle.sk_crew.specs.Base.{view, WIRE_ITEMS, sender, with_sent, IsSending, IsReceiving, PopPost};

use sk_wire::{HasNumber, WIRE_ITEMS, Wire, WirePass};
use std::alloc::{AllocError, Global};
use std::sync::Wait;

/// Both passes of a new wire, for items that are numbered from `first` on.
#[derive(Drop)]
pub(crate) struct Passes<T: HasNumber> {
    sending: WirePass<T>,
    receiving: WirePass<T>,
    first: u64,
}

/// A new wire with its passes.
#[derive(Drop)]
pub(crate) struct WireEnds<T: HasNumber> {
    pub(crate) wire: Wire<T>,
    pub(crate) passes: Passes<T>,
    ghost sends: { IsSending wire passes.sending × (view passes.sending ≡ sender passes.first) },
    ghost receives: { IsReceiving wire passes.receiving },
}

impl<T: HasNumber + Drop> WireEnds<T> {
    pub(crate) fn new(alloc: Global, first: u64) -> Result<WireEnds<T>, AllocError>
        ensures { IfOk result (λ ends. ends.passes.first ≡ first) }
    {
        let (wire, sending, receiving) = Wire::<T>::new(alloc, first)?;
        let passes = Passes {
            sending,
            receiving,
            first,
        };
        Ok(WireEnds { wire, passes })
    }
}

impl<T: HasNumber + Drop> Passes<T> {
    /// Both ends of the wire.
    pub(crate) fn ends<'a>(self, wire: &'a Wire<T>) -> (SendingEnd<'a, T>, ReceivingEnd<'a, T>)
        // Both passes are of this wire.
        requires sends { IsSending wire.now self.sending
            × (view self.sending ≡ sender self.first) }
        requires receives { IsReceiving wire.now self.receiving }
        // Each end has its pass.
        ensures sends { view result.0.pass ≡ view self.sending }
        ensures receives { view result.1.pass ≡ view self.receiving }
    {
        let Passes {
            sending,
            receiving,
            first,
        } = self;
        (
            SendingEnd::new(wire, sending, first),
            ReceivingEnd::new(wire, receiving),
        )
    }
}

/// The sending end of a wire, and the number of the item that is next.
#[derive(Drop)]
pub(crate) struct SendingEnd<'a, T: HasNumber> {
    wire: &'a Wire<T>,
    pass: WirePass<T>,
    first: u64,
    next: u64,
    ghost sends: { IsSending wire.now pass },
    ghost begins: { (view pass).first ≡ first },
    ghost counts: { next ≡ first + length (view pass).sent },
}

/// The receiving end of a wire.
#[derive(Drop)]
pub(crate) struct ReceivingEnd<'a, T: HasNumber> {
    wire: &'a Wire<T>,
    pass: WirePass<T>,
    ghost receives: { IsReceiving wire.now pass },
}

impl<'a, T: HasNumber + Drop> SendingEnd<'a, T> {
    /// The end of a new wire, numbered from `first` on.
    pub(crate) fn new(wire: &'a Wire<T>, pass: WirePass<T>, first: u64) -> SendingEnd<'a, T>
        requires { IsSending wire.now pass × (view pass ≡ sender first) }
        ensures { view result.pass ≡ view pass }
    {
        SendingEnd {
            wire,
            pass,
            first,
            next: first,
        }
    }

    /// Whether the item of this number is next.
    fn is_next(&self, number: u64) -> bool
        ensures { IsTrue result ↔ (number ≡ self.now.next) × (number < self.now.first + WIRE_ITEMS)
            × (number + 1 < 2 ^ 64) }
    {
        number == self.next && number - self.first < WIRE_ITEMS && number < u64::MAX
    }

    /// Sends the next item. It comes back where the wire is full, or where its number is not the next.
    pub(crate) fn send<R: Wait>(self, rt: &R, item: T) -> (SendingEnd<'a, T>, Result<(), T>)
        ensures sent { OnOk result.1 (view result.0.pass ≡ with_sent (view self.entry.pass) item) }
        ensures back { IfErr result.1 (λ back. (back ≡ item)
            × (view result.0.pass ≡ view self.entry.pass)) }
    {
        if !self.is_next(item.number()) {
            return (self, Err(item));
        }
        let SendingEnd {
            wire,
            pass,
            first,
            next,
        } = self;
        let (pass, sent) = wire.push(rt, pass, item);
        let next = next + u64::from(sent.is_ok());
        let end = SendingEnd {
            wire,
            pass,
            first,
            next,
        };
        (end, sent)
    }

    /// Sends an item, if there is one; what was not sent is kept.
    pub(crate) fn send_if_any<R: Wait>(
        self,
        rt: &R,
        item: Option<T>,
    ) -> (SendingEnd<'a, T>, Option<T>) {
        let Some(item) = item else {
            return (self, None);
        };
        let (end, sent) = self.send(rt, item);
        (end, sent.err())
    }
}

impl<'a, T: HasNumber + Drop> ReceivingEnd<'a, T> {
    pub(crate) fn new(wire: &'a Wire<T>, pass: WirePass<T>) -> ReceivingEnd<'a, T>
        requires { IsReceiving wire.now pass }
        ensures { view result.pass ≡ view pass }
    {
        ReceivingEnd { wire, pass }
    }

    /// Receives the next item; `None` where the wire holds none.
    pub(crate) fn receive<R: Wait>(self, rt: &R) -> (ReceivingEnd<'a, T>, Option<T>)
        ensures { PopPost T.number_of result.1 (view self.entry.pass) (view result.0.pass) }
    {
        let ReceivingEnd { wire, pass } = self;
        let (pass, item) = wire.pop(rt, pass);
        (ReceivingEnd { wire, pass }, item)
    }
}
