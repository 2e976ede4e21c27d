//! Works that are carried out at once, and logged in the open batch where they may write.
ghost use Rattle.std.specs.Prelude.{◌≡◌, [], false, None, IfOk, OnErr, OnOk, map};
ghost use Rattle.sk_durable.specs.Base.{vec_items, wants_all, names_reserved, IsEmpty, Stays};
ghost use Rattle.sk_durable.specs.Works.{ahead_in, CarryPost, IsHanded, KnowsIfTold, RestorePost, TakesAlone};

use crate::known::known_keys;
use crate::look::Keys;
use crate::size::take_size;
use crate::{NotDone, Told};
use sk_batched::Batched;
use sk_bytes::{ByteStep, Bytes};
use sk_commands::{ByteString, Command, Work};
use std::alloc::{AllocError, Global};

/// A kernel of byte strings, with a queue of batches of what is logged.
pub(crate) type Batches = Batched<ByteString, Told>;

/// A step of it.
pub(crate) type WorkStep = ByteStep<ByteString, Told>;

/// Whom the answer is told: a channel, and the ticket of what it asked for.
#[derive(Clone, Copy)]
pub(crate) struct Asker {
    pub(crate) channel: u16,
    pub(crate) ticket: u64,
}

/// No channel has this number: what is restored answers there, and nobody is told.
pub(crate) const NOBODY: Asker = Asker {
    channel: u16::MAX,
    ticket: 0,
};

/// Nothing is left of a step.
fn clear(step: &mut WorkStep)
    ensures { IsEmpty step.new }
{
    step.looked.clear();
    step.written.clear();
    step.said = None;
}

/// All keys, where work is told of them.
fn known_for(
    alloc: Global,
    kernel: &Bytes<ByteString, Told>,
    work: &Work,
) -> Result<Vec<Vec<u8>>, AllocError>
    ensures { IfOk result (λ keys. KnowsIfTold kernel.now work.now (map vec_items keys.items)) }
{
    if work.is_told_of_all() {
        known_keys(alloc, kernel)
    } else {
        Ok(Vec::new(alloc))
    }
}

/// The step gets what work looks at, writes and answers, by what keys have.
fn hand_in(
    alloc: Global,
    kernel: &Bytes<ByteString, Told>,
    step: &mut WorkStep,
    asker: Asker,
    work: Work,
) -> Result<(), AllocError>
    requires { IsEmpty step.old }
    ensures { OnOk result (IsHanded kernel.now asker work step.new) }
{
    let known = known_for(alloc, kernel, &work)?;
    work.asks(alloc, known.as_slice(), &mut step.looked)?;
    let keys = Keys { kernel };
    let answer = work.run(alloc, &keys, known.as_slice(), &mut step.written)?;
    step.said = Some((asker.channel, Told::new(asker.ticket, answer)));
    Ok(())
}

/// The text of what a step answers, where it is looked at ahead.
pub(crate) fn look_ahead(
    alloc: Global,
    step: &WorkStep,
    looks: bool,
) -> Result<Option<ByteString>, AllocError>
    ensures { IfOk result (λ ahead. ahead ≡ ahead_in looks step.now.said) }
{
    match &step.said {
        Some(said) if looks => {
            let text = said.1.answer().text(alloc)?;
            Ok(Some(ByteString::new(text)))
        }
        _ => Ok(None),
    }
}

/// Work is handed in, and taken in the open batch where it may write. Its answer is told, where it is looked at ahead.
fn take_in(
    alloc: Global,
    batched: &mut Batches,
    step: &mut WorkStep,
    asker: Asker,
    work: Work,
    looks: bool,
) -> Result<Option<ByteString>, NotDone>
    requires empty { IsEmpty step.old }
    requires named { names_reserved work ≡ false }
    ensures post { CarryPost looks asker work result batched.old batched.new }
    ensures empty { OnOk result (IsEmpty step.new) }
{
    if work.may_write() {
        let bytes = work.log_text(alloc)?;
        hand_in(alloc, batched.kernel(), step, asker, work)?;
        let ahead = look_ahead(alloc, step, looks)?;
        batched.log(step, bytes.as_slice())?;
        Ok(ahead)
    } else {
        hand_in(alloc, batched.kernel(), step, asker, work)?;
        let ahead = look_ahead(alloc, step, looks)?;
        batched.take(step)?;
        Ok(ahead)
    }
}

/// Carries out work that names no reserved key, in the open batch where it may write, and tells the text of its answer, where it
/// is looked at ahead. Where nothing of it is done nothing has changed, but that, without memory, the guess of the open batch may
/// be drawn.
pub(crate) fn carry_out(
    alloc: Global,
    batched: &mut Batches,
    step: &mut WorkStep,
    asker: Asker,
    work: Work,
    looks: bool,
) -> Result<Option<ByteString>, NotDone>
    requires empty { IsEmpty step.old }
    requires named { names_reserved work ≡ false }
    ensures post { CarryPost looks asker work result batched.old batched.new }
    ensures empty { IsEmpty step.new }
{
    let done = match work {
        Work::One(Command::DbSize) => take_size(alloc, batched, step, asker, looks),
        work => take_in(alloc, batched, step, asker, work, looks),
    };
    if done.is_err() {
        clear(step);
    }
    done
}

/// Work is handed in, and taken in no batch. After a refusal nothing has changed.
fn take_alone(
    alloc: Global,
    batched: &mut Batches,
    step: &mut WorkStep,
    asker: Asker,
    work: Work,
) -> Result<(), NotDone>
    requires { IsEmpty step.old }
    ensures ok { OnOk result (TakesAlone asker work batched.old batched.new) }
    ensures err { OnErr result (Stays batched.old batched.new) }
{
    hand_in(alloc, batched.kernel(), step, asker, work)?;
    batched.take(step)?;
    Ok(())
}

/// Carries out work that is logged already, and drops its answer. After a refusal nothing has changed.
pub(crate) fn restore(
    alloc: Global,
    batched: &mut Batches,
    step: &mut WorkStep,
    nobody: Asker,
    work: Work,
) -> Result<(), NotDone>
    requires empty { IsEmpty step.old }
    requires named { names_reserved work ≡ false }
    ensures post { RestorePost nobody work result batched.old batched.new }
    ensures empty { IsEmpty step.new }
{
    let done = take_alone(alloc, batched, step, nobody, work);
    clear(step);
    let _answer = batched.released(nobody.channel);
    done
}
