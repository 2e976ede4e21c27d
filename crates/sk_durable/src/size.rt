//! DBSIZE, in a time that doesn't grow with the keys.
ghost use Rattle.std.specs.Prelude.{◌≡◌, IfOk, OnOk};
ghost use Rattle.sk_durable.specs.Base.{counts, IsEmpty};
ghost use Rattle.sk_durable.specs.Sizes.{size, IsSize};
ghost use Rattle.sk_durable.specs.Works.{CarryPost};

use crate::works::{Asker, Batches, WorkStep, look_ahead};
use crate::{NotDone, Told};
use sk_commands::{Answer, ByteString, Reply};
use std::alloc::{AllocError, Global};

/// So many are replied, if there is a reply for that.
fn counted(count: usize) -> Result<Reply, AllocError>
    ensures { IfOk result (λ reply. reply ≡ counts count) }
{
    match i64::try_from(count) {
        Ok(count) => Ok(Reply::Integer(count)),
        Err(_) => Err(AllocError),
    }
}

/// The step gets the count that is kept, and looks at keys that stand for all.
fn hand_in_size(batched: &Batches, step: &mut WorkStep, asker: Asker) -> Result<(), AllocError>
    requires { IsEmpty step.old }
    ensures { OnOk result (IsSize batched.now.kernel asker step.new) }
{
    let kernel = batched.kernel();
    let _places = kernel.places();
    let count = counted(kernel.present())?;
    let mut keys = batched.resting()?;
    step.looked.append(&mut keys)?;
    let answer = Answer::One(count);
    step.said = Some((asker.channel, Told::new(asker.ticket, answer)));
    Ok(())
}

/// DBSIZE is carried out, and the text of its answer told, where it is looked at ahead.
pub(crate) fn take_size(
    alloc: Global,
    batched: &mut Batches,
    step: &mut WorkStep,
    asker: Asker,
    looks: bool,
) -> Result<Option<ByteString>, NotDone>
    requires { IsEmpty step.old }
    ensures post { CarryPost looks asker size result batched.old batched.new }
    ensures empty { OnOk result (IsEmpty step.new) }
{
    hand_in_size(batched, step, asker)?;
    let ahead = look_ahead(alloc, step, looks)?;
    batched.take(step)?;
    Ok(ahead)
}
