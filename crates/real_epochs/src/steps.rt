//! The steps that a kernel takes for epochs.
ghost use Rattle.std.specs.Prelude.{◌≡◌, IfErr, IfOk};
ghost use Rattle.real_epochs.specs.Host.{Does, Opens, deed_of, tree};

use crate::{Event, Refused};
use sk_speculator::Step;
use std::alloc::Global;

/// The key of the tree of processes. The others are names.
pub(crate) const TREE: u64 = 0;

pub(crate) type HostStep = Step<u64, u64, u64>;

/// The step that an epoch begins with.
pub(crate) fn first_step(alloc: Global, checkpoint: u64) -> Result<HostStep, Refused>
    ensures looked { IfOk result
        (λ step. step.looked.items ≡ (deed_of (Opens 0 checkpoint)).looked) }
    ensures written { IfOk result
        (λ step. step.written.items ≡ (deed_of (Opens 0 checkpoint)).written) }
    ensures said { IfOk result (λ step. step.said ≡ (deed_of (Opens 0 checkpoint)).said) }
    ensures err { IfErr result (λ why. why ≡ Refused.Memory) }
{
    let mut step = Step::new(alloc);
    step.looked.push(TREE)?;
    step.written.push((TREE, Some(checkpoint)))?;
    Ok(step)
}

/// The step of what happens.
pub(crate) fn step_of(alloc: Global, event: Event) -> Result<HostStep, Refused>
    ensures looked { IfOk result (λ step. step.looked.items ≡ (deed_of (Does event)).looked) }
    ensures written { IfOk result
        (λ step. step.written.items ≡ (deed_of (Does event)).written) }
    ensures said { IfOk result (λ step. step.said ≡ (deed_of (Does event)).said) }
    ensures err { IfErr result (λ why. why ≡ Refused.Memory) }
{
    let mut step = Step::new(alloc);
    match event {
        Event::Changes { name, version } => {
            step.looked.push(TREE)?;
            step.written.push((name, version))?;
        }
        Event::Told { name, version } => step.written.push((name, version))?,
        Event::Says { stream, output } => {
            step.looked.push(TREE)?;
            step.said = Some((stream, output));
        }
    }
    Ok(step)
}
