//! What a crew works with, apart from its desk.
ghost use Rattle.std.specs.Prelude.{◌≡◌, flat_map, IfOk};
ghost use Rattle.std.specs.FinMap as map;
ghost use Rattle.sk_kernel.specs.Kernel.{state_at};
ghost use Rattle.sk_crew.specs.Duties.{process_of, processes_of};

use crate::ends::WireEnds;
use sk_client::Desk;
use sk_ids::{Entity, Pid};
use sk_kernel::Kernel;
use sk_server::{Reply, Request};
use std::alloc::{AllocError, Global};

/// The processes of the boot, by rising number, and the wires to the server and back.
#[derive(Drop)]
pub(crate) struct Setup {
    pub(crate) processes: Vec<Pid>,
    pub(crate) requests: WireEnds<Request>,
    pub(crate) replies: WireEnds<Reply>,
}

/// The processes of a kernel, by rising number.
fn processes(alloc: Global, kernel: &Kernel) -> Result<Vec<Pid>, AllocError>
    ensures { IfOk result (λ pids.
        pids.items ≡ flat_map process_of (map.keys (state_at kernel.now))) }
{
    let entities = kernel.entities()?;
    let mut pids = Vec::new(alloc);
    for entity in entities.iter() {
        if let Entity::Proc(pid) = entity {
            pids.push(*pid)?;
        }
    }
    Ok(pids)
}

impl Setup {
    pub(crate) fn new(alloc: Global, desk: &Desk) -> Result<Setup, AllocError>
        ensures { IfOk result (λ setup. setup.processes.items ≡ processes_of desk.now) }
    {
        let first = desk.first();
        Ok(Setup {
            processes: processes(alloc, desk.kernel())?,
            requests: WireEnds::new(alloc, first)?,
            replies: WireEnds::new(alloc, first)?,
        })
    }
}
