//! The report of a world, or of a desk and a server that none holds; and the line of workers.
ghost use Rattle.std.specs.Prelude.{OnOk, flat_map};
ghost use Rattle.std.specs.FinMap as map;
ghost use Rattle.std.specs.Io.KnownBytes.{Appends};
ghost use Rattle.sk_play.specs.WorldReport.{remote_line, remotes_text, counts_of, desk_line, desk_report_text, world_report_text, workers_line};

use sk_client::{Desk, World};
use sk_ids::Name;
use sk_kernel::Kernel;
use sk_objects::Content;
use sk_report::{PrintedVersion, Stop, write_kernel};
use sk_script::words::Printed;
use sk_server::Server;
use std::alloc::Global;
use std::io;
use std::io::Write;

/// Writes the terminals and the entities of a world's kernel, the files of its server by rising name, and the last
/// line.
pub fn write_world_report<W: Write>(alloc: Global, world: &World, out: &mut W) -> Result<(), Stop>
    ensures { OnOk result
        (Appends (W.contents out.old) (W.contents out.new) (world_report_text world.now)) }
{
    write_desk_report(alloc, world.desk(), world.server(), out)
}

/// Writes the report of a world with this desk and this server.
pub fn write_desk_report<W: Write>(
    alloc: Global,
    desk: &Desk,
    server: &Server,
    out: &mut W,
) -> Result<(), Stop>
    ensures { OnOk result (Appends (W.contents out.old) (W.contents out.new)
        (desk_report_text desk.now server.now)) }
{
    write_kernel(alloc, desk.kernel(), out)?;
    write_remotes(server, out)?;
    write_desk_line(desk, out)?;
    Ok(())
}

/// Writes the line that tells how many workers there were, and how many calls they made.
pub fn write_workers<W: Write>(workers: u8, calls: usize, out: &mut W) -> io::Result<()>
    ensures { OnOk result
        (Appends (W.contents out.old) (W.contents out.new) (workers_line workers calls)) }
{
    writeln!(out, "workers {workers} calls {calls}")
}

/// Writes the files of a server.
fn write_remotes<W: Write>(server: &Server, out: &mut W) -> Result<(), Stop>
    ensures { OnOk result
        (Appends (W.contents out.old) (W.contents out.new) (remotes_text server.now.files)) }
{
    let names = server.names()?;
    write_files(server, &names, out)?;
    Ok(())
}

/// Writes the files of these names.
fn write_files<W: Write>(server: &Server, names: &[Name], out: &mut W) -> io::Result<()>
    ensures { OnOk result (Appends (W.contents out.old) (W.contents out.new)
        (flat_map (λ name. remote_line name (map.get server.now.files name)) names.now)) }
{
    for name in names {
        write_remote(*name, server.file(name).copied(), out)?;
    }
    Ok(())
}

/// Writes the content of a file, if it was stored.
fn write_remote<W: Write>(name: Name, content: Option<Content>, out: &mut W) -> io::Result<()>
    ensures { OnOk result (Appends (W.contents out.old) (W.contents out.new)
        (remote_line name content)) }
{
    match content {
        Some(content) => {
            let name = Printed(name);
            let content = PrintedVersion(&content);
            writeln!(out, "remote {name} {content}")
        }
        None => Ok(()),
    }
}

/// Writes the last line.
fn write_desk_line<W: Write>(desk: &Desk, out: &mut W) -> io::Result<()>
    ensures { OnOk result (Appends (W.contents out.old) (W.contents out.new) (desk_line desk.now)) }
{
    write_counts(desk.kernel(), desk.pending(), out)
}

/// Writes the number of events, of undecided guesses and of requests without a reply.
fn write_counts<W: Write>(kernel: &Kernel, pending: usize, out: &mut W) -> io::Result<()>
    ensures { OnOk result
        (Appends (W.contents out.old) (W.contents out.new) (counts_of kernel.now pending)) }
{
    let events = kernel.trace().events().len();
    let undecided = kernel.undecided();
    writeln!(
        out,
        "trace {events} undecided {undecided} pending {pending}"
    )
}
