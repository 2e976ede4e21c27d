//! What kernels, stores, desks and servers start from, as plain data.
ghost use Rattle.std.specs.Prelude.{◌≡◌, ◌<◌, [], IfOk, OnOk};
ghost use Rattle.sk_kernel.specs.Kernel.{undecided_at};

use sk_ids::Name;
use sk_kernel::Kernel;
use sk_script::{Boot, ObjectKind, Script};
use sk_server::Server;
use std::alloc::{AllocError, Global};
use std::process::Abort;
use tests_support::plain::{content, name};
use tests_support::wrong::{Wrong, holds};

/// Lines of a script, each so many times.
pub type Lines<'a> = &'a [(&'a [u8], usize)];

/// A name, a version and bytes: of a cached copy, or of a file of the server.
pub type Version<'a> = (&'a [u8], u64, &'a [u8]);

/// An object of the boot: its name, its kind and its bytes.
pub type Made<'a> = (&'a [u8], ObjectKind, &'a [u8]);

/// What a test starts from.
#[derive(Clone, Copy)]
pub struct Start<'a> {
    /// The kernel's number.
    pub number: u64,
    /// The scripts of the processes from 1 on, each of which has a terminal of its own.
    pub scripts: &'a [Lines<'a>],
    pub copies: &'a [Version<'a>],
    pub objects: &'a [Made<'a>],
    /// The most events that there may be.
    pub limit: u32,
}

/// Nothing, with room for a hundred events.
pub const BARE: Start<'static> = Start {
    number: 0,
    scripts: &[],
    copies: &[],
    objects: &[],
    limit: 100,
};

/// A test passes.
pub fn passes(rt: &impl Abort, done: Result<(), Wrong>) {
    assert_eq!(rt; done, Ok(()));
}

/// What stands at this place of a test comes to what is wanted.
pub fn comes(place: usize, is: Result<bool, Wrong>) -> Result<(), Wrong> {
    holds(place, is?)
}

/// Adds a line, so many times.
fn repeats(text: &mut Vec<u8>, line: &[u8], count: usize) -> Result<(), AllocError> {
    for _ in 0..count {
        text.extend_from_slice(line)?;
    }
    Ok(())
}

fn adds_all(text: &mut Vec<u8>, lines: Lines<'_>) -> Result<(), AllocError> {
    for (line, count) in lines {
        repeats(text, line, *count)?;
    }
    Ok(())
}

fn script_of(alloc: Global, lines: Lines<'_>) -> Result<Script, Wrong> {
    let mut text = Vec::new(alloc);
    adds_all(&mut text, lines)?;
    Ok(Script::parse(alloc, &text)?)
}

/// The name of a process's script, another for each number below 100.
fn script_name(number: u16) -> Result<Name, Wrong> {
    let tens = (number / 10 % 10) as u8;
    let ones = (number % 10) as u8;
    name(&[b's', b'0' + tens, b'0' + ones])
}

/// Declares the process after this one, with its script and a terminal of its own.
fn declares(alloc: Global, boot: &mut Boot, before: u16, lines: Lines<'_>) -> Result<(), Wrong> {
    let number = before.checked_add(1).ok_or(Wrong::Value)?;
    let name = script_name(number)?;
    boot.script(name, script_of(alloc, lines)?)?;
    Ok(boot.process(number, &name, number)?)
}

fn declares_processes(alloc: Global, boot: &mut Boot, scripts: &[Lines<'_>]) -> Result<(), Wrong> {
    for (lines, before) in scripts.iter().zip(0..u16::MAX) {
        declares(alloc, boot, before, lines)?;
    }
    Ok(())
}

fn declares_copies(boot: &mut Boot, copies: &[Version<'_>]) -> Result<(), Wrong> {
    for (at, version, bytes) in copies {
        boot.copy(name(at)?, content(*version, bytes)?)?;
    }
    Ok(())
}

/// Declares an object, where there is room; a directory is none of them.
fn declares_object(boot: &mut Boot, made: Made<'_>) -> Result<(), Wrong> {
    let (at, kind, bytes) = made;
    if boot.objects().len() >= 64 || bytes.len() > 512 || kind == ObjectKind::Dir {
        return Err(Wrong::Start);
    }
    Ok(boot.object(name(at)?, kind, bytes)?)
}

fn declares_objects(boot: &mut Boot, objects: &[Made<'_>]) -> Result<(), Wrong> {
    for made in objects {
        declares_object(boot, *made)?;
    }
    Ok(())
}

pub fn declares_all(alloc: Global, boot: &mut Boot, start: &Start<'_>) -> Result<(), Wrong> {
    declares_copies(boot, start.copies)?;
    declares_processes(alloc, boot, start.scripts)?;
    declares_objects(boot, start.objects)
}

/// The kernel of a boot that has nothing yet.
fn boots(alloc: Global, boot: &mut Boot, start: &Start<'_>) -> Result<Kernel, Wrong>
    ensures { IfOk result (λ kernel. undecided_at kernel ≡ []) }
{
    declares_all(alloc, boot, start)?;
    Ok(Kernel::boot(alloc, start.number, boot, start.limit)?)
}

pub fn kernel_of(alloc: Global, start: &Start<'_>) -> Result<Kernel, Wrong>
    ensures { IfOk result (λ kernel. undecided_at kernel ≡ []) }
{
    let mut boot = Boot::new(alloc);
    let kernel = boots(alloc, &mut boot, start);
    drop(boot);
    kernel
}

/// Sets a file before the first request.
fn seed(server: &mut Server, file: Version<'_>) -> Result<(), Wrong>
    requires { server.old.next ≡ 1 }
    ensures { OnOk result (server.new.next ≡ 1) }
{
    let (at, version, bytes) = file;
    Ok(server.seed(name(at)?, content(version, bytes)?)?)
}

/// A server with this file.
pub fn server_with(alloc: Global, file: Version<'_>) -> Result<Server, Wrong>
    ensures { IfOk result (λ server. server.next ≡ 1) }
{
    let mut server = Server::new(alloc);
    match seed(&mut server, file) {
        Ok(()) => Ok(server),
        Err(wrong) => {
            drop(server);
            Err(wrong)
        }
    }
}
