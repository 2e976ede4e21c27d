//! Processes.
ghost use Rattle.std.specs.Prelude.{◌≡◌};
ghost use Rattle.sk_script.specs.Process.{beginning};

use crate::{Register, Registers, Val};
use sk_ids::{Name, ObjId, Pid, Text};

/// A process: where it stands in its script, and all that it holds.
#[derive(Clone, Copy, Debug, PartialEq, Eq)]
pub struct Process {
    pub pid: Pid,
    /// The name of its script.
    pub script: Name,
    /// The place of its next instruction, from 0 on.
    pub place: u32,
    pub registers: Registers,
    pub buffer: Text,
    /// How many children and how many objects it has made.
    pub children: u16,
    pub objects: u32,
    /// The place of its handler of signals, if it has set one.
    pub handler: Option<u32>,
    /// The place to return to from the handler.
    pub saved: Option<u32>,
    /// The number of its terminal.
    pub terminal: u16,
    pub ended: bool,
}

/// The root directory, `0:1`.
pub const ROOT: ObjId = ObjId {
    maker: None,
    count: 1,
};

impl Process {
    /// A process at the beginning of a script.
    pub fn new(pid: Pid, script: Name, terminal: u16) -> Process
        ensures { result ≡ beginning pid script terminal }
    {
        Process {
            pid,
            script,
            place: 0,
            registers: Registers::all(Val::Num(0)).with(Register::LAST, Val::Obj(ROOT)),
            buffer: Text::empty(),
            children: 0,
            objects: 0,
            handler: None,
            saved: None,
            terminal,
            ended: false,
        }
    }
}
