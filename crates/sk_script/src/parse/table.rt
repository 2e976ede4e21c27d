//! The instructions by their first words.
ghost use Rattle.std.specs.Prelude.{◌≡◌};
ghost use Rattle.sk_script.specs.Instructions.{instruction, place_instruction, object_instruction, byte_instruction, outer_instruction};

use crate::parse::labels::Labels;
use crate::{Instruction, Register};
use sk_words::{FaultKind, Index, Label, Words, none, one, three, two};

/// What a line says whose first word this is.
#[tactic(auto, unfolding(crate::specs::Instructions::instruction))]
pub(crate) fn instruction_of(
    labels: &Labels,
    word: &str,
    words: &Words,
) -> Result<Instruction, FaultKind>
    ensures { result ≡ instruction labels.now word.now words.now }
{
    match word {
        "set" => {
            let (register, number) = two(words)?;
            Ok(Instruction::Set(register, number))
        }
        "move" => {
            let (to, from) = two(words)?;
            Ok(Instruction::Move(to, from))
        }
        "add" => {
            let (to, from) = two(words)?;
            Ok(Instruction::Add(to, from))
        }
        "text" => Ok(Instruction::Text(one(words)?)),
        "len" => Ok(Instruction::Len(one(words)?)),
        "self" => Ok(Instruction::SelfPid(one(words)?)),
        "boot" => {
            let (register, number): (Register, Index) = two(words)?;
            Ok(Instruction::BootPid(register, number.get()))
        }
        _ => place_instruction(labels, word, words),
    }
}

/// The instructions about places.
#[tactic(auto, unfolding(crate::specs::Instructions::place_instruction))]
fn place_instruction(labels: &Labels, word: &str, words: &Words) -> Result<Instruction, FaultKind>
    ensures { result ≡ place_instruction labels.now word.now words.now }
{
    match word {
        "jump" => {
            let label: Label = one(words)?;
            Ok(Instruction::Jump(labels.place_of(&label)?))
        }
        "zero" => {
            let (register, label): (Register, Label) = two(words)?;
            Ok(Instruction::Zero(register, labels.place_of(&label)?))
        }
        "neg" => {
            let (register, label): (Register, Label) = two(words)?;
            Ok(Instruction::Negative(register, labels.place_of(&label)?))
        }
        "handler" => {
            let label: Label = one(words)?;
            Ok(Instruction::Handler(labels.place_of(&label)?))
        }
        "return" => {
            none(words)?;
            Ok(Instruction::Return)
        }
        _ => object_instruction(labels, word, words),
    }
}

/// The instructions that make objects, and those about the names of a directory.
#[tactic(auto, unfolding(crate::specs::Instructions::object_instruction))]
fn object_instruction(labels: &Labels, word: &str, words: &Words) -> Result<Instruction, FaultKind>
    ensures { result ≡ object_instruction labels.now word.now words.now }
{
    match word {
        "mkfile" => Ok(Instruction::MakeFile(one(words)?)),
        "mkdir" => Ok(Instruction::MakeDir(one(words)?)),
        "mkpipe" => Ok(Instruction::MakePipe(one(words)?)),
        "look" => {
            let (to, directory, name) = three(words)?;
            Ok(Instruction::Look(to, directory, name))
        }
        "link" => {
            let (directory, name, object) = three(words)?;
            Ok(Instruction::Link(directory, name, object))
        }
        "unlink" => {
            let (directory, name) = two(words)?;
            Ok(Instruction::Unlink(directory, name))
        }
        _ => byte_instruction(labels, word, words),
    }
}

/// The instructions about the bytes of files and pipes.
#[tactic(auto, unfolding(crate::specs::Instructions::byte_instruction))]
fn byte_instruction(labels: &Labels, word: &str, words: &Words) -> Result<Instruction, FaultKind>
    ensures { result ≡ byte_instruction labels.now word.now words.now }
{
    match word {
        "size" => Ok(Instruction::Size(one(words)?)),
        "write" => {
            let (file, offset) = two(words)?;
            Ok(Instruction::Write(file, offset))
        }
        "read" => {
            let (file, offset) = two(words)?;
            Ok(Instruction::Read(file, offset))
        }
        "cut" => {
            let (file, size) = two(words)?;
            Ok(Instruction::Cut(file, size))
        }
        "put" => Ok(Instruction::Put(one(words)?)),
        "take" => {
            let (pipe, count) = two(words)?;
            Ok(Instruction::Take(pipe, count))
        }
        "shut" => Ok(Instruction::Shut(one(words)?)),
        _ => outer_instruction(labels, word, words),
    }
}

/// The instructions about other processes, the terminal and the server.
#[tactic(auto, unfolding(crate::specs::Instructions::outer_instruction))]
fn outer_instruction(labels: &Labels, word: &str, words: &Words) -> Result<Instruction, FaultKind>
    ensures { result ≡ outer_instruction labels.now word.now words.now }
{
    match word {
        "fork" => {
            let (register, label): (Register, Label) = two(words)?;
            Ok(Instruction::Fork(register, labels.place_of(&label)?))
        }
        "wait" => {
            let (to, child) = two(words)?;
            Ok(Instruction::Wait(to, child))
        }
        "kill" => {
            let (process, signal) = two(words)?;
            Ok(Instruction::Kill(process, signal))
        }
        "exit" => Ok(Instruction::Exit(one(words)?)),
        "say" => {
            none(words)?;
            Ok(Instruction::Say)
        }
        "fetch" => Ok(Instruction::Fetch(one(words)?)),
        "store" => Ok(Instruction::Store(one(words)?)),
        _ => Err(FaultKind::Word),
    }
}
