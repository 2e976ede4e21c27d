//! `speculate`: plays a scenario on a kernel that runs ahead on guesses. What it does with a scenario is in `sk_run`; here are
//! its run, its threads, its inputs and its outputs.
#![tactic(auto)]

pub mod program;
mod working;

use crate::program::run;
use sk_command::end::End;
use sk_command::open_input::OpenInput;
use std::io::{BufWriter, ErrorKind, Read, Write};
use std::process::ExitCode;
use std::rt::Files;
use std::sync::Wait;
use std::thread::Threads;
use std::{env, fs, io};

/// An input: a file, or the standard input.
#[derive(Drop)]
enum Source<F, S> {
    File(F),
    Standard(S),
}

impl<F: Read, S: Read> Read for Source<F, S> {
    fn read(&mut self, buf: &mut [u8]) -> io::Result<usize> {
        match self {
            Source::File(file) => file.read(buf),
            Source::Standard(input) => input.read(buf),
        }
    }
}

/// Opens files by name; `-` is the standard input.
#[derive(Drop)]
struct System<'a, R> {
    rt: &'a R,
}

impl<R: Files + Input> OpenInput for System<'_, R> {
    type Reader = Source<R::File, R::Reader>;

    fn open(&self, name: &str) -> io::Result<Source<R::File, R::Reader>> {
        if name == "-" {
            Ok(Source::Standard(self.rt.reader()))
        } else {
            Ok(Source::File(fs::open(self.rt, name)?))
        }
    }
}

/// How the run ends where its words can't be had.
fn end_without_words(rt: &HostRuntime, error: &io::Error) -> End {
    if error.kind() != ErrorKind::InvalidData {
        return End::Trouble;
    }
    let _ = writeln!(rt.stderr(), "error: a word is not UTF-8");
    End::Usage
}

/// Runs the program on the words of its process; its threads come from a runtime that has them.
fn end_of<T: Threads + Wait + Sync>(rt: &HostRuntime, threads: &T) -> End {
    let words = match env::args(rt) {
        Ok(words) => words.collect::<Vec<String>>(rt.alloc()),
        Err(error) => return end_without_words(rt, &error),
    };
    let Ok(words) = words else {
        return End::Trouble;
    };
    let Ok(mut out) = BufWriter::new(rt.alloc(), rt.stdout()) else {
        return End::Trouble;
    };
    let system = System { rt };
    let mut err = rt.stderr();
    let end = run(threads, rt.alloc(), &words, &system, &mut out, &mut err);
    // What a refused write left over is not written again.
    let _left = out.into_parts();
    end
}

fn main(rt: HostRuntime) -> ExitCode {
    ExitCode::from(end_of(&rt, &rt).status())
}
