//! What the words of the command line ask for.
ghost use Rattle.std.specs.Prelude.{◌≡◌, false, [], map, option_map, IfOk, IfErr, IfSome, OnOk, string_bytes};
ghost use Rattle.std.specs.Int.{IsInRange};
ghost use Rattle.std.specs.Io.Buffered.{writer_buffer, writer_contents};
ghost use Rattle.clap.specs.Kinds.{HasKind};
ghost use Rattle.clap.specs.Matches.{found_of};
ghost use Rattle.clap.specs.Simple.{app_of, subcommand_rows_of};
ghost use Rattle.clap.specs.Values.{kind_of};
ghost use Rattle.clap.specs.Walk.{rows_of, rule_of};
ghost use Rattle.clap.specs.declared.builder.command.Command.TheViews.{out-Command as fields_of};
ghost use Rattle.sk_command.specs.CommandLine.{bare_command_line, with_players, with_readers, command_line, file_command, play_command, work_command, instructions_command, file_rule, flag_rule, workers_rule, turns_rule, has_flag, shows_found, number_said, number_found, work_for, task_for, IsWithinBounds, wish_of, wish_found, wished, faults_of};
ghost use Rattle.sk_command.specs.Ends.{EndsFor, EndsWithHelp, IsFlushed};

use crate::end::{End, flushed};
use crate::help::{
    COMMAND_LINE, COUNTS_FLAG, EXPLAIN_FLAG, FORMS, INSTRUCTIONS, PLAIN, PLAY, PLAY_FORMS, REPLAY,
    STEPS_FLAG, STRICT_FLAG, TALK, TALK_FORMS, TRACE_FLAG, TRACE_FORMS, WORK, WORK_FORMS,
};
use clap::builder::ValueParser;
use clap::error::ErrorKind;
use clap::{Arg, ArgAction, ArgMatches, Command, Error};
use sk_script::INSTRUCTIONS_TABLE;
use std::alloc::{AllocError, Global};
use std::fmt;
use std::io::{BufWriter, Write};

/// What `play` prints beside the answers and the report.
#[derive(Clone, Copy)]
pub struct Shows {
    /// What each step reads, writes and depends on, below its answer.
    pub steps: bool,
    /// The line of each event, and the place of its process, below these.
    pub explains: bool,
    /// The counts, behind the report.
    pub counts: bool,
    /// The trace, behind these.
    pub trace: bool,
    /// Whether an event was refused, by the status.
    pub is_strict: bool,
}

/// What is done with an input.
#[derive(Clone, Copy)]
pub enum Task {
    /// The events of a scenario are played, and what is wanted beside it is printed.
    Play(Shows),
    /// What a scenario declares is played by the lines of the standard input.
    Talk,
    /// What a trace leaves is run without guesses.
    Plain,
    /// A trace is taken anew by a kernel.
    Replay,
    /// Workers, 1 to 8, take turns of a scenario's processes on one desk, each so many at most, 1 to 1,000,000.
    Work { workers: u8, turns: u32 },
}

/// What the words ask for.
#[derive(Clone, Copy)]
pub struct Job<'a> {
    /// The name of the input; `-` is standard input.
    pub file: &'a str,
    pub task: Task,
}

/// How many workers `work` can have.
pub const WORKERS_MOST: u32 = 8;

/// How many turns each worker of `work` can have.
pub const TURNS_MOST: u32 = 1_000_000;

fn file_arg<'a>(alloc: Global) -> Arg<'a>
    ensures rule { rule_of result ≡ file_rule }
    ensures local { result.global ≡ false }
{
    Arg::new(alloc, "FILE")
        .required(true)
        .action(ArgAction::Set)
        .value_name("FILE")
        .help("The scenario's file, or - for standard input")
}

/// A flag of this name.
fn flag<'a>(alloc: Global, name: &'a str, help: &'a str) -> Arg<'a>
    ensures rule { rule_of result ≡ flag_rule name.entry.now }
    ensures local { result.global ≡ false }
{
    Arg::new(alloc, name)
        .long(name)
        .action(ArgAction::SetTrue)
        .help(help)
}

fn workers_arg<'a>(alloc: Global) -> Arg<'a>
    ensures rule { rule_of result ≡ workers_rule }
    ensures local { result.global ≡ false }
{
    Arg::new(alloc, "workers")
        .long("workers")
        .required(true)
        .action(ArgAction::Set)
        .value_name("N")
        .value_parser(ValueParser::unsigned(1, u64::from(WORKERS_MOST)))
        .help("The number of workers, 1 to 8")
}

fn turns_arg<'a>(alloc: Global) -> Arg<'a>
    ensures rule { rule_of result ≡ turns_rule }
    ensures local { result.global ≡ false }
{
    Arg::new(alloc, "turns")
        .long("turns")
        .action(ArgAction::Set)
        .value_name("T")
        .default_value("100000")
        .value_parser(ValueParser::unsigned(1, u64::from(TURNS_MOST)))
        .help("The greatest number of turns of each worker, 1 to 1000000")
}

/// A command of this name that takes a file, with the forms of what it reads.
fn of_file<'a>(
    alloc: Global,
    name: &'a str,
    about: &'a str,
    forms: &'a str,
) -> Result<Command<'a>, AllocError>
    ensures app { IfOk result (λ command. app_of command ≡ file_command name.entry.now) }
    ensures local { IfOk result (λ command. (fields_of command).has_globals ≡ false) }
{
    Command::new(alloc, name)
        .about(about)
        .after_help(forms)
        .arg(file_arg(alloc))
}

fn play<'a>(alloc: Global) -> Result<Command<'a>, AllocError>
    ensures app { IfOk result (λ command. app_of command ≡ play_command) }
    ensures local { IfOk result (λ command. (fields_of command).has_globals ≡ false) }
{
    of_file(alloc, "play", PLAY, PLAY_FORMS)?
        .arg(flag(alloc, "trace", TRACE_FLAG))?
        .arg(flag(alloc, "steps", STEPS_FLAG))?
        .arg(flag(alloc, "counts", COUNTS_FLAG))?
        .arg(flag(alloc, "explain", EXPLAIN_FLAG))?
        .arg(flag(alloc, "strict", STRICT_FLAG))
}

fn work<'a>(alloc: Global) -> Result<Command<'a>, AllocError>
    ensures app { IfOk result (λ command. app_of command ≡ work_command) }
    ensures local { IfOk result (λ command. (fields_of command).has_globals ≡ false) }
{
    of_file(alloc, "work", WORK, WORK_FORMS)?
        .arg(workers_arg(alloc))?
        .arg(turns_arg(alloc))
}

/// The command that prints the table of instructions, and does nothing else.
fn instructions<'a>(alloc: Global) -> Command<'a>
    ensures app { app_of result ≡ instructions_command }
    ensures local { (fields_of result).has_globals ≡ false }
{
    Command::new(alloc, "instructions")
        .about(INSTRUCTIONS)
        .after_help(INSTRUCTIONS_TABLE)
        .arg_required_else_help(true)
}

/// The command line without its commands, one of which has to be named.
fn without_commands<'a>(alloc: Global) -> Command<'a>
    ensures { app_of result ≡ bare_command_line }
{
    Command::new(alloc, "speculate")
        .version("0.1.0")
        .about(COMMAND_LINE)
        .after_help(FORMS)
        .subcommand_required(true)
}

/// The command line with the commands that play what a scenario declares.
fn with_players<'a>(alloc: Global) -> Result<Command<'a>, AllocError>
    ensures { IfOk result (λ command. app_of command ≡ with_players) }
{
    without_commands(alloc)
        .subcommand(play(alloc)?)?
        .subcommand(of_file(alloc, "talk", TALK, TALK_FORMS)?)
}

/// The command line with those commands, and with those that take a trace.
fn with_readers<'a>(alloc: Global) -> Result<Command<'a>, AllocError>
    ensures { IfOk result (λ command. app_of command ≡ with_readers) }
{
    with_players(alloc)?
        .subcommand(of_file(alloc, "plain", PLAIN, TRACE_FORMS)?)?
        .subcommand(of_file(alloc, "replay", REPLAY, TRACE_FORMS)?)
}

/// The command line with all its commands.
fn command<'a>(alloc: Global) -> Result<Command<'a>, AllocError>
    ensures { IfOk result (λ command. app_of command ≡ command_line) }
{
    with_readers(alloc)?
        .subcommand(work(alloc)?)?
        .subcommand(instructions(alloc))
}

/// Whether a command has this flag among its words.
fn has_flag(words: &ArgMatches, flag: &str) -> bool
    ensures { result ≡ has_flag flag.now (rows_of (found_of words.now)) }
{
    match words.get_str(flag) {
        Some(value) => value == "true",
        None => false,
    }
}

/// What is wanted beside the answers and the report.
fn shows_of(words: &ArgMatches) -> Shows
    ensures { result ≡ shows_found (rows_of (found_of words.now)) }
{
    Shows {
        steps: has_flag(words, "steps"),
        explains: has_flag(words, "explain"),
        counts: has_flag(words, "counts"),
        trace: has_flag(words, "trace"),
        is_strict: has_flag(words, "strict"),
    }
}

/// The number that a text says, if it is one from 1 to this limit.
fn number_said(text: &str, most: u32) -> Option<u32>
    ensures value { result ≡ number_said most text.now }
    ensures within { IfSome result (IsInRange 1 most) }
{
    let Ok(number) = text.parse::<u32>() else {
        return None;
    };
    if number < 1 || most < number {
        return None;
    }
    Some(number)
}

/// The number that an argument has, if it is one from 1 to this limit.
fn number_of(words: &ArgMatches, argument: &str, most: u32) -> Option<u32>
    ensures value { result ≡ number_found most argument.now (rows_of (found_of words.now)) }
    ensures within { IfSome result (IsInRange 1 most) }
{
    match words.get_str(argument) {
        Some(text) => number_said(text, most),
        None => None,
    }
}

/// The task of the command `work`, with its workers and their turns.
fn work_of(words: &ArgMatches) -> Option<Task>
    ensures task { result ≡ work_for (rows_of (found_of words.now)) }
    ensures within { IfSome result IsWithinBounds }
{
    let workers = u8::try_from(number_of(words, "workers", WORKERS_MOST)?).ok()?;
    let turns = number_of(words, "turns", TURNS_MOST)?;
    Some(Task::Work { workers, turns })
}

/// The task of the command of this name.
fn task_of(command: &str, words: &ArgMatches) -> Option<Task>
    ensures task { result ≡ task_for command.now (rows_of (found_of words.now)) }
    ensures within { IfSome result IsWithinBounds }
{
    match command {
        "play" => Some(Task::Play(shows_of(words))),
        "talk" => Some(Task::Talk),
        "plain" => Some(Task::Plain),
        "replay" => Some(Task::Replay),
        "work" => work_of(words),
        _ => None,
    }
}

/// The job that a parse found, if there is one.
fn job_of<'a>(matches: &ArgMatches<'a>) -> Option<Job<'a>>
    ensures job { option_map wish_of result ≡ wish_found (subcommand_rows_of matches.now) }
    ensures within { IfSome result (λ job. IsWithinBounds job.task) }
{
    let (command, words) = matches.subcommand()?;
    let file = words.get_str("FILE")?;
    let task = task_of(command, words)?;
    Some(Job { file, task })
}

/// What the program's words ask for, of which the first is its own name; `None` where they name no file.
/// Where they are faulty, or want help, the error says so.
pub fn asked<'a>(alloc: Global, words: &'a [String]) -> Result<Option<Job<'a>>, Error>
    ensures faultless { OnOk result (faults_of (map string_bytes words.now) ≡ []) }
    ensures job { IfOk result (λ job. option_map wish_of job
        ≡ wished (map string_bytes words.now)) }
    ensures within { IfOk result (λ job. IfSome job (λ job. IsWithinBounds job.task)) }
    ensures err { IfErr result (HasKind (faults_of (map string_bytes words.now))) }
{
    let parser = command(alloc)?;
    match parser.try_get_matches_from(words) {
        Ok(matches) => Ok(job_of(&matches)),
        Err(error) => Err(error),
    }
}

/// Writes what the command line's reader has to say: help to the output, a fault to the error writer.
pub fn explain<W: Write + Drop, E: Write>(
    alloc: Global,
    error: &Error,
    out: &mut BufWriter<W>,
    err: &mut E,
) -> End
    ensures end { EndsFor (kind_of error.now) result
        (writer_contents W.contents out.old) (writer_contents W.contents out.new) }
    ensures flushed { IsFlushed result (writer_buffer out.new) }
{
    match error.kind() {
        ErrorKind::OutOfMemory => End::Trouble,
        ErrorKind::DisplayHelp
        | ErrorKind::DisplayVersion
        | ErrorKind::DisplayHelpOnMissingArgumentOrSubcommand => print_help(alloc, error, out),
        _ => {
            let _ = write!(err, "{error}");
            End::Usage
        }
    }
}

fn print_help<H: fmt::Display, W: Write + Drop>(
    alloc: Global,
    help: &H,
    out: &mut BufWriter<W>,
) -> End
    ensures end { EndsWithHelp (H.output help.now) result
        (writer_contents W.contents out.old) (writer_contents W.contents out.new) }
    ensures flushed { IsFlushed result (writer_buffer out.new) }
{
    let Ok(text) = format!(in alloc; "{help}") else {
        return End::Trouble;
    };
    match out.write_all(text.as_bytes()) {
        Ok(()) => flushed(out),
        Err(_) => End::OutputRefused,
    }
}
