//! Talking: what a scenario declares is played by the lines of a reader, each of which is answered before the next one
//! is read.
ghost use Rattle.std.specs.Prelude.{◌≡◌, ◌<◌, ◌^◌, ◌-◌, ◌+◌, ◌++◌, ◌∷◌, ℕ, List, [], None, Some, Ok, Err, IfOk, OnOk, codes};
ghost use Rattle.sk_run.specs.Base.{lines, Appends, writer_buffer, writer_contents, words, IsFlushed, message_text};
ghost use Rattle.sk_run.specs.Base.{section_view, opened_in, epoch_line, lease_line, IsAnswer, LineTaken, asked_by};
ghost use Rattle.sk_command.specs.declared.message.Message.TheVariants as messages;
ghost use Rattle.sk_words.specs.declared.fault.FaultKind.TheVariants as kinds;
ghost use Rattle.sk_talk.specs.declared.line.LineTold.TheVariants as tells;
ghost use Rattle.sk_report.specs.declared.stop.Stop.TheVariants as stops;
ghost use Rattle.sk_run.specs.InTurn.{Prints};
ghost use Rattle.sk_run.specs.Talk.{begun, is_alone, is_end, is_help, help_answer, fault_line, fault_of, IsFaultAs, IsFaultBy, told_as, number_behind, handed_behind, AnswersAs, Answers, BeginsEpoch, HandsOut, Serves, TellsLease, EndsTalk, EndsOpened, TakesLine, WantsMemory};

use sk_command::end::{End, flushed, tell_unread, tell_wrong_section};
use sk_command::help::TALK_FORMS;
use sk_command::message::{Message, write_message};
use sk_command::open_input::OpenInput;
use sk_command::read_all::ReadFault;
use sk_faults::{Part, write_line_detail};
use sk_ids::Pid;
use sk_play::{EpochTold, LeaseTold, write_answer, write_told};
use sk_questions::{Asked, Question};
use sk_report::Stop;
use sk_scenario::{Declarations, Section};
use sk_talk::{HandedOut, LineTold, Play};
use sk_words::{Cursor, FaultKind, Words};
use std::alloc::{AllocError, Global};
use std::io;
use std::io::{BufRead, BufReader, BufWriter, ErrorKind, Write};

/// What is at play, the number of its next event, from 1 on, and how many texts were handed out in this epoch.
#[derive(Drop)]
pub struct Talk {
    play: Play,
    number: usize,
    handed: HandedOut,
}

/// Whether a line has this word alone.
fn is_alone(word: &[u8], line: &[u8]) -> bool
    ensures { result ≡ is_alone word.now (words line.now) }
{
    let mut words = Words::of(line);
    match words.next() {
        Some(first) => first == word && words.next().is_none(),
        None => false,
    }
}

/// Whether a line ends the talk.
fn is_end(line: &[u8]) -> bool
    ensures { result ≡ is_end line.now }
{
    is_alone(b"end", line) || is_alone(b"quit", line)
}

/// Reads the next line of a reader, with its end.
fn next_line<R: BufRead>(reader: &mut R, line: &mut Vec<u8>) -> io::Result<()>
    ensures { OnOk result
        (TakesLine (R.remaining reader.old) (R.remaining reader.new) (lines line.new.items)) }
{
    line.clear();
    reader.read_until(b'\n', line)?;
    Ok(())
}

/// Why a read failed.
fn read_fault(error: &io::Error) -> ReadFault {
    match error.kind() {
        ErrorKind::OutOfMemory => ReadFault::Memory,
        kind => ReadFault::Failed(kind),
    }
}

/// Tells what is wrong with the line of this number.
fn write_wrong<W: Write>(line: u64, kind: FaultKind, out: &mut W) -> Result<(), Stop>
    ensures written { OnOk result (Appends (W.contents out.old) (W.contents out.new)
        (message_text (messages.Fault line kind) ++ 10 ∷ [])) }
    ensures stop { result ≡ Err stops.Memory → ⊥ }
{
    write_message(&Message::Fault { line, kind }, out)?;
    Ok(())
}

/// Tells the fault of the line of this number; of want of memory nothing is told.
fn write_fault<W: Write>(line: u64, kind: FaultKind, out: &mut W) -> Result<(), Stop>
    ensures written { OnOk result
        ((text : List ℕ) × (fault_line line kind ≡ Some text)
        × Appends (W.contents out.old) (W.contents out.new) text) }
    ensures memory { result ≡ Err stops.Memory → (kind ≡ kinds.Memory) × (out.new ≡ out.old) }
{
    match kind {
        FaultKind::Memory => Err(Stop::Memory),
        _ => {
            write_message(&Message::Fault { line, kind }, out)?;
            Ok(())
        }
    }
}

/// Writes what the line of this number is told, as that of the next event.
fn write_line<W: Write>(line: u64, number: usize, told: &LineTold, out: &mut W) -> Result<(), Stop>
    ensures written { OnOk result
        ((text : List ℕ) × (told_as line number told.now ≡ Some text)
        × Appends (W.contents out.old) (W.contents out.new) text) }
    ensures memory { result ≡ Err stops.Memory
        → (told.now ≡ tells.Fault kinds.Memory) × (out.new ≡ out.old) }
{
    match told {
        LineTold::Answered(answer) => {
            out.write_all(b"event ")?;
            write_answer(number, answer, out)?;
            Ok(())
        }
        LineTold::Happened(told) => {
            out.write_all(b"event ")?;
            write_told(number, told, out)?;
            Ok(())
        }
        LineTold::Nothing => Ok(()),
        LineTold::Fault(kind) => write_fault(line, *kind, out),
    }
}

/// The number of the event behind a line that was told so.
fn number_behind(told: &LineTold, number: usize) -> usize
    requires { number < 2 ^ 64 - 1 }
    ensures { result ≡ number_behind told.now number }
{
    match told {
        LineTold::Answered(_) | LineTold::Happened(_) => number + 1,
        LineTold::Nothing | LineTold::Fault(_) => number,
    }
}

/// The fault of a line that was told so.
fn fault_of(told: &LineTold) -> Option<FaultKind>
    ensures { result ≡ fault_of told.now }
{
    match told {
        LineTold::Fault(kind) => Some(*kind),
        LineTold::Answered(_) | LineTold::Happened(_) | LineTold::Nothing => None,
    }
}

/// Tells which lines a talk takes; no fault is in that.
fn write_help<W: Write>(out: &mut W) -> Result<Option<FaultKind>, Stop>
    ensures written { OnOk result (Appends (W.contents out.old) (W.contents out.new) help_answer) }
    ensures fault { IfOk result (λ fault. fault ≡ None) }
    ensures stop { result ≡ Err stops.Memory → ⊥ }
{
    out.write_all(b"help\n")?;
    out.write_all(TALK_FORMS.as_bytes())?;
    out.write_all(b"\nend\n")?;
    Ok(None)
}

/// Tells what came of a wish for a new epoch.
fn write_epoch<W: Write>(told: &EpochTold, out: &mut W) -> Result<(), Stop>
    ensures written { OnOk result
        (Appends (W.contents out.old) (W.contents out.new) (epoch_line told.now)) }
    ensures stop { result ≡ Err stops.Memory → ⊥ }
{
    writeln!(out, "epoch {told}")?;
    Ok(())
}

/// Tells what came of a lease.
fn write_lease<W: Write>(told: &LeaseTold, out: &mut W) -> Result<(), Stop>
    ensures written { OnOk result
        (Appends (W.contents out.old) (W.contents out.new) (lease_line told.now)) }
    ensures stop { result ≡ Err stops.Memory → ⊥ }
{
    writeln!(out, "lease {told}")?;
    Ok(())
}

impl Talk {
    /// A talk at its start.
    fn begin(alloc: Global, play: Play) -> Talk
        ensures { result ≡ begun play }
    {
        Talk {
            play,
            number: 1,
            handed: HandedOut::new(alloc),
        }
    }

    /// Writes the answer to a question.
    fn reply<W: Write>(&self, alloc: Global, question: &Question, out: &mut W) -> Result<(), Stop>
        ensures written { OnOk result
            (Prints (IsAnswer self.now.play question.now)
            (W.contents out.old) (W.contents out.new)) }
        ensures memory { result ≡ Err stops.Memory → out.new ≡ out.old }
    {
        let text = self.play.asked(alloc, question)?;
        out.write_all(&text)?;
        Ok(())
    }

    /// Hands out the texts that a terminal has released and that were not handed out in this epoch.
    fn hand_out<W: Write>(&mut self, alloc: Global, number: u16, out: &mut W) -> Result<(), Stop>
        ensures written { OnOk result
            ((text : List ℕ) × HandsOut number self.old self.new text
            × Appends (W.contents out.old) (W.contents out.new) text) }
        ensures memory { result ≡ Err stops.Memory → out.new ≡ out.old }
    {
        let text = self.handed.take(alloc, self.play.kernel(), number)?;
        out.write_all(&text)?;
        Ok(())
    }

    /// None of the texts of the epoch that has begun, if one has, is handed out.
    fn forget(&mut self, alloc: Global, told: &EpochTold)
        ensures { self.new ≡ record self.old { handed = handed_behind told.now self.old.handed } }
    {
        if let EpochTold::Begun(_) = told {
            self.handed = HandedOut::new(alloc);
        }
    }

    /// Begins a new epoch, and writes what came of it.
    fn begin_epoch<W: Write>(&mut self, alloc: Global, out: &mut W) -> Result<(), Stop>
        ensures written { OnOk result
            ((text : List ℕ) × BeginsEpoch self.old self.new text
            × Appends (W.contents out.old) (W.contents out.new) text) }
        ensures memory { result ≡ Err stops.Memory → out.new ≡ out.old }
    {
        let told = self.play.new_epoch()?;
        self.forget(alloc, &told);
        write_epoch(&told, out)
    }

    /// Has a process do up to so many private instructions, and writes what came of that.
    fn lease<W: Write>(&mut self, pid: Pid, count: u32, out: &mut W) -> Result<(), Stop>
        ensures written { OnOk result
            ((text : List ℕ) × TellsLease pid count self.old self.new text
            × Appends (W.contents out.old) (W.contents out.new) text) }
        ensures memory { result ≡ Err stops.Memory → out.new ≡ out.old }
    {
        let told = self.play.lease(pid, count)?;
        write_lease(&told, out)
    }

    /// Writes the answer to what is asked.
    fn serve<W: Write>(&mut self, alloc: Global, asked: &Asked, out: &mut W) -> Result<(), Stop>
        ensures written { OnOk result
            ((text : List ℕ) × Serves asked.now self.old self.new text
            × Appends (W.contents out.old) (W.contents out.new) text) }
        ensures memory { result ≡ Err stops.Memory → out.new ≡ out.old }
    {
        match asked {
            Asked::Question(question) => self.reply(alloc, question, out),
            Asked::Released(number) => self.hand_out(alloc, number.get(), out),
            Asked::Epoch => self.begin_epoch(alloc, out),
            Asked::Lease(pid, count) => self.lease(*pid, *count, out),
        }
    }

    /// The part of a scenario whose events are talked of.
    fn part(&self) -> Part {
        match self.play {
            Play::Steps(_) => Part::Steps,
            Play::World(_) => Part::World,
        }
    }

    /// Makes the call that the line of this number says, and writes what it is told: its fault, if it has one.
    fn take<W: Write>(
        &mut self,
        alloc: Global,
        number: u64,
        line: &[u8],
        out: &mut W,
    ) -> Result<Option<FaultKind>, Stop>
        requires { self.old.number < 2 ^ 64 - 1 }
        ensures written { OnOk result
            ((text : List ℕ) × AnswersAs (Ok None) number line.now self.old self.new text
            × Appends (W.contents out.old) (W.contents out.new) text) }
        ensures fault { IfOk result
            (λ fault. IsFaultAs (Ok None) line.now self.old.play self.new.play fault) }
        ensures memory { result ≡ Err stops.Memory
            → LineTaken (tells.Fault kinds.Memory) line.now self.old.play self.new.play
            × (out.new ≡ out.old) }
    {
        let told = self.play.line(alloc, line);
        write_line(number, self.number, &told, out)?;
        self.number = number_behind(&told, self.number);
        Ok(fault_of(&told))
    }

    /// Writes the answer to the line of this number, which wants no help: its fault, if it has one.
    fn respond<W: Write>(
        &mut self,
        alloc: Global,
        number: u64,
        line: &[u8],
        out: &mut W,
    ) -> Result<Option<FaultKind>, Stop>
        requires { self.old.number < 2 ^ 64 - 1 }
        ensures written { OnOk result
            ((text : List ℕ) × AnswersAs (asked_by line.now) number line.now self.old self.new text
            × Appends (W.contents out.old) (W.contents out.new) text) }
        ensures fault { IfOk result
            (λ fault. IsFaultAs (asked_by line.now) line.now self.old.play self.new.play fault) }
        ensures memory { result ≡ Err stops.Memory
            → WantsMemory line.now self.old.play self.new.play × (out.new ≡ out.old) }
    {
        match Asked::of(line) {
            Ok(Some(asked)) => {
                self.serve(alloc, &asked, out)?;
                Ok(None)
            }
            Ok(None) => self.take(alloc, number, line, out),
            Err(kind) => {
                write_wrong(number, kind, out)?;
                Ok(Some(kind))
            }
        }
    }

    /// Writes the answer to the line of this number: its fault, if it has one.
    fn tell<W: Write>(
        &mut self,
        alloc: Global,
        number: u64,
        line: &[u8],
        out: &mut W,
    ) -> Result<Option<FaultKind>, Stop>
        requires { self.old.number < 2 ^ 64 - 1 }
        ensures written { OnOk result
            ((text : List ℕ) × Answers number line.now self.old self.new text
            × Appends (W.contents out.old) (W.contents out.new) text) }
        ensures fault { IfOk result (λ fault.
            IsFaultBy (is_help line.now) line.now self.old.play self.new.play fault) }
        ensures memory { result ≡ Err stops.Memory
            → WantsMemory line.now self.old.play self.new.play × (out.new ≡ out.old) }
    {
        if is_alone(b"help", line) {
            return write_help(out);
        }
        self.respond(alloc, number, line, out)
    }

    /// Writes the answer to the line of this number, and writes out what the output buffers; and then where its fault stands, if
    /// it has one.
    fn answer<W: Write + Drop, E: Write>(
        &mut self,
        alloc: Global,
        number: u64,
        line: &[u8],
        out: &mut BufWriter<W>,
        err: &mut E,
    ) -> Result<(), Stop>
        requires { self.old.number < 2 ^ 64 - 1 }
        ensures written { OnOk result
            ((text : List ℕ) × Answers number line.now self.old self.new text
            × Appends (writer_contents W.contents out.old) (writer_contents W.contents out.new)
            text) }
        ensures flushed { OnOk result (writer_buffer out.new ≡ []) }
        ensures memory { result ≡ Err stops.Memory
            → WantsMemory line.now self.old.play self.new.play × (out.new ≡ out.old) }
    {
        let fault = self.tell(alloc, number, line, out)?;
        out.flush()?;
        if let Some(kind) = fault {
            let _ = write_line_detail(self.part(), number, line, kind, err);
        }
        Ok(())
    }
}

/// Answers the lines of a reader one by one, each before the next is read, up to one that ends the talk or the reader's end.
pub fn answer_lines<R: BufRead, W: Write + Drop, E: Write>(
    alloc: Global,
    play: Play,
    reader: &mut R,
    out: &mut BufWriter<W>,
    err: &mut E,
) -> End
    ensures end { EndsTalk play (R.remaining reader.old) result
        (writer_contents W.contents out.old) (writer_contents W.contents out.new) }
    ensures flushed { IsFlushed result (writer_buffer out.new) }
    ensures at_once { writer_buffer out.old ≡ []
        → result ≡ End.Trouble → writer_buffer out.new ≡ [] }
{
    let mut talk = Talk::begin(alloc, play);
    let mut line = Vec::new(alloc);
    for number in 1..u64::MAX {
        if let Err(error) = next_line(reader, &mut line) {
            return tell_unread(read_fault(&error), "-", err);
        }
        let Some(text) = Cursor::of(&line).next() else {
            return flushed(out);
        };
        if is_end(text) {
            return flushed(out);
        }
        match talk.answer(alloc, number, text, out, err) {
            Ok(()) => {}
            Err(Stop::Memory) => return End::Trouble,
            Err(Stop::Output) => return End::OutputRefused,
        }
    }
    tell_unread(ReadFault::NoEnd, "-", err)
}

/// Talks by the lines of the standard input.
fn talk_input<O: OpenInput, W: Write + Drop, E: Write>(
    alloc: Global,
    play: Play,
    inputs: &O,
    out: &mut BufWriter<W>,
    err: &mut E,
) -> End
    ensures end { EndsTalk play (O.bytes_of inputs.now (codes "-")) result
        (writer_contents W.contents out.old) (writer_contents W.contents out.new) }
    ensures flushed { IsFlushed result (writer_buffer out.new) }
{
    let reader = match inputs.open("-") {
        Ok(reader) => reader,
        Err(error) => return tell_unread(read_fault(&error), "-", err),
    };
    match BufReader::new(alloc, reader) {
        Ok(mut lines) => answer_lines(alloc, play, &mut lines, out, err),
        Err(_) => End::Trouble,
    }
}

/// Talks to what is declared, by the lines of the standard input, or tells that the section is wrong.
pub fn talk_declared<O: OpenInput, W: Write + Drop, E: Write>(
    alloc: Global,
    declarations: &Declarations,
    section: &Section,
    inputs: &O,
    out: &mut BufWriter<W>,
    err: &mut E,
) -> End
    ensures end { EndsOpened (opened_in declarations.now (section_view section.now))
        (O.bytes_of inputs.now (codes "-")) result
        (writer_contents W.contents out.old) (writer_contents W.contents out.new) }
    ensures flushed { IsFlushed result (writer_buffer out.new) }
{
    match Play::of(alloc, declarations, section) {
        Ok(Some(play)) => talk_input(alloc, play, inputs, out, err),
        Ok(None) => tell_wrong_section(err),
        Err(AllocError) => End::Trouble,
    }
}
