//! What the help of the command line says.

/// What the whole command line is about.
pub const COMMAND_LINE: &str =
    "A kernel that runs ahead on guesses, and takes back what a wrong one touched.";

/// What `play` does.
pub const PLAY: &str =
    "Plays the events of a scenario and prints each answer, and then the report.";

/// What `talk` does.
pub const TALK: &str = "Answers the events of standard input one by one, each at once.";

/// What `plain` does.
pub const PLAIN: &str =
    "Strikes a trace, runs what it leaves without guesses and prints the report.";

/// What `replay` does.
pub const REPLAY: &str = "Takes the events of a trace anew and prints the report.";

/// What `work` does.
pub const WORK: &str =
    "Lets workers take turns of a scenario's processes on one desk and prints the report.";

/// What `instructions` does.
pub const INSTRUCTIONS: &str = "Prints the table of the instructions of scripts.";

/// What each flag of `play` does.
pub const TRACE_FLAG: &str = "Prints the trace behind the report";

pub const STEPS_FLAG: &str = "Prints what each step reads, writes and rests on below its answer";

pub const COUNTS_FLAG: &str = "Prints how many guesses and steps there were behind the report";

pub const EXPLAIN_FLAG: &str =
    "Prints the line of each event, and that at which its process stood, below its answer";

pub const STRICT_FLAG: &str = "Ends with the status 4 where an event was refused";

/// The forms of scenarios and of their words, and the statuses of the program.
pub const FORMS: &str = "A scenario is a text of lines. First come the declarations:
  script NAME .. end    a script, an instruction or label per line
  file NAME LIT         the next boot object: a file with these bytes
  pipe NAME LIT         a pipe with these bytes
  dir NAME              an empty directory
  copy NAME V LIT       a cached copy of a remote file and its version
  remote NAME V LIT     a file of the server and its version
  process N SCRIPT T    a boot process, its script and its terminal
  limit N               the trace limit, 1000000 where none is given
  number N              the kernel's number, 1 where none is given
For `play` then comes the line `steps`, and below it an event per line:
  step PID INPUT        the process takes a step
  guess PID INPUT       the process takes a step on a guessed input
  commit G              the guess was right
  fail G                the guess was wrong
or the line `world`, and below it an event of desk and server per line:
  turn PID              the desk takes a turn of the process
  serve                 the server answers the next request
  reply                 the desk is given the next reply
  edit NAME V LIT       another client writes a file of the server
For `plain` and `replay` then comes the line `trace`, and below it what happened:
  step PID INPUT        the process took a step
  guess G PID INPUT     the process took a step on a guessed input
  commit G              the guess was right
  fail G                the guess was wrong
For `talk` the file ends there, or with the line `world`. Then each event is a
line of standard input, and so is what is asked; `end` or `quit` ends:
  value ENTITY          what the entity has, or that it is absent
  tags ENTITY           the undecided guesses that it rests on
  dependents G          the entities that rest on the guess
  terminal T            what the terminal has released, and how many texts wait
  released T            what it has released that was not handed out before
  counts                how many guesses, steps and notes there are
  trace                 what happened so far
  report                the report
  epoch                 a new epoch: the trace and the texts so far are let go
  lease PID N           up to N instructions of the process alone, at once
  help                  these lines
The answer to an event begins with `event` and its number, what is wrong with a
line with `speculate: line` and its number; standard error has where, and why.
`work` takes any section, and runs none of its lines.

In these lines:
  PID      a process: one to four numbers from 1 to 65535, joined by dots;
           1.3 is the third child of the boot process 1
  INPUT    none: a step without a reply; good: the reply that nothing changed;
           fresh V LIT: the file, anew; stale V LIT: the file, which another
           client has written
  LIT      bytes between quotes: blanks and printed bytes stand for themselves,
           \\\" and \\\\ for a quote and a backslash, \\n for a line feed, \\xHH for
           any byte; at most 512 bytes
  NAME     1 to 32 letters, digits and . _ - /
  V        a version, a number from 0 on; G a guess, a number from 1 on
  ENTITY   as the report has it: proc PID, sig PID, exit PID, obj M:N,
           link M:N NAME or copy NAME
`speculate help instructions` prints the instructions of scripts. A word that
begins with # begins a comment, up to the end of its line.

Status: 0 done; 1 a fault in the file; 2 a fault in the words;
3 want of memory, a read or write that failed, or a desk that
could not be closed; 4 an event was refused, of `play --strict`.";

/// The sections and the texts of `play`.
pub const PLAY_FORMS: &str =
    "Below the declarations of FILE stands the line `steps`, and then an event per line:
  step PID INPUT        the process takes a step
  guess PID INPUT       the process takes a step on a guessed input
  commit G              the guess was right
  fail G                the guess was wrong
or the line `world`, and then an event of desk and server per line:
  turn PID              the desk takes a turn of the process
  serve                 the server answers the next request
  reply                 the desk is given the next reply
  edit NAME V LIT       another client writes a file of the server
An answer is the number of its event and a word, as `3 guess 1`, or `refused`,
with a number and a name. With --explain there stand below it
  line L ..             the line of its event
  at P line L ..        the place of its process before it, and the line there
`speculate help` tells the declarations, the words of events and the statuses.";

/// The lines of `talk`.
pub const TALK_FORMS: &str =
    "FILE ends behind its declarations, or with the line `world`. Each line of standard
input is then answered at once. An event, as of `play`, by `event` and its answer:
  step, guess, commit, fail; in a world turn, serve, reply, edit
and what is asked:
  value ENTITY          what the entity has, or that it is absent
  tags ENTITY           the undecided guesses that it rests on
  dependents G          the entities that rest on the guess
  terminal T            what the terminal has released, and how many texts wait
  released T            what it has released that was not handed out before
  counts                how many guesses, steps and notes there are
  trace                 what happened so far
  report                the report
  epoch                 a new epoch: the trace and the texts so far are let go
  lease PID N           up to N instructions of the process alone, at once
  help                  these lines
`end` or `quit` ends the talk. What is wrong with a line is told by
`speculate: line` and its number; standard error has where, and why.
`speculate help` tells the declarations, and the words of these lines.";

/// The section of `plain` and `replay`.
pub const TRACE_FORMS: &str =
    "Below the declarations of FILE stands the line `trace`, and then what happened:
  step PID INPUT        the process took a step
  guess G PID INPUT     the process took a step on a guessed input
  commit G              the guess was right
  fail G                the guess was wrong
`play --trace` prints such a section behind its report.
`speculate help` tells the declarations, the words of these lines and the statuses.";

/// What `work` does with a file.
pub const WORK_FORMS: &str =
    "FILE may have any section, of which no line is run. Worker K, from 0 on, has the
boot processes whose place among all, by rising number, is K modulo N. Behind the
report stands `workers N calls M`: how many they are, and how often they called.
`speculate help` tells the declarations and the statuses.";
