//! The numbers of answers, as the header for C has them.

/// The step is taken.
pub const STEPPED: u32 = 0;
/// The step is taken on a guess, whose number is told.
pub const GUESSED: u32 = 1;
/// The guess is decided.
pub const DONE: u32 = 2;
/// Another guess's failure had struck it: nothing was left to decide.
pub const GONE: u32 = 3;
/// The guess was never drawn, or is decided.
pub const NO_TOKEN: u32 = 4;
/// Refused, with the number of the refusal.
pub const REFUSED: u32 = 5;
/// The line is not of the section, with the number of its fault; of a text its first faulty line.
pub const FAULT: u32 = 6;
/// Want of memory.
pub const MEMORY: u32 = 7;
/// The line says nothing.
pub const NOTHING: u32 = 8;
/// The handle holds what the text declares.
pub const OPENED: u32 = 9;
/// What was asked for is written.
pub const SHOWN: u32 = 10;
/// No entity that is present has this name.
pub const ABSENT: u32 = 11;
/// The process waits for the reply to the request whose number is told.
pub const ASKED: u32 = 12;
/// The server found the copy good.
pub const YES: u32 = 13;
/// The server found the copy stale, and sent its own version.
pub const NO: u32 = 14;
/// The server sent this version.
pub const COPY: u32 = 15;
/// The server took note that a request was forgotten.
pub const DROPPED: u32 = 16;
/// The reply committed this guess.
pub const COMMITTED: u32 = 17;
/// The reply failed this guess.
pub const FAILED: u32 = 18;
/// The reply is there for the request of this number.
pub const TAKEN: u32 = 19;
/// The reply is of a request that was forgotten.
pub const FORGOTTEN: u32 = 20;
/// The file has this version now.
pub const EDITED: u32 = 21;
/// No request is to be served, or no reply to be given.
pub const IDLE: u32 = 22;
/// The file has another version than the edit expects, or the last one.
pub const OTHER_VERSION: u32 = 23;
/// The handle holds something, and it is left as it was.
pub const HELD: u32 = 24;
/// The handle holds nothing.
pub const CLOSED: u32 = 25;
/// The step that is being written has it.
pub const WRITTEN: u32 = 26;
