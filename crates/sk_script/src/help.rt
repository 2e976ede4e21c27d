//! The instructions of scripts, told to people.

/// The instructions of scripts.
pub const INSTRUCTIONS_TABLE: &str =
    "A script is an instruction per line, or a label with : behind it, alone on its
line. A process has the registers r0 to r7, of which r7 holds the root directory
at first, and a buffer of at most 512 bytes. Below rA, rB and the like are
registers, L is a label, N a number; LIT and NAME are as `speculate help` tells.

Of the process alone:
  set rA N          rA = N, a number of 64 bits with sign
  move rA rB        rA = rB
  add rA rB         rA = the sum of both
  text LIT          the buffer is the literal
  len rA            rA = the length of the buffer
  self rA           rA = the process itself
  boot rA N         rA = the boot process N
  jump L            goes on at the label
  zero rA L         goes on at the label where rA is 0
  neg rA L          goes on at the label where rA is below 0
  handler L         signals are handled at the label, each in r6
  return            goes on where the handled signal came
  say               the buffer goes to the terminal
Of files, directories and pipes:
  mkfile rA         rA = a new empty file
  mkdir rA          rA = a new empty directory
  mkpipe rA         rA = a new empty pipe
  look rA rD NAME   rA = what has this name in the directory
  link rD NAME rA   gives the object this name in the directory; r0 = 0
  unlink rD NAME    takes the name from the directory; r0 = 0
  size rF           r0 = the number of the file's bytes
  write rF rO       the buffer stands at place rO of the file; r0 = its length
  read rF rO        the buffer is up to 512 bytes from rO on; r0 = their number
  cut rF rN         the file has rN bytes; r0 = 0
  put rP            the buffer goes to the pipe's end; r0 = its length
  take rP rN        the buffer is the pipe's first bytes, at most rN, which go;
                    r0 = their number
  shut rP           nothing more can be put; r0 = 0
Of processes:
  fork rA L         rA = a new child, which begins at the label
  wait rA rB        rA = the status of the child rB, once it has ended
  kill rW rN        the signal rN, 1 to 31, goes to the process rW; r0 = 0
  exit rA           ends with the status rA, 0 to 255
Of files of the server, which want a reply:
  fetch NAME        the buffer is the file; r0 = its version
  store NAME        the file becomes the buffer; r0 = its version

An error e puts -e into r0, and changes nothing else but the place:
  2 no such name       17 the name is there    27 the file grows too long
  3 no such process    20 not a directory      28 too many objects
  9 no such object     21 a directory          32 the pipe is shut
  10 not a child       22 not what is wanted   116 another client wrote first
  11 too many, or too deep";
