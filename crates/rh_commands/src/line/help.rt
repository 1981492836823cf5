//! What `--help` says.

/// The program, in a line.
pub const PROGRAM: &str = "Keeps a set of whole numbers in one Robin Hood hash table";

/// The program, on `rhset --help` alone.
pub const PROGRAM_AT_LENGTH: &str = "\
Keeps a set of whole numbers in one Robin Hood hash table: of two keys that want a cell, the one
farther from its home gets it. `rhset COMMAND --help` says what a command reads and writes.

`rhset play`, `rhset trace` and `rhset draw` are the commands of `rhplay`, which let several workers
change such a table step by step: see `rhplay --help`.";

/// What the program's exit status says.
pub const STATUSES: &str = "\
Exit status:
  0  done
  1  the input was refused
  2  the command line was refused
  3  out of memory, or a thread could not be started
  4  the output or a snapshot could not be written";

/// The command `dump`, in a line.
pub const DUMP: &str = "Writes the table of the keys of a key file";

/// The command `dump`, on `rhset dump --help` alone.
pub const DUMP_AT_LENGTH: &str = "\
Reads a key file from standard input, adds its keys to an empty table, and writes the table to
standard output.";

/// What `dump` reads and writes.
pub const DUMP_FORMATS: &str = "\
A key file is the bytes RHK2, the number of keys, and the keys one after another. The number and
each key are 8 bytes, the highest byte first. A file that begins with RHK1 is read too: it has no
key 0.

The table is written as a line `table BITS COUNT`, for COUNT keys in 2 to the power of BITS cells,
a line `CELL KEY DISTANCE` for each cell that holds a key, and the line `end`. The distance is the
number of cells from the key's home, where the search for it begins.

Example, of the key 9 alone:
  printf 'RHK2\\0\\0\\0\\0\\0\\0\\0\\001\\0\\0\\0\\0\\0\\0\\0\\011' | rhset dump";

/// The command `run`, in a line.
pub const RUN: &str = "Carries out a script";

/// The command `run`, on `rhset run --help` alone.
pub const RUN_AT_LENGTH: &str = "\
Reads a script, carries out its commands one after another on one table, which is empty at first,
and writes a report of each to standard output. Every byte of it, and of each snapshot, is the same
for any number of workers, which change the table at once, each in a thread. With more than one a
command needs more memory, up to 12 MB for each worker, and the run ends with status 3 where a
thread cannot be started.";

/// The argument `--workers`.
pub const WORKERS: &str = "\
How many workers share the keys of each command, from 1 to 16; what is written is the same";

/// The argument `SCRIPT`.
pub const SCRIPT: &str = "The file that holds the script";

/// What a script is.
pub const SCRIPTS: &str = "\
A script is a text with one command on a line. A line that begins with # or has no word is skipped.
  use NAME PATH  call the list of keys of the key file PATH by NAME
  add NAME       add the keys of the list
  drop NAME      remove the keys of the list
  ask NAME       tell of each key of the list whether the table holds it
  keep NAME      remove the keys that the list does not have
  flip NAME      remove the keys of the list that the table holds, and add its others
  save NAME      call the list of keys of the table by NAME
  clear          remove all keys
  dump           write the table, as `rhset dump` does
  snapshot PATH  keep the table in the file PATH, sealed
  restore PATH   take the table of the snapshot PATH

A NAME is a small letter and up to 15 more small letters or digits. `use` and `save` give a name
once, and the commands after them take it. No PATH of a `snapshot` is that of an earlier `use` or
`snapshot`, and no PATH of a `use` that of an earlier `snapshot`. `rhset dump --help` says what a
key file is, `rhset check --help` what a snapshot is.

A key file has at most 1000000 keys. No command makes the table for more than 196608; one that is
restored may have up to 262143. Larger lists are split into parts, each a job of its own: see
`rhkeys split --help`.

Example of a script:
  use a three.keys
  add a
  dump";

/// The command `check`, in a line.
pub const CHECK: &str = "Tells of a snapshot what table it holds";

/// The command `check`, on `rhset check --help` alone.
pub const CHECK_AT_LENGTH: &str = "\
Reads a snapshot, tests its seal and its table, and writes a line that tells of both to standard
output.";

/// The argument `SNAPSHOT`.
pub const SNAPSHOT: &str = "The file that holds the snapshot";

/// What `check` reads and writes.
pub const CHECK_FORMATS: &str = "\
A snapshot is the bytes RHS2, one byte BITS, the number of keys, the cells of the table, 2 to the
power of BITS, and a seal. A cell is 0 where it is empty, else its key plus 1. The number and each
cell are 8 bytes, the highest byte first. The seal is the SHA-256 of all bytes before it, in 32
bytes. A file that begins with RHS1 is read too: its cells are the keys themselves, and it has no
key 0.

The line is `bits BITS held COUNT seal SEAL`, for COUNT keys, the seal in hexadecimal digits. A file
whose seal does not match, or whose cells are not a table of their keys, is refused.

Example, of the keys 1, 9 and 17:
  bits 3 held 3 seal 933c80314ceef5b1cccf877c8ebb0d07add088d534e5ac936e13d5b7e70d3bec";
