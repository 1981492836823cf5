//! What `--help` says. The commands go by the name of `rhkeys`, by which most users call them.

/// The program, in a line.
pub const PROGRAM: &str =
    "Checks lists of numbers, makes key files of them and texts of key files, and splits lists";

/// The program, on `rhpack --help` alone.
pub const PROGRAM_AT_LENGTH: &str = "\
Tells the bad lines of lists of numbers, turns texts of numbers into key files for rhset and key
files and snapshots into texts, and splits a list of any length into key files of parts of it.
`rhpack COMMAND --help` says what a command reads and writes. The commands are called as those of
`rhkeys` too: `rhkeys pack FILE`.";

/// What the program's exit status says.
pub const STATUSES: &str = "\
Exit status:
  0  done
  1  the input was refused
  2  the command line was refused
  3  out of memory
  4  the output could not be written
  141  nobody reads any more what is written";

/// The command `check`, in a line.
pub const CHECK: &str = "Tells every bad line of lists, and what their numbers are";

/// The command `check`, on `rhkeys check --help` alone.
pub const CHECK_AT_LENGTH: &str = "\
Reads lists of numbers to their ends, whatever stands in them, and writes for each in turn its bad
lines, and how many numbers the good ones say, how many different ones, the least and the greatest.

Example:
  rhkeys check spring.txt ids.csv";

/// The argument FILE of the command `check`.
pub const CHECK_FILES: &str = "Texts of numbers or key files; - or none: standard input";

/// What `check` reads and writes.
pub const CHECK_FORMATS: &str = "\
A FILE is a text of numbers, or a key file of either version, as `rhkeys union` reads it: see
`rhkeys union --help`. Of a text each bad line is told with its number and its first 40 bytes, up to
20 of them, and then how many more there are:
  ids.csv: line 1: not a number from 0 to 4611686018427387902: \"customer_id\"
  ids.csv: 17 more bad lines
  ids.csv: 100 numbers, 90 different, from 3 to 77

A list that cannot be read, or a key file that is refused, is told on standard error, and those
behind it are checked all the same. The exit status is 1 where any list has a bad line or is told
so. One list at a time is held in memory: at most 24 bytes for each of its numbers, and 8 MB for
each worker, of which there are as many as processors.";

/// The command `pack`, in a line.
pub const PACK: &str = "Writes the key file of the numbers of a text";

/// The command `pack`, on `rhkeys pack --help` alone.
pub const PACK_AT_LENGTH: &str = "\
Reads a text of numbers, and writes the key file of these, in their order and with their repeats, to
standard output.";

/// The argument FILE of a command that reads one list.
pub const FILE: &str = "The list; - or none: standard input";

/// What `pack` reads and writes.
pub const PACK_FORMATS: &str = "\
A line of the text is a number from 0 to 4611686018427387902 in decimal digits, with spaces and tabs
before and after it. A line with no more than these is skipped, and so is one that begins with #. A
byte order mark at the head is passed by. There are at most 1000000 numbers.

A key file is the bytes RHK2, the number of keys, and the keys one after another. The number and
each key are 8 bytes, the highest byte first. Nothing is written where the text is refused.

Example, of the numbers 17, 1 and 9:
  printf '17\\n1\\n9\\n' | rhkeys pack > three.keys
  rhkeys pack spring.txt > spring.keys";

/// The command `list`, in a line.
pub const LIST: &str = "Writes the keys of a key file or a snapshot, one a line";

/// The command `list`, on `rhkeys list --help` alone.
pub const LIST_AT_LENGTH: &str = "\
Reads key files, or standard input where none is named, and writes their keys to standard output,
one a line, in decimal digits and in their order: those of each file after those of the one
before.";

/// The argument FILE.
pub const FILES: &str = "Key files, or snapshots; - or none: standard input";

/// The flag `--snapshot`.
pub const SNAPSHOT: &str = "Read snapshots, and write the keys of each in rising order";

/// What `list` reads and writes.
pub const LIST_FORMATS: &str = "\
Key files of both versions are read, of any number of keys; 8 bytes are held for each key of the
file that is listed. `rhset run` with the command `snapshot` makes snapshots. Nothing is written of
a file that is refused, which is told by its name: what stands before it was written, and what comes
after it is not read. What was listed of at most 1000000 keys is packed to the same keys.

Examples:
  rhkeys list < three.keys
  rhkeys list --snapshot 000/both.rhs2 001/both.rhs2";

/// The command `split`, in a line.
pub const SPLIT: &str = "Splits a text of numbers of any length into key files of parts of it";

/// The command `split`, on `rhkeys split --help` alone.
pub const SPLIT_AT_LENGTH: &str = "\
Reads a text of numbers of any length, once, and gives each key to one of N parts, by a hash of the
key: so the parts are about equally large, whatever the numbers are. The key file of part 7 is
007/NAME.keys below the current folder; folders that are not there are made. What stood there before
is replaced.";

/// The argument `--parts`.
pub const PARTS: &str =
    "Number of parts, up to 1000; where it is 0, the size of the input says how many there are";

/// The flag `--key-file`.
pub const KEY_FILE: &str = "Read a key file of at most 1000000 keys in place of a text";

/// The flag `--plan`.
pub const PLAN: &str =
    "Write how many keys each part would have, and how many parts would do, and no file";

/// The argument NAME.
pub const NAME: &str = "Name of the list: 1 to 200 bytes of printable ASCII, no space or `/`";

/// What `split` reads and writes.
pub const SPLIT_FORMATS: &str = "\
The keys of a part keep their order. What a script makes of the parts of its lists, part by part,
are the parts of what it makes of the lists: `rhkeys list --snapshot` of the parts' snapshots gives
all of its keys, in the order of the parts, and `sort -n` puts them in rising order. Lists that
belong together are split into the same number of parts.

A part has at most 1000000 keys, and a script makes no table for more than 196608. For `--plan` a
part may have more: after `keys` it tells how many keys there are, and after `parts` into how many
parts they go so that each has about 150000. Without `--parts` there are as many for the size of
the input: one for each 1050000 bytes of a text, or 1200000 of a key file. That takes a file; of a
pipe the size is not known.

The files are written beside their places and put there once all are whole; on a fault none of them
is left. A run that is killed or interrupted has to be run again before the parts are used. Each part
has an open file meanwhile: see `ulimit -n`.

Examples:
  rhkeys split --plan --parts 2 spring spring.txt
  rhkeys split --parts 32 spring < spring.txt";
