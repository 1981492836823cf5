//! What `--help` says.

/// What is said of a command on lists.
pub struct Texts {
    /// In a line.
    pub about: &'static str,
    /// On the command's `--help` alone.
    pub at_length: &'static str,
}

/// The program, in a line.
pub const PROGRAM: &str = "Intersects, unites and subtracts lists of numbers of any length";

/// The program, on `rhkeys --help` alone.
pub const PROGRAM_AT_LENGTH: &str = "\
Makes one list of several lists of numbers, of any length: what stands in all of them, in any, in
the first alone, in an odd number of them, in at least so many, or in those of which an expression
is true. `rhkeys COMMAND --help` says what a command reads and writes.

`rhkeys check`, `rhkeys pack`, `rhkeys list` and `rhkeys split` are the commands of `rhpack`, which
checks lists, makes key files for rhset and texts of them, and splits long lists: see
`rhpack --help`.";

/// What the program's exit status says.
pub const STATUSES: &str = "\
Exit status:
  0  done
  1  the input was refused
  2  the command line was refused
  3  out of memory
  4  the output could not be written
  141  nobody reads any more what is written";

/// The command `intersect`.
pub const INTERSECT: Texts = Texts {
    about: "Writes the numbers that stand in every list",
    at_length: "\
Reads lists of numbers, and writes those that stand in every list, each once and in rising order,
one a line.

Example:
  rhkeys intersect spring.txt summer.txt > both.txt",
};

/// The command `union`.
pub const UNION: Texts = Texts {
    about: "Writes the numbers that stand in any of the lists",
    at_length: "\
Reads lists of numbers, and writes those that stand in any of them, each once and in rising order,
one a line. Of one list it writes its numbers, sorted and each once.

Example:
  rhkeys union spring.txt summer.txt > all.txt",
};

/// The command `subtract`.
pub const SUBTRACT: Texts = Texts {
    about: "Writes the numbers of the first list that stand in no other one",
    at_length: "\
Reads lists of numbers, and writes those of the first list that stand in no other one, each once and
in rising order, one a line.

Example:
  rhkeys subtract spring.txt summer.txt > spring-alone.txt",
};

/// The command `xor`.
pub const XOR: Texts = Texts {
    about: "Writes the numbers that stand in an odd number of the lists",
    at_length: "\
Reads lists of numbers, and writes those that stand in an odd number of the lists, each once and in
rising order, one a line: of two lists what stands in one of them alone.

Example:
  rhkeys xor spring.txt summer.txt > changed.txt",
};

/// The command `atleast`.
pub const ATLEAST: Texts = Texts {
    about: "Writes the numbers that stand in at least K of the lists",
    at_length: "\
Reads lists of numbers, at most 64, and writes those that stand in at least K of them, each once and
in rising order, one a line. A number that stands in one list several times stands in that one.

Example:
  rhkeys atleast 2 spring.txt summer.txt autumn.txt > again.txt",
};

/// The command `select`.
pub const SELECT: Texts = Texts {
    about: "Writes the numbers of which an expression of named lists is true",
    at_length: "\
Reads lists of numbers, at most 64, each with a name, and writes those numbers of which EXPRESSION
is true, each once and in rising order, one a line. A name is true of the numbers of its list.

  A & B   what stands in both
  A | B   what stands in one of them, or in both
  A - B   what stands in the first, and not in the second
  A ^ B   what stands in one of them, and not in both
  ( A )   what stands between the parentheses, first

`&` binds closest. The others bind alike, and are read from left to right: `a | b - c & d` is
`(a | b) - (c & d)`. A shell needs quotes round it. A name is of letters, digits and `_`; each has
to stand in EXPRESSION, which has at most 4096 bytes. A number that stands in no list is never
written.

Example:
  rhkeys select '(a & b) - c' a=spring.txt b=summer.txt c=returned.txt > kept.txt",
};

/// The argument K of `atleast`.
pub const LEAST: &str = "In how many lists a number stands: from 1 to the number of FILEs";

/// The argument EXPRESSION of `select`.
pub const EXPRESSION: &str = "What is true of the numbers that are written, by the names of lists";

/// The argument `--workers`.
pub const WORKERS: &str =
    "Number of workers, 1 to 64; 0: as many as processors. It changes nothing that is written";

/// The flag `--count`.
pub const COUNT: &str = "Write how many numbers that are, and not the numbers";

/// The flag `--packed`.
pub const PACKED: &str = "Write a key file, and not a text";

/// The argument FILE of a command on lists.
pub const LIST_FILES: &str = "Texts of numbers or key files; - is standard input";

/// The argument NAME=FILE of `select`.
pub const NAMED_FILES: &str =
    "The name of a list, and its file: a text of numbers or a key file; - is standard input";

/// What the commands on lists read.
pub const LISTS: &str = "\
A FILE is a text of numbers, or a key file of either version, which its first four bytes tell. A
line of a text is a number from 0 to 4611686018427387902 in decimal digits, with spaces and tabs
before and after it. A line with no more than these is skipped, and so is one that begins with #.
Numbers may come in any order and any number of times. A line may end with CR LF; the last may lack
its LF. A byte order mark at the head is passed by.

One FILE alone is taken by `union`, which sorts it, by `atleast` and by `select`.

Nothing is written where a list is refused: the first one that is is told, with its first bad line.
The lists are held in memory: at most 24 bytes for each number of all lists, 32 MB, and 8 MB for
each worker. Larger ones are split first: see `rhkeys split --help`. On a terminal, work of more
than a second tells how far it is, on a line that is gone before a number is written.";
