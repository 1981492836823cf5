//! What `--help` says.

/// The program, in a line.
pub const PROGRAM: &str = "Lets workers take turns on the table of rhset, step by step";

/// The program, on `rhplay --help` alone.
pub const PROGRAM_AT_LENGTH: &str = "\
Lets several workers change one table of rhset a step at a time, in an order that is given, and
tells or draws what comes of it. `rhplay COMMAND --help` says what a command reads and writes. The
commands are called as those of `rhset` too: `rhset play FILE`.";

/// What the program's exit status says.
pub const STATUSES: &str = "\
Exit status:
  0  done
  1  the input was refused
  2  the command line was refused
  3  out of memory
  4  the output could not be written";

/// The command `play`, in a line.
pub const PLAY: &str = "Lets workers take turns on one table, step by step";

/// The command `play`, on `rhplay play --help` alone.
pub const PLAY_AT_LENGTH: &str = "\
Reads a play, which says what several workers are to do on one table and in which order they take
their steps, has them take these steps, and writes what came of it to standard output.";

/// The argument `FILE`.
pub const FILE: &str = "The file that holds the play";

/// What `play` reads and writes.
pub const PLAYS: &str = "\
A play is a text of lines. A line that begins with # or has no word is skipped. The first lines say
what there is, in this order:
  play KIND      the workers insert, remove or ask: KIND is one of these words
  bits B         the table has 2 to the power of B cells, for B from 3 to 18
  held KEY ..    the keys that the table holds at first, or none
  rooms D M      a worker has D descriptors and M marks in a round; may be left out
  work KEY ..    the keys of a worker, or none: a line for each of 1 to 16 workers, from worker 0 on
  share W KEY .. the keys that W workers share, in place of all lines `work`

Then comes any number of these, in any order:
  turn W N       N turns of worker W: in each it makes a step, if it has one left
  until W STEP   turns of worker W until one is such a step: write, open, read, place, settle,
                 decide, release or claim
  rest           a turn of each worker, again and again, until none has a step left
  round          a new round, in which rooms are free again; only where no worker has a step left
  show           tell what stands in each cell that is not empty

`turn` and `until` are told with what the last turn was: its step, or `finished` where the worker
has done its keys, `spent` where it has no room left, `none` where there is no such worker, `limit`
where 1000000 turns were no such step. `rest` and `round` are told with how they ended. A line of
`show` is `raw CELL key KEY`, `raw CELL mark W N` or `raw CELL desc W N`, for the mark or the
descriptor N of worker W.

At the end come the table of what the cells stand for, as `rhset dump` writes it, the line
`read R added A removed D found F`, and `finished` or `unfinished`.

Example of a play:
  play insert
  bits 3
  held
  work 9
  work 1
  until 0 place
  show
  rest";

/// The command `trace`, in a line.
pub const TRACE: &str = "Plays, and tells each step";

/// The command `trace`, on `rhplay trace --help` alone.
pub const TRACE_AT_LENGTH: &str = "\
Reads a play, has its workers take the steps that it says, as `rhplay play` does, and writes to
standard output a line for each step, before the line of `rhplay play` in which it was made.";

/// What `trace` reads and writes.
pub const TRACES: &str = "\
`rhplay play --help` says what a play is. A step is told by the line
  STEP WORKER KIND PART found WORD
and ` now WORD` at its end where it changed the word. STEP counts from 1, WORKER from 0. KIND is
write, open, read, place, settle, decide, release or claim. PART is the word that it touched:
  cell C                      a cell of the table
  control W                   how the descriptor of worker W is decided
  serial W, length W          the number of that descriptor, and of its entries
  entry W E cell, old or new  of its entry E the cell, the old and the new word
  mark W serial, desc, entry  the number of a mark of worker W, its descriptor and its entry
  reason W O                  the reason of worker W to worker O: where its descriptor failed
  counter                     how many keys of a shared list were claimed

A WORD is `empty`, `key K`, `mark W N` or `desc W N` in a cell and in an entry; `N unused`,
`N undecided`, `N succeeded`, `N withdrawn` or `N failed D`, by worker D, in a control; `desc W N`
as the descriptor of a mark; else a number. `rhplay play` writes the same lines without those of
steps.

Example, of a play in which worker 0 adds the key 9 to an empty table of 8 cells; its first step:
  1 0 read cell 4 found empty";

/// The command `draw`, in a line.
pub const DRAW: &str = "Plays, and draws the steps";

/// The command `draw`, on `rhplay draw --help` alone.
pub const DRAW_AT_LENGTH: &str = "\
Reads a play, has its workers take the steps that it says, as `rhplay play` does, and writes a
picture of them to standard output, an SVG that a browser shows.";

/// The argument `--from`.
pub const FROM: &str = "The number of the first step that is drawn: a step that the play has";

/// The argument `--steps`.
pub const STEPS: &str = "\
How many steps are drawn, up to 2000; 0 for all from the first one on, if they are no more than \
2000";

/// What `draw` reads and writes.
pub const DRAWINGS: &str = "\
`rhplay play --help` says what a play is, `rhplay trace --help` what a step is. The title says what
the workers are to do, with the keys of each, and below it stands what each sign means. Time goes
down. Each worker has a lane with a mark for each of its steps, which tells the step's line where
the pointer rests on it, and a line to the lane of the worker whose descriptor it is about. Each
cell that changes has a column, which shows what stands there and, in italics, what the cell stands
for. A line across all of them is an act: the moment at which a descriptor succeeds, with the cells
that change.

Example:
  rhplay draw examples/helping.play > helping.svg";
