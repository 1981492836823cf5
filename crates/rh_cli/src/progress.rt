//! How far work is, as a line on a terminal that is gone at the end.

ghost use Rattle.std.specs.Prelude.{◌≡◌, ◌+◌, ◌++◌, ◌-◌, ◌^◌, None, Some, false, min, option_map, true};
ghost use Rattle.rh_bytes.specs.Counting.{failures_of, inner_of, joined};
ghost use Rattle.rh_cli.specs.Progress.{IsSilent, Tells, Went, before, millions, stands};
ghost use Rattle.rh_cli.specs.Progress.{cut_text, done_text, front_text, line_at, of_text, read_so_far};
ghost use Rattle.rh_cli.specs.Progress.{read_text, terminal, told_total};

use itoa::Buffer;
use rh_bytes::{Counted, Progress, write_text, write_texts};
use std::io::Write;
use std::time::{Clock, Duration, Instant};

/// The line is not shown before so many milliseconds.
const FIRST_AFTER: u64 = 1_000;

/// And not more often than after so many.
const BETWEEN: u64 = 100;

const MEGABYTE: u64 = 1_000_000;

/// Takes the line away: the cursor, which rests below it, goes up to its head, and clears it.
const TAKEN_AWAY: &[u8] = b"\r\x1b[A\x1b[K";

/// A line on a terminal that tells how far work is. The cursor rests below it, so that what an
/// interrupt or another program writes there has a line of its own.
#[derive(Drop)]
pub struct ProgressLine<'a, R, W> {
    rt: &'a R,
    terminal: Counted<W>,
    /// When the line may be shown next, where it may be shown at all.
    next: Option<Instant>,
    stands: bool,
    read: u64,
    /// How many bytes are to be read, where that is known.
    total: Option<u64>,
    /// The line of the script that has them read, where it is one.
    at: Option<u64>,
}

impl<'a, R: Clock, W: Write> ProgressLine<'a, R, W> {
    /// No line yet. It is shown only where the writer is a terminal.
    pub fn new(rt: &'a R, writer: W, is_terminal: bool) -> ProgressLine<'a, R, W>
        ensures away { stands result ≡ false }
        ensures writer { inner_of (terminal result) ≡ writer }
        ensures read { read_so_far result ≡ 0 }
        ensures at { line_at result ≡ None }
    {
        let next = if is_terminal { first_time(rt) } else { None };
        ProgressLine {
            rt,
            terminal: Counted::new(writer),
            next,
            stands: false,
            read: 0,
            total: None,
            at: None,
        }
    }

    /// Whether the line may be shown at all.
    pub fn may_show(&self) -> bool {
        self.next.is_some()
    }

    /// So many bytes are to be read, where that is known.
    pub fn expect(&mut self, total: Option<u64>)
        ensures total { told_total self.new ≡ option_map millions total }
        ensures silent { IsSilent self.old self.new }
        ensures read { read_so_far self.new ≡ read_so_far self.old }
        ensures at { line_at self.new ≡ line_at self.old }
    {
        self.total = total;
    }

    /// What is read from now on the line of a script of this number has read.
    pub fn begin(&mut self, line: u64)
        ensures at { line_at self.new ≡ Some line }
        ensures silent { IsSilent self.old self.new }
        ensures read { read_so_far self.new ≡ read_so_far self.old }
        ensures total { told_total self.new ≡ told_total self.old }
    {
        self.at = Some(line);
    }

    /// Whether it is time to show the line anew.
    fn is_due(&mut self) -> bool
        ensures silent { IsSilent self.old self.new }
        ensures read { self.new.read ≡ self.old.read }
        ensures total { self.new.total ≡ self.old.total }
        ensures at { self.new.at ≡ self.old.at }
    {
        let Some(next) = self.next else {
            return false;
        };
        let Ok(now) = Instant::now(self.rt) else {
            return false;
        };
        if now < next {
            return false;
        }
        self.next = now.checked_add(Duration::from_millis(BETWEEN));
        true
    }

    /// Whether the line is to tell of the next stage: at once where one stands that tells of another.
    fn is_next(&mut self) -> bool
        ensures { IsSilent self.old self.new }
    {
        let stands = self.stands;
        let is_due = self.is_due();
        stands || is_due
    }

    /// What has to be written before the line says something else.
    fn before(&self) -> &'static [u8]
        ensures { result.now ≡ before self.now }
    {
        if self.stands { TAKEN_AWAY } else { b"" }
    }

    /// Writes these texts, of which the first takes away the line that stands.
    fn show(&mut self, texts: &[&[u8]])
        ensures stands { stands self.new ≡ true }
        ensures went { Went W.contents (terminal self.old) (terminal self.new) (joined texts.now) }
        ensures read { self.new.read ≡ self.old.read }
        ensures total { self.new.total ≡ self.old.total }
        ensures at { self.new.at ≡ self.old.at }
    {
        let _ = write_texts(&mut self.terminal, texts);
        self.stands = true;
    }
}

/// What comes before how much was read: which line of a script has it read, where one has.
fn front(buffer: &mut Buffer, line: Option<u64>) -> (&[u8], &[u8], &[u8])
    ensures { result.0.now ++ (result.1.now ++ result.2.now) ≡ front_text line }
{
    match line {
        Some(line) => (b"line ", buffer.format(line).as_bytes(), b": "),
        None => (b"", b"", b""),
    }
}

/// What comes behind it: of how much, where that is known.
fn behind(buffer: &mut Buffer, total: Option<u64>) -> (&[u8], &[u8])
    ensures { result.0.now ++ result.1.now ≡ of_text (option_map millions total) }
{
    match total {
        Some(total) => (b" of ", buffer.format(total / MEGABYTE).as_bytes()),
        None => (b"", b""),
    }
}

/// When the line may be shown first.
fn first_time(rt: &impl Clock) -> Option<Instant> {
    let Ok(now) = Instant::now(rt) else {
        return None;
    };
    now.checked_add(Duration::from_millis(FIRST_AFTER))
}

impl<R: Clock, W: Write> Progress for ProgressLine<'_, R, W> {
    ghost stands = { λ line. stands line };

    fn read(&mut self, bytes: usize)
        ensures read { read_so_far self.new ≡ min (read_so_far self.old + bytes) (2 ^ 64 - 1) }
        ensures tells { Tells W.contents self.old self.new (front_text (line_at self.new)
            ++ read_text (millions (read_so_far self.new)) (told_total self.new)) }
        ensures at { line_at self.new ≡ line_at self.old }
    {
        self.read = self.read.saturating_add(bytes as u64);
        if !self.is_due() {
            return;
        }
        let before = self.before();
        let (mut line, mut read) = (Buffer::new(), Buffer::new());
        let (name, line, colon) = front(&mut line, self.at);
        let read = read.format(self.read / MEGABYTE).as_bytes();
        let mut total = Buffer::new();
        let (of, total) = behind(&mut total, self.total);
        self.show(&[
            before, name, line, colon, b"read ", read, of, total, b" MB\n",
        ]);
    }

    fn cut(&mut self)
        ensures { Tells W.contents self.old self.new cut_text }
    {
        if !self.is_next() {
            return;
        }
        let before = self.before();
        self.show(&[before, b"cutting the lists into parts\n"]);
    }

    fn done(&mut self, parts: usize, of: usize)
        ensures { Tells W.contents self.old self.new (done_text parts of) }
    {
        if !self.is_due() {
            return;
        }
        let before = self.before();
        let (mut done, mut all) = (Buffer::new(), Buffer::new());
        let done = done.format(parts).as_bytes();
        let all = all.format(of).as_bytes();
        self.show(&[before, done, b" of ", all, b" parts\n"]);
    }

    fn clear(&mut self)
        ensures away { stands self.new ≡ false }
        ensures went { Went W.contents (terminal self.old) (terminal self.new) (before self.old) }
    {
        let before = self.before();
        let _ = write_text(&mut self.terminal, before);
        self.stands = false;
    }
}
