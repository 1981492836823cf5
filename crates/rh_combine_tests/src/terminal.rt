//! What is told of progress and what is written, where both come to one terminal.

ghost use Rattle.std.specs.Prelude.{None, false};

use rh_bytes::{Counted, Progress};
use rh_combine::{Form, How};
use rh_forks::{Team, Workers};
use rh_list_commands::{Job, combine_files};
use rh_shelf::MemShelf;
use std::cell::Cell;
use std::io::{self, Write};
use std::test::*;

// Whether a line of progress stands there, how often one was told, how many writes came, and how
// many of these while one stood.
#[derive(Drop)]
struct Terminal {
    stands: Cell<bool>,
    told: Cell<usize>,
    writes: Cell<usize>,
    spoiled: Cell<usize>,
}

#[derive(Drop)]
struct Line<'a> {
    terminal: &'a Terminal,
}

impl Line<'_> {
    fn tell(&mut self) {
        self.terminal.stands.set(true);
        self.terminal
            .told
            .set(self.terminal.told.get().saturating_add(1));
    }
}

impl Progress for Line<'_> {
    // (a cell tells contracts nothing)
    ghost stands = { λ _. false };

    fn read(&mut self, _bytes: usize) {
        self.tell();
    }

    fn cut(&mut self) {
        self.tell();
    }

    fn done(&mut self, _parts: usize, _of: usize) {
        self.tell();
    }

    fn clear(&mut self) {
        self.terminal.stands.set(false);
    }
}

#[derive(Drop)]
struct Screen<'a> {
    terminal: &'a Terminal,
}

impl Write for Screen<'_> {
    ghost contents = { λ _. None };

    fn write(&mut self, buf: &[u8]) -> io::Result<usize> {
        let terminal = self.terminal;
        terminal.writes.set(terminal.writes.get().saturating_add(1));
        if terminal.stands.get() {
            terminal
                .spoiled
                .set(terminal.spoiled.get().saturating_add(1));
        }
        Ok(buf.len())
    }

    fn flush(&mut self) -> io::Result<()> {
        Ok(())
    }
}

// So many numbers make one worker write them in two rounds.
const LINES: usize = 300_000;

#[test]
fn no_number_is_written_where_a_line_stands(rt: HostRuntime) -> Result<(), Fail> {
    let mut text = String::new(rt.alloc());
    for number in 0..LINES {
        write!(text, "{number}\n")?;
    }
    let paths = vec![in rt.alloc(); String::from_str(rt.alloc(), "-")?]?;
    for form in [Form::Lines, Form::Count, Form::Packed] {
        let terminal = Terminal {
            stands: Cell::new(false),
            told: Cell::new(0),
            writes: Cell::new(0),
            spoiled: Cell::new(0),
        };
        let team = Team {
            rt: &rt,
            alloc: rt.alloc(),
            workers: Workers { count: 1 },
        };
        let job = Job {
            form,
            paths: &paths,
            skip: 0,
        };
        let mut shelf = MemShelf::new(rt.alloc());
        let mut input = Counted::new(text.as_bytes());
        let mut writer = Counted::new(Screen {
            terminal: &terminal,
        });
        let mut line = Line {
            terminal: &terminal,
        };
        let how = How::Union;
        let outcome = combine_files(
            &team,
            &how,
            &job,
            &mut shelf,
            &mut input,
            &mut writer,
            &mut line,
        );
        assert_eq!(rt; outcome, Ok(()));
        assert!(rt; terminal.told.get() > 3, "{form:?}");
        assert!(rt; terminal.writes.get() >= 2, "{form:?}");
        assert_eq!(rt; terminal.spoiled.get(), 0, "{form:?}");
    }
    Ok(())
}
