use clap::Error;
use rh_arguments::LineFault;
use rh_play_commands::{Line, line};
use std::alloc::Global;
use std::test::Fail;

fn line_of(alloc: Global, words: &[&str]) -> Result<Result<Line, LineFault>, Fail> {
    let mut all = vec![in alloc; String::from_str(alloc, "rhplay")?]?;
    for word in words {
        all.push(String::from_str(alloc, word)?)?;
    }
    Ok(line(alloc, &all))
}

// The file, of words that are `play`.
fn play_of(alloc: Global, words: &[&str]) -> Result<Option<String>, Fail> {
    Ok(match line_of(alloc, words)? {
        Ok(line) => match line {
            Line::Play { file } => Some(file),
            Line::Trace { .. } | Line::Draw { .. } => None,
        },
        Err(_fault) => None,
    })
}

// The file, of words that are `trace`.
fn trace_of(alloc: Global, words: &[&str]) -> Result<Option<String>, Fail> {
    Ok(match line_of(alloc, words)? {
        Ok(line) => match line {
            Line::Trace { file } => Some(file),
            Line::Play { .. } | Line::Draw { .. } => None,
        },
        Err(_fault) => None,
    })
}

// The first step, the number of steps and the file, of words that are `draw`.
fn draw_of(alloc: Global, words: &[&str]) -> Result<Option<(usize, usize, String)>, Fail> {
    Ok(match line_of(alloc, words)? {
        Ok(line) => match line {
            Line::Draw { from, steps, file } => Some((from, steps, file)),
            Line::Play { .. } | Line::Trace { .. } => None,
        },
        Err(_fault) => None,
    })
}

// What clap tells, of words that are no command.
fn told_of(alloc: Global, words: &[&str]) -> Result<Option<Error>, Fail> {
    Ok(match line_of(alloc, words)? {
        Ok(_line) => None,
        Err(fault) => match fault {
            LineFault::Words(error) => Some(error),
            LineFault::Memory => None,
        },
    })
}

const PLAYS: &[(&[&str], &str)] = &[
    (&["play", "f"], "f"),
    (&["play", "--", "-f"], "-f"),
    (&["play", "play"], "play"),
    (&["play", ""], ""),
];

#[test]
fn play_is_a_command(rt: HostRuntime) -> Result<(), Fail> {
    for &(words, name) in PLAYS {
        let file = play_of(rt.alloc(), words)?.ok_or("no play")?;
        assert!(rt; file.as_str() == name, "{words:?}");
    }
    Ok(())
}

const TRACES: &[(&[&str], &str)] = &[
    (&["trace", "f"], "f"),
    (&["trace", "--", "-f"], "-f"),
    (&["trace", "trace"], "trace"),
];

#[test]
fn trace_is_a_command(rt: HostRuntime) -> Result<(), Fail> {
    for &(words, name) in TRACES {
        let file = trace_of(rt.alloc(), words)?.ok_or("no trace")?;
        assert!(rt; file.as_str() == name, "{words:?}");
    }
    Ok(())
}

const DRAWS: &[(&[&str], usize, usize)] = &[
    (&["draw", "f"], 1, 0),
    (&["draw", "--from", "7", "f"], 7, 0),
    (&["draw", "f", "--steps=2000", "--from=007"], 7, 2_000),
];

#[test]
fn draw_is_a_command(rt: HostRuntime) -> Result<(), Fail> {
    for &(words, first, count) in DRAWS {
        let (from, steps, file) = draw_of(rt.alloc(), words)?.ok_or("no drawing")?;
        assert!(rt;
            from == first && steps == count && file.as_str() == "f",
            "{words:?}"
        );
    }
    for words in [
        &["draw", "--from", "0", "f"],
        &["draw", "--steps", "2001", "f"],
    ] {
        assert!(rt; draw_of(rt.alloc(), words)?.is_none(), "{words:?}");
    }
    Ok(())
}

const MISTAKES: &[&[&str]] = &[
    &[],
    &["dump"],
    &["run", "s"],
    &["play"],
    &["play", "a", "b"],
    &["play", "--workers", "1", "a"],
    &["trace"],
    &["trace", "--from", "1", "a"],
    &["draw"],
    &["draw", "--from=1", "--from=1", "a"],
];

#[test]
fn other_words_are_refused(rt: HostRuntime) -> Result<(), Fail> {
    for &words in MISTAKES {
        let error = told_of(rt.alloc(), words)?.ok_or("not refused")?;
        assert!(rt; error.use_stderr(), "{words:?}");
    }
    Ok(())
}

const HELP: &[&[&str]] = &[
    &["--help"],
    &["-h"],
    &["help", "play"],
    &["play", "--help"],
    &["play", "-h"],
    &["help", "draw"],
    &["trace", "--help"],
    &["--version"],
];

#[test]
fn help_and_version_are_no_mistake(rt: HostRuntime) -> Result<(), Fail> {
    for &words in HELP {
        let error = told_of(rt.alloc(), words)?.ok_or("not answered")?;
        assert!(rt; !error.use_stderr(), "{words:?}");
    }
    Ok(())
}
