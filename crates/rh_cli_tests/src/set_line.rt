use clap::Error;
use rh_arguments::LineFault;
use rh_commands::line::{Line, line};
use std::alloc::Global;
use std::test::Fail;

fn line_of(alloc: Global, words: &[&str]) -> Result<Result<Line, LineFault>, Fail> {
    let mut all = vec![in alloc; String::from_str(alloc, "rhset")?]?;
    for word in words {
        all.push(String::from_str(alloc, word)?)?;
    }
    Ok(line(alloc, &all))
}

// The number of workers and the script, of words that are `run`.
fn run_of(alloc: Global, words: &[&str]) -> Result<Option<(usize, String)>, Fail> {
    Ok(match line_of(alloc, words)? {
        Ok(line) => match line {
            Line::Run { workers, script } => Some((workers, script)),
            Line::Dump | Line::Check { .. } => None,
        },
        Err(_fault) => None,
    })
}

// The snapshot, of words that are `check`.
fn check_of(alloc: Global, words: &[&str]) -> Result<Option<String>, Fail> {
    Ok(match line_of(alloc, words)? {
        Ok(line) => match line {
            Line::Check { snapshot } => Some(snapshot),
            Line::Dump | Line::Run { .. } => None,
        },
        Err(_fault) => None,
    })
}

// What clap tells, of words that are no command.
fn told_of(alloc: Global, words: &[&str]) -> Result<Option<Error>, Fail> {
    Ok(match line_of(alloc, words)? {
        Ok(_line) => None,
        Err(fault) => match fault {
            LineFault::Words(error) => Some(error),
            LineFault::Memory => None,
        },
    })
}

#[test]
fn dump_is_a_command(rt: HostRuntime) -> Result<(), Fail> {
    let asked = line_of(rt.alloc(), &["dump"])?;
    assert!(rt; matches!(&asked, Ok(Line::Dump)));
    Ok(())
}

const RUNS: &[&[&str]] = &[
    &["run", "s"],
    &["run", "--workers", "1", "s"],
    &["run", "--workers=1", "s"],
    &["run", "s", "--workers", "+1"],
    &["run", "--workers=001", "s"],
    &["run", "--", "s"],
];

#[test]
fn run_is_a_command(rt: HostRuntime) -> Result<(), Fail> {
    for &words in RUNS {
        let (workers, script) = run_of(rt.alloc(), words)?.ok_or("no run")?;
        assert!(rt; workers == 1 && script.as_str() == "s", "{words:?}");
    }
    Ok(())
}

#[test]
fn a_run_has_up_to_16_workers(rt: HostRuntime) -> Result<(), Fail> {
    for (word, number) in [("1", 1), ("2", 2), ("8", 8), ("+9", 9), ("16", 16)] {
        let (workers, _) = run_of(rt.alloc(), &["run", "--workers", word, "s"])?.ok_or("no run")?;
        assert!(rt; workers == number, "{word}");
    }
    Ok(())
}

#[test]
fn a_script_may_have_any_name(rt: HostRuntime) -> Result<(), Fail> {
    for name in ["", "run", "help", "a b", "-"] {
        let (_, script) = run_of(rt.alloc(), &["run", name])?.ok_or("no run")?;
        assert!(rt; script.as_str() == name, "{name:?}");
    }
    Ok(())
}

const CHECKS: &[(&[&str], &str)] = &[
    (&["check", "s"], "s"),
    (&["check", "--", "-s"], "-s"),
    (&["check", "check"], "check"),
    (&["check", ""], ""),
];

#[test]
fn check_is_a_command(rt: HostRuntime) -> Result<(), Fail> {
    for &(words, name) in CHECKS {
        let snapshot = check_of(rt.alloc(), words)?.ok_or("no check")?;
        assert!(rt; snapshot.as_str() == name, "{words:?}");
    }
    Ok(())
}

const MISTAKES: &[&[&str]] = &[
    &[],
    &["dumb"],
    &["dump", "extra"],
    &["dump", "--workers", "1"],
    &["--what"],
    &["run"],
    &["run", "--workers", "1"],
    &["run", "--workers", "17", "s"],
    &["run", "--workers", "0", "s"],
    &["run", "--workers", "x", "s"],
    &["run", "--workers=", "s"],
    &["run", "--workers=1", "--workers=1", "s"],
    &["run", "a", "b"],
    &["play", "a"],
    &["trace", "a"],
    &["draw", "a"],
    &["check"],
    &["check", "a", "b"],
    &["check", "--workers", "1", "a"],
];

#[test]
fn other_words_are_refused(rt: HostRuntime) -> Result<(), Fail> {
    for &words in MISTAKES {
        let error = told_of(rt.alloc(), words)?.ok_or("not refused")?;
        assert!(rt; error.use_stderr(), "{words:?}");
    }
    Ok(())
}

const HELP: &[&[&str]] = &[
    &["--help"],
    &["-h"],
    &["help", "dump"],
    &["dump", "--help"],
    &["help", "run"],
    &["run", "--help"],
    &["run", "-h", "s"],
    &["help", "check"],
    &["check", "--help"],
    &["check", "-h"],
    &["--version"],
];

#[test]
fn help_and_version_are_no_mistake(rt: HostRuntime) -> Result<(), Fail> {
    for &words in HELP {
        let error = told_of(rt.alloc(), words)?.ok_or("not answered")?;
        assert!(rt; !error.use_stderr(), "{words:?}");
    }
    Ok(())
}
