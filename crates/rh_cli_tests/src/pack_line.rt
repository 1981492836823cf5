use rh_arguments::LineFault;
use rh_pack_commands::{Line, line};
use std::alloc::Global;
use std::test::Fail;

fn line_called(alloc: Global, name: &str, words: &[&str]) -> Result<Result<Line, LineFault>, Fail> {
    let mut all = vec![in alloc; String::from_str(alloc, name)?]?;
    for word in words {
        all.push(String::from_str(alloc, word)?)?;
    }
    Ok(line(alloc, &all))
}

fn line_of(alloc: Global, words: &[&str]) -> Result<Result<Line, LineFault>, Fail> {
    line_called(alloc, "rhpack", words)
}

// Whether clap tells an error of these words, which are no command, on standard error.
fn is_mistake(alloc: Global, words: &[&str]) -> Result<bool, Fail> {
    match line_of(alloc, words)? {
        Ok(_line) => Err("a command".into()),
        Err(LineFault::Words(error)) => Ok(error.use_stderr()),
        Err(LineFault::Memory) => Err("out of memory".into()),
    }
}

// Whether words that are `pack` or `list` ask for a listing, and whether for one of a snapshot.
fn listing_of(alloc: Global, words: &[&str]) -> Result<Option<(bool, bool)>, Fail> {
    Ok(match line_of(alloc, words)? {
        Ok(line) => match line {
            Line::Pack { .. } => Some((false, false)),
            Line::List { snapshot, .. } => Some((true, snapshot)),
            Line::Check { .. } | Line::Split { .. } => None,
        },
        Err(_fault) => None,
    })
}

// The files that are named, of words that are `check`, `list`, `pack` or `split`.
fn files_of(alloc: Global, words: &[&str]) -> Result<Option<Vec<String>>, Fail> {
    Ok(match line_of(alloc, words)? {
        Ok(line) => match line {
            Line::Check { files, skip: _skip } => Some(files),
            Line::List {
                files,
                snapshot: _snapshot,
            } => Some(files),
            Line::Pack { files, skip: _skip } => Some(files),
            Line::Split {
                files,
                name: _name,
                ..
            } => Some(files),
        },
        Err(_fault) => None,
    })
}

// The number of parts, the flags `--key-file` and `--plan` and the name, of words that are `split`.
fn split_of(alloc: Global, words: &[&str]) -> Result<Option<(usize, bool, bool, String)>, Fail> {
    Ok(match line_of(alloc, words)? {
        Ok(line) => match line {
            Line::Split {
                parts,
                key_file,
                plan,
                name,
                skip: _skip,
                files: _files,
            } => Some((parts, key_file, plan, name)),
            Line::Check { files: _files, .. } => None,
            Line::Pack { files: _files, .. } => None,
            Line::List { files: _files, .. } => None,
        },
        Err(_fault) => None,
    })
}

// How many lines are passed by, of words that read texts.
fn skip_of(alloc: Global, words: &[&str]) -> Result<Option<usize>, Fail> {
    Ok(match line_of(alloc, words)? {
        Ok(line) => match line {
            Line::Check { skip, .. } | Line::Pack { skip, .. } | Line::Split { skip, .. } => {
                Some(skip)
            }
            Line::List { .. } => None,
        },
        Err(_fault) => None,
    })
}

const SKIPS: &[(&[&str], usize)] = &[
    (&["check", "--skip", "2"], 2),
    (&["check", "a", "b", "--skip=1000000000"], 1_000_000_000),
    (&["check", "a"], 0),
    (&["pack", "--skip", "3", "a"], 3),
    (&["pack"], 0),
    (&["split", "a", "--skip", "4"], 4),
    (&["split", "a", "b"], 0),
];

#[test]
fn lines_are_passed_by(rt: HostRuntime) -> Result<(), Fail> {
    for &(words, skip) in SKIPS {
        assert_eq!(rt; skip_of(rt.alloc(), words)?, Some(skip), "{words:?}");
    }
    Ok(())
}

const LISTINGS: &[(&[&str], (bool, bool))] = &[
    (&["pack"], (false, false)),
    (&["list"], (true, false)),
    (&["list", "--snapshot"], (true, true)),
    (&["list", "a"], (true, false)),
    (&["list", "a", "--snapshot", "b"], (true, true)),
];

#[test]
fn words_are_commands(rt: HostRuntime) -> Result<(), Fail> {
    for &(words, listing) in LISTINGS {
        assert_eq!(rt; listing_of(rt.alloc(), words)?, Some(listing), "{words:?}");
    }
    Ok(())
}

const FILES: &[(&[&str], &[&str])] = &[
    (&["list"], &[]),
    (&["list", "a.keys"], &["a.keys"]),
    (&["list", "b", "--snapshot", "a", "b"], &["b", "a", "b"]),
    (&["list", "--", "--snapshot", ""], &["--snapshot", ""]),
    (&["check"], &[]),
    (&["check", "b", "-", "a"], &["b", "-", "a"]),
    (&["pack"], &[]),
    (&["pack", "ids.txt"], &["ids.txt"]),
    (&["pack", "-"], &["-"]),
    (&["split", "spring"], &[]),
    (
        &["split", "--parts", "2", "spring", "ids.txt"],
        &["ids.txt"],
    ),
    (&["split", "spring", "-", "--plan"], &["-"]),
];

#[test]
fn files_are_given_in_their_order(rt: HostRuntime) -> Result<(), Fail> {
    for &(words, expected) in FILES {
        let Some(files) = files_of(rt.alloc(), words)? else {
            return Err("refused".into());
        };
        assert_eq!(rt; files.len(), expected.len(), "{words:?}");
        for (file, name) in files.iter().zip(expected) {
            assert_eq!(rt; file.as_str(), *name, "{words:?}");
        }
    }
    Ok(())
}

type Split = (usize, bool, bool, &'static str);

const SPLITS: &[(&[&str], Split)] = &[
    (
        &["split", "--parts", "2", "spring"],
        (2, false, false, "spring"),
    ),
    (&["split", "--parts=1000", "a"], (1000, false, false, "a")),
    (&["split", "a", "--parts", "+64"], (64, false, false, "a")),
    (
        &["split", "--key-file", "--parts", "3", "a"],
        (3, true, false, "a"),
    ),
    (
        &["split", "--plan", "--parts", "3", "a"],
        (3, false, true, "a"),
    ),
    (
        &["split", "--plan", "--key-file", "--parts", "3", "--", "--a"],
        (3, true, true, "--a"),
    ),
    (&["split", "--parts", "2", ""], (2, false, false, "")),
    (&["split", "a"], (0, false, false, "a")),
    (&["split", "--plan", "a"], (0, false, true, "a")),
    (&["split", "--parts", "1", "a"], (1, false, false, "a")),
];

#[test]
fn words_are_splits(rt: HostRuntime) -> Result<(), Fail> {
    for &(words, split) in SPLITS {
        let Some((parts, key_file, plan, name)) = split_of(rt.alloc(), words)? else {
            return Err("refused".into());
        };
        assert_eq!(rt; (parts, key_file, plan, name.as_str()), split, "{words:?}");
    }
    Ok(())
}

const MISTAKES: &[&[&str]] = &[
    &[],
    &["unpack"],
    &["pack", "a", "b"],
    &["pack", "--snapshot"],
    &["check", "--count", "a"],
    &["check", "--skip", "1000000001", "a"],
    &["check", "--skip", "-1", "a"],
    &["union", "a"],
    &["list", "--skip", "1", "a"],
    &["list", "--keys"],
    &["list", "--snapshot=true"],
    &["list", "--snapshot", "--snapshot"],
    &["--snapshot"],
    &["--snapshot", "list"],
    &["split"],
    &["split", "--parts", "2"],
    &["split", "--parts", "-1", "a"],
    &["split", "--parts", "1001", "a"],
    &["split", "--parts", "two", "a"],
    &["split", "--parts", "2", "a", "b", "c"],
    &["split", "--parts", "2", "--parts", "3", "a"],
    &["split", "--parts", "2", "--snapshot", "a"],
];

#[test]
fn other_words_are_refused(rt: HostRuntime) -> Result<(), Fail> {
    for &words in MISTAKES {
        assert!(rt; is_mistake(rt.alloc(), words)?, "{words:?}");
    }
    Ok(())
}

const HELP: &[&[&str]] = &[
    &["--help"],
    &["-h"],
    &["help", "pack"],
    &["pack", "--help"],
    &["check", "--help"],
    &["help", "list"],
    &["list", "-h"],
    &["list", "--snapshot", "--help"],
    &["help", "split"],
    &["split", "--help"],
    &["--version"],
];

#[test]
fn help_and_version_are_no_mistake(rt: HostRuntime) -> Result<(), Fail> {
    for &words in HELP {
        assert!(rt; !is_mistake(rt.alloc(), words)?, "{words:?}");
    }
    Ok(())
}

// What clap tells of words that are no command, of a program that was called by this name.
fn text_of(alloc: Global, name: &str, words: &[&str]) -> Result<String, Fail> {
    match line_called(alloc, name, words)? {
        Ok(_line) => Err("a command".into()),
        Err(LineFault::Words(error)) => Ok(format!(in alloc; "{error}")?),
        Err(LineFault::Memory) => Err("out of memory".into()),
    }
}

const USAGES: &[(&str, &[&str], &str)] = &[
    (
        "rhpack",
        &["pack", "-h"],
        "\nUsage: rhpack pack [OPTIONS] [FILE]\n",
    ),
    (
        "/usr/bin/rhkeys",
        &["help", "pack"],
        "\nUsage: rhkeys pack [OPTIONS] [FILE]\n",
    ),
    (
        "rhkeys",
        &["split"],
        "\nUsage: rhkeys split <NAME> [FILE]\n",
    ),
    ("", &["unpack"], "\nUsage: rhpack <COMMAND>\n"),
];

#[test]
fn usage_lines_show_the_name_called(rt: HostRuntime) -> Result<(), Fail> {
    for &(name, words, usage) in USAGES {
        let text = text_of(rt.alloc(), name, words)?;
        assert!(rt; text.contains(usage), "{words:?}: {text}");
    }
    Ok(())
}
