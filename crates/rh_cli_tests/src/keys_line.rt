use rh_arguments::LineFault;
use rh_combine::{Form, How};
use rh_key_commands::{Asked, Line, line, meant};
use std::alloc::Global;
use std::test::Fail;

fn line_of(alloc: Global, words: &[&str]) -> Result<Result<Line, LineFault>, Fail> {
    let mut all = vec![in alloc; String::from_str(alloc, "rhkeys")?]?;
    for word in words {
        all.push(String::from_str(alloc, word)?)?;
    }
    Ok(line(alloc, &all))
}

// Whether clap tells an error of these words, which are no command, on standard error.
fn is_mistake(alloc: Global, words: &[&str]) -> Result<bool, Fail> {
    match line_of(alloc, words)? {
        Ok(_line) => Err("a command".into()),
        Err(LineFault::Words(error)) => Ok(error.use_stderr()),
        Err(LineFault::Memory) => Err("out of memory".into()),
    }
}

// The line, of words that are a command.
fn asked_of(alloc: Global, words: &[&str]) -> Result<Line, Fail> {
    match line_of(alloc, words)? {
        Ok(line) => Ok(line),
        Err(_fault) => Err("refused".into()),
    }
}

const SKIPS: &[(&[&str], usize)] = &[
    (&["union", "a"], 0),
    (&["union", "--skip", "1", "a"], 1),
    (&["xor", "a", "b", "--skip=1000000000"], 1_000_000_000),
];

#[test]
fn lines_are_passed_by(rt: HostRuntime) -> Result<(), Fail> {
    for &(words, skip) in SKIPS {
        assert_eq!(rt; asked_of(rt.alloc(), words)?.skip, skip, "{words:?}");
    }
    Ok(())
}

// What is made, in how many lists a number shall stand, or what shall be true of it.
#[derive(Clone, Copy)]
enum Question {
    Made(How),
    AtLeast(&'static str),
    Select(&'static str),
}

// What is asked, what is written of it, by how many workers, and of which files.
type Said = (Question, Option<Form>, usize, &'static [&'static str]);

const COMMANDS: &[(&[&str], Said)] = &[
    (
        &["intersect", "a", "b"],
        (
            Question::Made(How::Intersect),
            Some(Form::Lines),
            0,
            &["a", "b"],
        ),
    ),
    (
        &["union", "b", "--count", "-", "b"],
        (
            Question::Made(How::Union),
            Some(Form::Count),
            0,
            &["b", "-", "b"],
        ),
    ),
    (
        &["subtract", "--packed", "--workers", "64", "a", "--", "--b"],
        (
            Question::Made(How::Subtract),
            Some(Form::Packed),
            64,
            &["a", "--b"],
        ),
    ),
    (
        &["xor", "--count", "--packed", "--workers=+2", ""],
        (Question::Made(How::Xor), None, 2, &[""]),
    ),
    (
        &["atleast", "2", "a", "--count", "b", "a"],
        (
            Question::AtLeast("2"),
            Some(Form::Count),
            0,
            &["a", "b", "a"],
        ),
    ),
    (
        &["atleast", "--workers", "3", "a", "2"],
        (Question::AtLeast("a"), Some(Form::Lines), 3, &["2"]),
    ),
    (
        &["select", "a - b", "a=x", "--packed", "b=y"],
        (
            Question::Select("a - b"),
            Some(Form::Packed),
            0,
            &["a=x", "b=y"],
        ),
    ),
];

fn is_asked(asked: &Asked, question: Question) -> bool {
    match (asked, question) {
        (Asked::Made(made), Question::Made(how)) => *made == how,
        (Asked::AtLeast(least), Question::AtLeast(text)) => least.as_str() == text,
        (Asked::Select(expression), Question::Select(text)) => expression.as_str() == text,
        _ => false,
    }
}

#[test]
fn words_are_commands(rt: HostRuntime) -> Result<(), Fail> {
    for &(words, (question, form, workers, files)) in COMMANDS {
        let line = asked_of(rt.alloc(), words)?;
        assert!(rt; is_asked(&line.asked, question), "{words:?}");
        assert_eq!(rt; line.form, form, "{words:?}");
        assert_eq!(rt; line.workers, workers, "{words:?}");
        assert_eq!(rt; line.files.len(), files.len(), "{words:?}");
        for (file, name) in line.files.iter().zip(files) {
            assert_eq!(rt; file.as_str(), *name, "{words:?}");
        }
    }
    Ok(())
}

const MISTAKES: &[&[&str]] = &[
    &[],
    &["unpack"],
    &["pack"],
    &["union"],
    &["atleast", "2"],
    &["select", "a"],
    &["union", "--skip", "-1", "a"],
    &["union", "--skip", "1000000001", "a"],
    &["union", "--workers", "65", "a"],
    &["union", "--count", "--count", "a"],
    &["--count"],
    &["--count", "union", "a"],
];

#[test]
fn other_words_are_refused(rt: HostRuntime) -> Result<(), Fail> {
    for &words in MISTAKES {
        assert!(rt; is_mistake(rt.alloc(), words)?, "{words:?}");
    }
    Ok(())
}

const HELP: &[&[&str]] = &[
    &["--help"],
    &["-h"],
    &["help", "union"],
    &["xor", "--help"],
    &["--version"],
];

#[test]
fn help_and_version_are_no_mistake(rt: HostRuntime) -> Result<(), Fail> {
    for &words in HELP {
        assert!(rt; !is_mistake(rt.alloc(), words)?, "{words:?}");
    }
    Ok(())
}

const MEANT: &[(&str, Option<&str>)] = &[
    ("merge", Some("union")),
    ("both", Some("intersect")),
    ("threshold", Some("atleast")),
    ("where", Some("select")),
    ("verify", Some("check")),
    ("unpack", Some("list")),
    ("union", None),
    ("check", None),
    ("pack", None),
    ("list", None),
    ("split", None),
];

#[test]
fn words_of_other_tools_are_told(rt: HostRuntime) -> Result<(), Fail> {
    for &(word, name) in MEANT {
        assert_eq!(rt; meant(word), name, "{word}");
    }
    Ok(())
}
