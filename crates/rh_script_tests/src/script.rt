use rh_script::*;
use std::process::Abort;
use std::test::*;

// The line of a step, and the words of its command.
fn words(step: &Step) -> (u64, [&str; 3]) {
    let words = match &step.command {
        Command::Use { name, path } => ["use", name.as_str(), path.as_str()],
        Command::Act { action, name } => match action {
            Action::Add => ["add", name.as_str(), ""],
            Action::Drop => ["drop", name.as_str(), ""],
            Action::Ask => ["ask", name.as_str(), ""],
            Action::Keep => ["keep", name.as_str(), ""],
            Action::Flip => ["flip", name.as_str(), ""],
        },
        Command::Save { name } => ["save", name.as_str(), ""],
        Command::Clear => ["clear", "", ""],
        Command::Dump => ["dump", "", ""],
        Command::Snapshot { path } => ["snapshot", path.as_str(), ""],
        Command::Restore { path } => ["restore", path.as_str(), ""],
    };
    (step.line, words)
}

const ALL_COMMANDS: &[u8] =
    b"use a a.keys\nadd a\ndrop a\nask a\nkeep a\nflip a\nsave b\nclear\ndump\n\
snapshot Some_Path.1\nrestore /a=b\n";

const ALL_WORDS: &[(u64, [&str; 3])] = &[
    (1, ["use", "a", "a.keys"]),
    (2, ["add", "a", ""]),
    (3, ["drop", "a", ""]),
    (4, ["ask", "a", ""]),
    (5, ["keep", "a", ""]),
    (6, ["flip", "a", ""]),
    (7, ["save", "b", ""]),
    (8, ["clear", "", ""]),
    (9, ["dump", "", ""]),
    (10, ["snapshot", "Some_Path.1", ""]),
    (11, ["restore", "/a=b", ""]),
];

fn assert_words(rt: &impl Abort, script: &Script) {
    assert_eq!(rt; script.len(), 11);
    assert!(rt; !script.is_empty());
    for (step, wanted) in script.steps().iter().zip(ALL_WORDS) {
        assert_eq!(rt; words(step), *wanted);
    }
}

#[test]
fn each_command_is_read(rt: HostRuntime) -> Result<(), Fail> {
    assert_words(&rt, &parse(rt.alloc(), ALL_COMMANDS)?);
    Ok(())
}

// Scripts, and the lines of their commands.
#[rattlefmt::skip]
const LINES: &[(&[u8], &[u64])] = &[
    (b"", &[]),
    (b"\n", &[]),
    (b"\n\n", &[]),
    (b"dump", &[1]),
    (b"dump\n", &[1]),
    (b"dump\n\n", &[1]),
    (b"dump\r\nclear\r\n\r\ndump\r", &[1, 2, 4]),
    (b"# a comment\n\n   \ndump\n#\ndump", &[4, 6]),
    (b"#\t\x7f\xff\0\ndump", &[2]),
    (b"  dump \n clear", &[1, 2]),
    (b"use  a   ~!\x22#\nadd  a ", &[1, 2]),
    (b"save abcdefghijklmnop\nask abcdefghijklmnop", &[1, 2]),
    (b"use a9z use\nsave b\nflip b\nkeep a9z", &[1, 2, 3, 4]),
    (b" snapshot  1s\n\nrestore 1s \r\n", &[1, 3]),
    // Two lists may have one path, and any path may be restored.
    (b"use a x\nuse b x", &[1, 2]),
    (b"use a x\nrestore x", &[1, 2]),
    (b"restore x\nsnapshot x\nrestore x\nrestore x", &[1, 2, 3, 4]),
    (b"restore x\nuse a x", &[1, 2]),
    (b"use a x\nsnapshot y\nuse b z\nsnapshot X", &[1, 2, 3, 4]),
    (b"snapshot x\nsnapshot xx\nuse a ./x", &[1, 2, 3]),
    (b"save x\nsnapshot x\nuse y y\nsnapshot a\nsave a", &[1, 2, 3, 4, 5]),
];

fn assert_lines(rt: &impl Abort, script: &Script, lines: &[u64]) {
    assert_eq!(rt; script.len(), lines.len());
    for (step, line) in script.steps().iter().zip(lines) {
        assert_eq!(rt; step.line, *line);
    }
}

#[test]
fn commands_stand_on_their_lines(rt: HostRuntime) -> Result<(), Fail> {
    for &(text, lines) in LINES {
        assert_lines(&rt, &parse(rt.alloc(), text)?, lines);
    }
    Ok(())
}

#[rattlefmt::skip]
const FAULTS: &[(&[u8], u64, ScriptFaultKind)] = &[
    (b"grow", 1, ScriptFaultKind::BadCommand),
    (b"\n#\ngrow a", 3, ScriptFaultKind::BadCommand),
    (b"snapshots s", 1, ScriptFaultKind::BadCommand),
    (b"Restore s", 1, ScriptFaultKind::BadCommand),
    (b"snapshot", 1, ScriptFaultKind::BadCommand),
    (b"restore  ", 1, ScriptFaultKind::BadCommand),
    (b"snapshot s s", 1, ScriptFaultKind::BadCommand),
    (b"restore a s", 1, ScriptFaultKind::BadCommand),
    (b"snapshot \xc3\xa9", 1, ScriptFaultKind::BadCommand),
    (b"Dump", 1, ScriptFaultKind::BadCommand),
    (b" #", 1, ScriptFaultKind::BadCommand),
    (b"dump\t", 1, ScriptFaultKind::BadCommand),
    (b"\t", 1, ScriptFaultKind::BadCommand),
    (b"dump\x7f", 1, ScriptFaultKind::BadCommand),
    (b"use a \xc3\xa9", 1, ScriptFaultKind::BadCommand),
    (b"dump\r\r\n", 1, ScriptFaultKind::BadCommand),
    (b"du\rmp", 1, ScriptFaultKind::BadCommand),
    (b"dump a", 1, ScriptFaultKind::BadCommand),
    (b"clear a b", 1, ScriptFaultKind::BadCommand),
    (b"add", 1, ScriptFaultKind::BadCommand),
    (b"save a b", 1, ScriptFaultKind::BadCommand),
    (b"use a", 1, ScriptFaultKind::BadCommand),
    (b"use", 1, ScriptFaultKind::BadCommand),
    (b"use a b c", 1, ScriptFaultKind::BadCommand),
    (b"use 1a", 1, ScriptFaultKind::BadCommand),
    (b"use 1a x", 1, ScriptFaultKind::BadName),
    (b"use A x", 1, ScriptFaultKind::BadName),
    (b"add a_b", 1, ScriptFaultKind::BadName),
    (b"ask aB", 1, ScriptFaultKind::BadName),
    (b"save abcdefghijklmnopq", 1, ScriptFaultKind::BadName),
    (b"add a", 1, ScriptFaultKind::Unknown),
    (b"use a x\nadd b\nuse a x", 2, ScriptFaultKind::Unknown),
    (b"drop a\nuse a x", 1, ScriptFaultKind::Unknown),
    (b"save a\nkeep aa", 2, ScriptFaultKind::Unknown),
    (b"flip a", 1, ScriptFaultKind::Unknown),
    (b"use a x\nuse a y", 2, ScriptFaultKind::Twice),
    (b"save a\nuse a y", 2, ScriptFaultKind::Twice),
    (b"use a x\n\nsave a\ngrow", 3, ScriptFaultKind::Twice),
    (b"save a\nask a\nsave a", 3, ScriptFaultKind::Twice),
    (b"use a x\nsnapshot x", 2, ScriptFaultKind::Twice),
    (b"use a x\nuse b y\nsnapshot z\nsnapshot x", 4, ScriptFaultKind::Twice),
    (b"snapshot x\nsnapshot x", 2, ScriptFaultKind::Twice),
    (b"snapshot x\nrestore x\nsnapshot x", 3, ScriptFaultKind::Twice),
    (b"snapshot x\nuse a x", 2, ScriptFaultKind::Twice),
    (b"snapshot x\n#\nuse a y\nuse b x", 4, ScriptFaultKind::Twice),
    (b"save a\nsnapshot x\nuse a x", 3, ScriptFaultKind::Twice),
    // The first fault of a line is answered.
    (b"snapshot x\nuse a", 2, ScriptFaultKind::BadCommand),
    (b"snapshot x\nsnapshot x x", 2, ScriptFaultKind::BadCommand),
    (b"snapshot x\nuse A x", 2, ScriptFaultKind::BadName),
    (b"snapshot x\nadd x", 2, ScriptFaultKind::Unknown),
    (b"use a x\nsnapshot a\nadd b\nsnapshot x", 3, ScriptFaultKind::Unknown),
    (b"snapshot x\nuse a x\nadd b", 2, ScriptFaultKind::Twice),
];

#[test]
fn the_first_fault_is_answered(rt: HostRuntime) {
    for &(text, line, kind) in FAULTS {
        assert_eq!(rt;
            parse(rt.alloc(), text).err(),
            Some(ScriptFault { line, kind })
        );
    }
}

#[test]
fn lines_have_a_limit(rt: HostRuntime) -> Result<(), Fail> {
    let too_long = Some(ScriptFault {
        line: 1,
        kind: ScriptFaultKind::TooLong,
    });
    let mut line = vec![in rt.alloc(); b' '; 1_024]?;
    assert!(rt; parse(rt.alloc(), &line)?.is_empty());
    line.push(b'\n')?;
    assert!(rt; parse(rt.alloc(), &line)?.is_empty());
    line[1_024] = b' ';
    assert_eq!(rt; parse(rt.alloc(), &line).err(), too_long);
    // A carriage return counts, and a comment is no exception.
    line[1_024] = b'\r';
    assert_eq!(rt; parse(rt.alloc(), &line).err(), too_long);
    line[0] = b'#';
    assert_eq!(rt; parse(rt.alloc(), &line).err(), too_long);
    Ok(())
}

#[test]
fn scripts_have_a_limit(rt: HostRuntime) -> Result<(), Fail> {
    let mut text = vec![in rt.alloc(); b'\n'; 10_000]?;
    assert!(rt; parse(rt.alloc(), &text)?.is_empty());
    text.push(b'#')?;
    let too_long = Some(ScriptFault {
        line: 10_001,
        kind: ScriptFaultKind::TooLong,
    });
    assert_eq!(rt; parse(rt.alloc(), &text).err(), too_long);
    Ok(())
}

const MIXED: &[u8] = b"use a a.keys\n# two lists\nuse b b.keys\nadd a\ndrop b\nask a\n\n\
save c\nkeep c\nflip b\nclear\ndump\nuse d d.keys\nask d\nsnapshot s.snap\nuse e a.keys\nrestore s.snap\n";

const MIXED_PLAN: &[(u64, [&str; 3], Option<usize>)] = &[
    (1, ["use", "a", "a.keys"], Some(0)),
    (3, ["use", "b", "b.keys"], Some(1)),
    (4, ["add", "a", ""], Some(0)),
    (5, ["drop", "b", ""], Some(1)),
    (6, ["ask", "a", ""], Some(0)),
    (8, ["save", "c", ""], Some(2)),
    (9, ["keep", "c", ""], Some(2)),
    (10, ["flip", "b", ""], Some(1)),
    (11, ["clear", "", ""], None),
    (12, ["dump", "", ""], None),
    (13, ["use", "d", "d.keys"], Some(3)),
    (14, ["ask", "d", ""], Some(3)),
    (15, ["snapshot", "s.snap", ""], None),
    (16, ["use", "e", "a.keys"], Some(4)),
    (17, ["restore", "s.snap", ""], None),
];

fn assert_plan(rt: &impl Abort, plan: &Plan<'_>, wanted: &[(u64, [&str; 3], Option<usize>)]) {
    assert_eq!(rt; plan.len(), wanted.len());
    assert!(rt; !plan.is_empty());
    for (step, wanted) in plan.steps().iter().zip(wanted) {
        let (line, words) = words(step);
        assert_eq!(rt; (line, words, step.list), *wanted);
    }
}

#[test]
fn lists_are_numbered(rt: HostRuntime) -> Result<(), Fail> {
    let script = parse(rt.alloc(), MIXED)?;
    assert_plan(&rt, &plan(rt.alloc(), &script)?, MIXED_PLAN);
    Ok(())
}

#[test]
fn a_script_without_commands_has_an_empty_plan(rt: HostRuntime) -> Result<(), Fail> {
    let script = parse(rt.alloc(), b"# nothing\n\n")?;
    let planned = plan(rt.alloc(), &script)?;
    assert_eq!(rt; planned.len(), 0);
    assert!(rt; planned.is_empty());
    assert!(rt; planned.steps().is_empty());
    Ok(())
}

#[test]
fn faults_can_be_printed(rt: HostRuntime) -> Result<(), Fail> {
    for &(kind, text) in &[
        (ScriptFaultKind::TooLong, "line 7: too long"),
        (ScriptFaultKind::BadCommand, "line 7: bad command"),
        (ScriptFaultKind::BadName, "line 7: bad name"),
        (ScriptFaultKind::Unknown, "line 7: unknown name"),
        (ScriptFaultKind::Twice, "line 7: given twice"),
        (ScriptFaultKind::Memory, "line 7: out of memory"),
    ] {
        let fault = ScriptFault { line: 7, kind };
        assert_eq!(rt; format!(in rt.alloc(); "{fault}")?.as_str(), text);
    }
    Ok(())
}

#[test]
fn the_limits_are_these(rt: HostRuntime) {
    assert_eq!(rt; MAX_LINES, 10_000);
    assert_eq!(rt; MAX_LINE_BYTES, 1_024);
    assert_eq!(rt; MAX_NAME_BYTES, 16);
}
