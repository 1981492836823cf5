//! Expressions of named lists.

use rh_combine_workers::Question;
use rh_expressions::*;
use rh_questions::{Selection, Wanted};
use std::alloc::Global;
use std::test::Fail;

fn select_of(
    alloc: Global,
    text: &str,
    words: &[&str],
) -> Result<Result<Select, SelectFault>, Fail> {
    let mut all = Vec::new(alloc);
    for word in words {
        all.push(String::from_str(alloc, word)?)?;
    }
    Ok(read_select(alloc, text, &all))
}

// Of which of the numbers 1 to 7 it is true: in a stand those with the bit 1, in b those with the
// bit 2, and in c those with the bit 4.
const READ: &[(&str, &[u64])] = &[
    ("a & b | c", &[3, 4, 5, 6, 7]),
    ("a | b & c", &[1, 3, 5, 6, 7]),
    ("a - b - c", &[1]),
    ("a - (b - c)", &[1, 5, 7]),
    ("a - b | c", &[1, 4, 5, 6, 7]),
    ("a^b^c", &[1, 2, 4, 7]),
    ("\t((a)&\n(b))-c ", &[3]),
];

#[test]
fn signs_bind_as_they_are_read(rt: HostRuntime) -> Result<(), Fail> {
    let alloc = rt.alloc();
    for &(text, numbers) in READ {
        let Ok(select) = select_of(alloc, text, &["a=1.txt", "b=-", "c=x=y"])? else {
            return Err("refused".into());
        };
        assert_eq!(rt; select.paths.len(), 3, "{text}");
        assert_eq!(rt; select.paths[1].as_str(), "-", "{text}");
        assert_eq!(rt; select.paths[2].as_str(), "x=y", "{text}");
        let wanted = Wanted::Selected(Selection::Where(select.expression));
        let lists: [&[u64]; 3] = [&[1, 3, 5, 7], &[2, 3, 6, 7], &[4, 5, 6, 7]];
        let found = wanted.ask(alloc, &lists)?;
        assert_eq!(rt; found.as_slice(), numbers, "{text}");
    }
    Ok(())
}

const REFUSED: &[(&str, &[&str], SelectFault)] = &[
    ("a +", &["a=1", "=2"], SelectFault::NoName { word: 1 }),
    ("a +", &["a=1", "a=2", "b"], SelectFault::Twice { word: 1 }),
    ("a & a", &["a=1", "b=2"], SelectFault::Unused { word: 1 }),
];

const UNREAD: &[(&str, usize, ExpressionFault)] = &[
    ("", 0, ExpressionFault::NoOperand),
    ("a &", 3, ExpressionFault::NoOperand),
    ("a & )", 4, ExpressionFault::NoOperand),
    ("a b", 2, ExpressionFault::NoOperator),
    ("a (a)", 2, ExpressionFault::NoOperator),
    ("a | aa", 4, ExpressionFault::Unknown),
    ("a + a", 2, ExpressionFault::Foreign),
    ("(a) )", 4, ExpressionFault::NotOpened),
    ("(a & (a", 5, ExpressionFault::NotClosed),
];

#[test]
fn the_first_fault_is_told(rt: HostRuntime) -> Result<(), Fail> {
    for &(text, words, expected) in REFUSED {
        let Err(found) = select_of(rt.alloc(), text, words)? else {
            return Err("read".into());
        };
        assert_eq!(rt; found, expected, "{text}");
    }
    for &(text, at, fault) in UNREAD {
        let Err(found) = select_of(rt.alloc(), text, &["a=1"])? else {
            return Err("read".into());
        };
        assert_eq!(rt; found, SelectFault::Expression { at, fault }, "{text}");
    }
    Ok(())
}
