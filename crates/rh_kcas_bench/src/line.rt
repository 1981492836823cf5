//! The command line.

ghost use Rattle.std.specs.Prelude.{◌<◌, ◌≤◌};

use crate::load::MOST;

/// What the command line asks for.
#[derive(Drop)]
pub struct Line {
    pub threads: usize,
    pub entries: usize,
    pub own: bool,
    pub rounds: u32,
    pub timed: bool,
    pub ghost some: { (0 < threads) × (threads ≤ 8) },
    pub ghost changes: { 0 < entries },
}

/// What these words ask for, the program's name left out, or none where they are not understood.
pub fn parse_line(words: &[String]) -> Option<Line> {
    let (first, timed) = match words.len() {
        4 => (words, false),
        5 if words[4].as_str() == "timed" => (words, true),
        _ => return None,
    };
    let threads: usize = first[0].parse().ok()?;
    let entries: usize = first[1].parse().ok()?;
    let own = match first[2].as_str() {
        "own" => true,
        "same" => false,
        _ => return None,
    };
    let rounds: u32 = first[3].parse().ok()?;
    if threads == 0 || threads > MOST || entries == 0 || entries > MOST {
        return None;
    }
    Some(Line {
        threads,
        entries,
        own,
        rounds,
        timed,
    })
}
