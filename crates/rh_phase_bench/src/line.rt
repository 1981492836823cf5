//! The command line.

use rh_ledger::Kind;

/// What the command line asks for.
#[derive(Drop)]
pub enum Line {
    Stress {
        phases: u32,
        seed: u64,
    },
    Call {
        kind: Kind,
        workers: usize,
    },
    Timed {
        kind: Kind,
        keys: u64,
        workers: usize,
    },
}

/// What these words ask for, the program's name left out, or none where they are not understood.
pub fn parse_line(words: &[String]) -> Option<Line> {
    if words.len() != 3 {
        return None;
    }
    match words[0].as_str() {
        "stress" => {
            let phases = words[1].parse().ok()?;
            let seed = words[2].parse().ok()?;
            Some(Line::Stress { phases, seed })
        }
        "call" => {
            let kind = kind_of(words[1].as_str())?;
            let workers = words[2].parse().ok()?;
            Some(Line::Call { kind, workers })
        }
        word => {
            let kind = kind_of(word)?;
            let keys = words[1].parse().ok()?;
            let workers = words[2].parse().ok()?;
            Some(Line::Timed {
                kind,
                keys,
                workers,
            })
        }
    }
}

fn kind_of(word: &str) -> Option<Kind> {
    match word {
        "insert" => Some(Kind::Insert),
        "ask" => Some(Kind::Ask),
        "remove" => Some(Kind::Remove),
        _ => None,
    }
}
