//! The title of the picture of a play: what its workers are to do.

use itoa::Buffer;
use rh_ledger::Kind;
use rh_play_text::{Play, Work, push_texts};
use std::alloc::{AllocError, Global};

/// No more keys than these stand in a line.
const MOST_KEYS: usize = 8;

/// Its lines: the kind of play and the table, the keys that this holds at first, and those of each
/// worker.
pub(crate) fn title_of(alloc: Global, play: &Play) -> Result<Vec<Vec<u8>>, AllocError> {
    let mut title = Vec::new(alloc);
    title.push(first_line(alloc, play)?)?;
    title.push(keys_line(alloc, b"held at first", &play.held)?)?;
    match &play.work {
        Work::Share { keys, .. } => title.push(keys_line(alloc, b"shared keys", keys)?)?,
        Work::Pieces(pieces) => push_workers(alloc, &mut title, pieces)?,
    }
    Ok(title)
}

fn push_workers(
    alloc: Global,
    title: &mut Vec<Vec<u8>>,
    pieces: &[Vec<u64>],
) -> Result<(), AllocError> {
    for (worker, keys) in pieces.iter().enumerate() {
        let mut buffer = Buffer::new();
        let mut name = Vec::new(alloc);
        push_texts(&mut name, &[b"worker ", buffer.format(worker).as_bytes()])?;
        title.push(keys_line(alloc, &name, keys)?)?;
    }
    Ok(())
}

fn first_line(alloc: Global, play: &Play) -> Result<Vec<u8>, AllocError> {
    let mut buffer = Buffer::new();
    let mut line = Vec::new(alloc);
    let cells = buffer.format(1u64 << play.bits.value).as_bytes();
    let does = doing(play.kind).as_bytes();
    push_texts(
        &mut line,
        &[b"Workers ", does, b" a table of ", cells, b" cells"],
    )?;
    Ok(line)
}

fn doing(kind: Kind) -> &'static str {
    match kind {
        Kind::Insert => "insert keys into",
        Kind::Remove => "remove keys from",
        Kind::Ask => "ask for keys in",
    }
}

// So they are called, and the first of them follow.
fn keys_line(alloc: Global, name: &[u8], keys: &[u64]) -> Result<Vec<u8>, AllocError> {
    let mut line = Vec::new(alloc);
    push_texts(&mut line, &[name, b":"])?;
    for key in keys.iter().take(MOST_KEYS) {
        let mut buffer = Buffer::new();
        push_texts(&mut line, &[b" ", buffer.format(*key).as_bytes()])?;
    }
    push_rest(&mut line, keys.len())?;
    Ok(line)
}

// What follows the first of so many keys.
fn push_rest(line: &mut Vec<u8>, keys: usize) -> Result<(), AllocError> {
    if keys == 0 {
        return push_texts(line, &[b" none"]);
    }
    if keys <= MOST_KEYS {
        return Ok(());
    }
    let mut buffer = Buffer::new();
    let more = buffer.format(keys - MOST_KEYS).as_bytes();
    push_texts(line, &[b" and ", more, b" more"])
}
