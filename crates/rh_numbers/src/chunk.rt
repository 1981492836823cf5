//! A chunk of a text that is held in memory. It may be cut at any byte.

ghost use Rattle.std.specs.Prelude.{◌≡◌, ◌≢◌, ◌≤◌, ◌<◌, ◌+◌, ◌++◌, ℕ, List, [], All, IfOk, OnOk, drop, fold, length, slice_index, take, vec_len};
ghost use Rattle.rh_layout.specs.Key.{IsKey};
ghost use Rattle.rh_numbers.specs.Chunks.{EndsLine, ReadsTo, goes_on, last_of, told};
ghost use Rattle.rh_numbers.specs.Reading.{next, said_from, with_line};

use crate::line_so_far::{BadLine, LineSoFar};
use crate::plain::take_plain_lines;
use std::alloc::{AllocError, Global};

/// So many bytes of a text are thought to hold a key, where room for its keys is taken.
const BYTES_A_KEY: usize = 16;

/// How a chunk ends.
#[derive(Clone, Copy)]
pub enum ChunkEnd {
    /// The chunk has no bad line, and its last line, which goes on behind it, has said this so far.
    Open(LineSoFar),
    /// It has a bad line, which is the first one.
    Bad(BadLine),
}

/// What a chunk says, up to its first bad line.
#[derive(Drop)]
pub struct Chunk {
    /// Its keys, in its order. No more memory is kept than they take.
    pub keys: Vec<u64>,
    /// The line feeds up to its end, or up to its bad line.
    pub lines: u64,
    pub end: ChunkEnd,
}

/// Reads a chunk, before which the line has said so much. It takes memory for the keys alone.
pub fn read_chunk(alloc: Global, mut so_far: LineSoFar, text: &[u8]) -> Result<Chunk, AllocError>
    ensures read { IfOk result (λ chunk.
        ReadsTo so_far text.now chunk.keys.items chunk.lines chunk.end) }
    ensures in_range { IfOk result (λ chunk. All IsKey chunk.keys.items) }
    ensures lines { IfOk result (λ chunk. chunk.lines ≤ length text.now) }
    ensures whole { IfOk result (λ chunk. last_of text.now ≡ 10 → EndsLine chunk.end) }
{
    let mut keys = Vec::with_capacity(alloc, text.len() / BYTES_A_KEY)?;
    let mut lines = 0;
    let mut rest = text;
    loop {
        let Walked {
            so_far: said,
            length,
        } = walk(so_far, rest);
        if length == rest.len() {
            return Ok(shrunk(keys, lines, left_open(said)));
        }
        if let Some(bad) = take_line(&mut keys, said)? {
            return Ok(shrunk(keys, lines, ChunkEnd::Bad(bad)));
        }
        let (_, behind) = rest.split_at(length + 1);
        let plain = take_plain_lines(&mut keys, behind)?;
        let (_, others) = behind.split_at(plain.length);
        lines += 1 + plain.count;
        rest = others;
        so_far = LineSoFar::Start;
    }
}

/// The chunk, which keeps no more memory than its keys take.
fn shrunk(mut keys: Vec<u64>, lines: u64, end: ChunkEnd) -> Chunk
    ensures keys { result.keys.items ≡ keys.items }
    ensures lines { result.lines ≡ lines }
    ensures end { result.end ≡ end }
{
    keys.shrink_to_fit();
    Chunk { keys, lines, end }
}

/// What a line has said by its end, or by the end of the text, and how many bytes that took.
struct Walked {
    so_far: LineSoFar,
    length: usize,
}

/// Goes along a line, up to its line feed.
fn walk(mut so_far: LineSoFar, text: &[u8]) -> Walked
    ensures within { result.length ≤ length text.now }
    ensures said { result.so_far ≡ fold next so_far (take result.length text.now) }
    ensures one_line { (i : ℕ) → i < result.length → slice_index text.now i ≢ 10 }
    ensures ends { result.length < length text.now → slice_index text.now result.length ≡ 10 }
{
    for length in 0..text.len() {
        if text[length] == b'\n' {
            return Walked { so_far, length };
        }
        so_far = so_far.next(text[length]);
    }
    Walked {
        so_far,
        length: text.len(),
    }
}

/// The end of a chunk whose last line has said this. Where it is none that could still say a key,
/// it is bad already, so that no such line is read on.
fn left_open(said: LineSoFar) -> ChunkEnd
    ensures on { (keys : List ℕ) (line : ℕ) (rest : List ℕ) →
        said_from keys line said rest ≡ goes_on keys line result rest }
    ensures start { said ≡ LineSoFar.Start → EndsLine result }
{
    match said {
        LineSoFar::Other => ChunkEnd::Bad(BadLine::NotAKey),
        said => ChunkEnd::Open(said),
    }
}

/// Takes what a line said, which ends here. Where it is bad, it says why.
fn take_line(keys: &mut Vec<u64>, said: LineSoFar) -> Result<Option<BadLine>, AllocError>
    ensures said { IfOk result (λ bad. (line : ℕ) →
        with_line keys.old.items line said ≡ told keys.new.items line bad) }
    ensures in_range { All IsKey keys.old.items → All IsKey keys.new.items }
{
    match said.end() {
        Ok(None) => Ok(None),
        Ok(Some(key)) => {
            keys.push(key)?;
            Ok(None)
        }
        Err(bad) => Ok(Some(bad)),
    }
}
