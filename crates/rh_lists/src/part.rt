//! A part of a text, read.

ghost use Rattle.std.specs.Prelude.{[], ◌++◌, ◌+◌, ◌<◌, ◌^◌, ◌∷◌, ◌≡◌, ◌≤◌, List, ℕ};
ghost use Rattle.std.specs.Prelude.{IfErr, IfOk, IfSome, IsNone, MatchResult};
ghost use Rattle.rh_layout.specs.Key.{IsKey};
ghost use Rattle.rh_numbers.specs.Chunks.{EndsLine};
ghost use Rattle.rh_numbers.specs.Reading.{text_said};
ghost use Rattle.rh_numbers.specs.declared.line_so_far.LineSoFar.{LineSoFar};
ghost use Rattle.rh_numbers.specs.declared.line_so_far.LineSoFar.TheVariants.{Head};
ghost use Rattle.rh_cutting.specs.Pieces.{keys_in};
ghost use Rattle.rh_lists.specs.Lists.{OfHeldBytes};
ghost use Rattle.rh_lists.specs.Parts.{IsOpen, IsPartOf, IsReadTo, TellsText, Refuses, end_of_part};

use rh_cutting::KeyList;
use rh_numbers::{Chunk, ChunkEnd, LineSoFar, TextFault, read_chunk};
use std::alloc::{AllocError, Global};

/// What a part of a text says, up to its first bad line.
#[derive(Drop)]
pub(crate) struct ListPart {
    pub keys: KeyList,
    /// The line feeds up to its end, or up to its bad line.
    pub lines: u64,
    pub end: ChunkEnd,
}

impl ListPart {
    /// Reads the bytes, before which the line has said so much.
    pub(crate) fn read(
        alloc: Global,
        so_far: LineSoFar,
        bytes: &[u8],
    ) -> Result<ListPart, AllocError>
        ensures { IfOk result (IsPartOf so_far bytes.now) }
    {
        let Chunk {
            keys: piece,
            lines,
            end,
        } = read_chunk(alloc, so_far, bytes)?;
        let mut keys = KeyList::new(alloc);
        keys.push(piece)?;
        Ok(ListPart { keys, lines, end })
    }

    /// What both say, one after the other. Behind a bad line nothing is said.
    pub(crate) fn then(self, next: ListPart) -> Result<ListPart, AllocError>
        requires { self.lines + next.lines < 2 ^ 64 }
        ensures read { IfOk result (λ both. (so_far : LineSoFar) (front back : List ℕ) →
            IsReadTo so_far front self → IsReadTo (end_of_part self) back next →
            IsReadTo so_far (front ++ back) both) }
        ensures lines { IfOk result (λ both. both.lines ≤ self.lines + next.lines) }
        ensures whole { IfOk result (λ both. EndsLine next.end → EndsLine both.end) }
    {
        if let ChunkEnd::Bad(_) = self.end {
            return Ok(self);
        }
        let ListPart {
            mut keys,
            lines,
            ..
        } = self;
        let ListPart {
            keys: more,
            lines: others,
            end,
        } = next;
        keys.append(more)?;
        Ok(ListPart {
            keys,
            lines: lines + others,
            end,
        })
    }

    /// What the last line has said so far, where none is bad.
    pub(crate) fn so_far(&self) -> LineSoFar
        ensures { result ≡ end_of_part self.now }
    {
        match self.end {
            ChunkEnd::Open(said) => said,
            ChunkEnd::Bad(_) => LineSoFar::Start,
        }
    }

    /// The fault of a text that begins with this part, where it has a bad line.
    fn fault(&self) -> Option<TextFault>
        requires { self.now.lines + 1 < 2 ^ 64 }
        ensures refused { IfSome result (λ fault. (bytes rest : List ℕ) →
            IsReadTo Head bytes self.now →
            Refuses (text_said (bytes ++ rest)) fault) }
        ensures held { IfSome result OfHeldBytes }
        ensures none { IsNone result → IsOpen self.now.end }
    {
        match self.end {
            ChunkEnd::Open(_) => None,
            ChunkEnd::Bad(bad) => Some(bad.in_line(1 + self.lines)),
        }
    }

    /// The text with this part behind it, where none of its lines is bad.
    pub(crate) fn more(self, next: ListPart) -> Result<ListPart, TextFault>
        requires { self.lines + next.lines + 1 < 2 ^ 64 }
        ensures read { MatchResult result
            (λ text. (before bytes : List ℕ) → IsReadTo Head before self →
            IsReadTo (end_of_part self) bytes next →
            IsReadTo Head (before ++ bytes) text)
            (λ fault. (before bytes rest : List ℕ) → IsReadTo Head before self →
            IsReadTo (end_of_part self) bytes next →
            Refuses (text_said ((before ++ bytes) ++ rest)) fault) }
        ensures held { IfErr result OfHeldBytes }
        ensures lines { IfOk result (λ text. text.lines ≤ self.lines + next.lines) }
        ensures good { IfOk result (λ text. IsOpen text.end) }
    {
        let Ok(text) = self.then(next) else {
            return Err(TextFault::Memory);
        };
        match text.fault() {
            Some(fault) => Err(fault),
            None => Ok(text),
        }
    }

    /// The keys of a text that is this part and nothing else.
    pub(crate) fn end_text(self, alloc: Global) -> Result<KeyList, TextFault>
        requires { self.lines + 1 < 2 ^ 64 }
        ensures told { (bytes : List ℕ) → IsReadTo Head bytes self →
            TellsText (text_said bytes) result }
        ensures held { IfErr result OfHeldBytes }
    {
        let ListPart { keys, lines, end } = self;
        let so_far = match end {
            ChunkEnd::Open(so_far) => so_far,
            ChunkEnd::Bad(bad) => return Err(bad.in_line(1 + lines)),
        };
        match so_far.end() {
            Ok(None) => Ok(keys),
            Ok(Some(key)) => with_key(alloc, keys, key),
            Err(bad) => Err(bad.in_line(1 + lines)),
        }
    }
}

/// The list with one key more at its end.
fn with_key(alloc: Global, keys: KeyList, key: u64) -> Result<KeyList, TextFault>
    requires { IsKey key }
    ensures keys { IfOk result (λ more. keys_in more ≡ keys_in keys ++ key ∷ []) }
    ensures memory { IfErr result (λ fault. fault ≡ TextFault.Memory) }
{
    let mut more = keys;
    let Ok(piece) = vec![in alloc; key; 1] else {
        return Err(TextFault::Memory);
    };
    let Ok(()) = more.push(piece) else {
        return Err(TextFault::Memory);
    };
    Ok(more)
}
