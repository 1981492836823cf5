//! What the numbers of a list are.

ghost use Rattle.std.specs.Prelude.{◌≡◌, ◌++◌, ◌∷◌, [], ℕ, List, IfOk, Some, length};
ghost use Rattle.std.specs.List.{flat_map};
ghost use Rattle.rh_cutting.specs.Pieces.{keys_in};
ghost use Rattle.rh_checks.specs.Sums.{AreSums, IsSpan};

use rh_bytes::{Counted, Progress};
use rh_combine_workers::{Form, How, write_answer};
use rh_cutting::KeyList;
use rh_forks::Team;
use std::alloc::AllocError;
use std::io;
use std::thread::Threads;

/// The least and the greatest of some numbers.
#[derive(Clone, Copy, Debug, PartialEq, Eq)]
pub struct Span {
    pub least: u64,
    pub greatest: u64,
}

/// What the numbers of a list are.
#[derive(Clone, Copy, Debug, PartialEq, Eq)]
pub struct Sums {
    /// How many there are, with repeats.
    pub count: u128,
    /// How many different ones.
    pub different: u64,
    /// `None` where there are none.
    pub span: Option<Span>,
}

/// What the keys of the list are. The different ones are counted as `union` would write them, by
/// the team, in some 24 bytes for each key.
pub(crate) fn sums_of<T: Threads + Sync, P: Progress>(
    team: &Team<'_, T>,
    keys: KeyList,
    progress: &mut P,
) -> Result<Sums, AllocError>
    ensures { IfOk result (AreSums (keys_in keys)) }
{
    let count = count_of(keys.pieces());
    let span = span_of(keys.pieces());
    let mut lists = Vec::new(team.alloc);
    lists.push(keys)?;
    let mut nowhere = Counted::new(io::sink());
    let wrote = write_answer(
        team,
        &How::Union,
        Form::Count,
        lists,
        &mut nowhere,
        progress,
    );
    let Ok(different) = wrote else {
        // Only memory can be wanting where nothing is written.
        return Err(AllocError);
    };
    Ok(Sums {
        count,
        different,
        span,
    })
}

/// How many keys the pieces have.
fn count_of(pieces: &[Vec<u64>]) -> u128
    ensures { result ≡ length (flat_map (λ piece. piece.items) pieces.now) }
{
    let mut count = 0;
    for piece in pieces {
        count += piece.len() as u128;
    }
    count
}

/// The least and the greatest key of the pieces.
fn span_of(pieces: &[Vec<u64>]) -> Option<Span>
    ensures { IsSpan (flat_map (λ piece. piece.items) pieces.now) result }
{
    let mut span = None;
    for piece in pieces {
        span = with_numbers(span, piece);
    }
    span
}

/// The same of these numbers too.
fn with_numbers(begun: Option<Span>, numbers: &[u64]) -> Option<Span>
    ensures { (before : List ℕ) → IsSpan before begun → IsSpan (before ++ numbers.now) result }
{
    let mut span = begun;
    for number in numbers {
        span = Some(with_number(span, *number));
    }
    span
}

/// The same of one number more.
fn with_number(span: Option<Span>, number: u64) -> Span
    ensures { (before : List ℕ) → IsSpan before span → IsSpan (before ++ number ∷ []) (Some result) }
{
    match span {
        None => Span {
            least: number,
            greatest: number,
        },
        Some(Span { least, greatest }) => Span {
            least: least.min(number),
            greatest: greatest.max(number),
        },
    }
}
