//! A call for each index below a number.

ghost use Rattle.std.specs.Thread.{IsSend, IsSync};
ghost use Rattle.std.specs.Prelude.{◌≡◌, ℕ, ◌<◌, IfOk, vec_len};
ghost use Rattle.std.specs.Fn.{FnReturns};
ghost use Rattle.std.specs.Fork.{GivesEach};

use std::alloc::{AllocError, Global};
use std::thread::{Threads, join};

/// Calls f(0) to f(n - 1), each in a thread of its own, waits, and gives the results in order.
/// `AllocError` comes only for want of memory.
///
/// All threads are started by the caller, whose stack grows with n: for some dozens.
#[cycle(indices)]
pub fn map_indices<T: Threads + Sync, X: Send + Drop, F: Fn(usize) -> X + Sync>(
    rt: &T,
    alloc: Global,
    n: usize,
    f: &F,
) -> Result<Vec<X>, AllocError>
    requires { (i : ℕ) → i < n → F.pre f.now i }
    ensures len { IfOk result (λ v. vec_len v ≡ n) }
    ensures each { IfOk result (λ v. GivesEach F.Fn f.now n v.items) }
{
    if n == 0 {
        return Ok(Vec::new(alloc));
    }
    let last = n - 1;
    let theirs = move || -> X
        requires { F.pre f.now last }
        ensures { FnReturns F.Fn f.entry.now (last, tt) result }
    { f(last) };
    let before = move || -> Result<Vec<X>, AllocError>
        requires { IsSync T.row × IsSync F.row × IsSend X.row
            × ((i : ℕ) → i < last → F.pre f.now i) }
        ensures { IfOk result (λ v. (vec_len v ≡ last) × GivesEach F.Fn f.entry.now last v.items) }
    { map_indices(rt, alloc, last, f) };
    let (result, results) = join(rt, theirs, before);
    let mut results = results?;
    results.push(result)?;
    Ok(results)
}
