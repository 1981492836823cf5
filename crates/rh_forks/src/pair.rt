//! Two calls side by side.

use std::thread::{Threads, join};

/// Calls both, each in a thread of its own, and waits. A call for which no thread can be started is
/// made by the caller.
pub fn both<T: Threads + Sync, F: FnOnce() -> A + Send, G: FnOnce() -> B + Send, A: Send, B: Send>(
    rt: &T,
    first: F,
    second: G,
) -> (A, B)
    requires { F.pre first × G.pre second }
    ensures first { F.post first result.0 }
    ensures second { G.post second result.1 }
{
    let waits = move || -> B
        requires { G.pre second }
        ensures { G.post second result }
    { join(rt, second, || ()).0 };
    join(rt, first, waits)
}
