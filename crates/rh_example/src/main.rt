//! Three uses of the public crates: a script over files in memory, a set of one worker, and two
//! threads that swap cells of one table.
#![tactic(auto)]

mod script;
mod set;
mod swaps;

use script::shared_keys;
use set::Pair;
use std::io::{self, Write};
use swaps::moved_by_two;

fn main(rt: HostRuntime) -> anyhow::Result<()> {
    let told = shared_keys(&rt, rt.alloc())?;
    io::writer(&rt).write_all(&told.text)?;
    let (commands, held) = (told.report.commands, told.report.held);
    println!(rt; "{commands} commands, {held} keys held")?;
    println!(rt;
        "told by one worker and by four, the same: {}",
        told.is_same
    )?;

    let squares = Pair::of_squares(rt.alloc())?;
    println!(rt; "9 is a square: {}", squares.first.has(9))?;
    println!(rt; "made in two ways, the same cells: {}", squares.are_same())?;

    let cells = moved_by_two(&rt, rt.alloc())?;
    let both = cells[2].saturating_add(cells[6]);
    println!(rt; "moved by two threads, in both cells: {both}")?;
    Ok(())
}
