//! The program that `benchmarks/phases` times: phases by one worker and by several, and random ones
//! of both kinds of runner beside one another.
#![tactic(auto)]

mod call;
mod line;
mod random;
mod stress;
mod timed;

use line::Line;
use std::env;
use std::env::Env;
use std::process::ExitCode;
use std::sync::Wait;
use std::thread::Threads;
use std::time::Clock;

const USAGE: &str = "usage: rh_phase_bench stress PHASES SEED
       rh_phase_bench call insert|ask|remove WORKERS
       rh_phase_bench insert|ask|remove KEYS WORKERS
  stress   makes so many random phases on small tables, by 2 to 16 workers and by one, and compares
           what comes of them
  call     makes one small phase, and tells what came of it and what the cells hold then
  KEYS     so many keys that look random are inserted into an empty table, looked up in it, or
           removed from it: 1 to 196608
  WORKERS  1 to 16 workers at one table, or 0 for one that has it alone";

fn main(rt: HostRuntime) -> ExitCode {
    match carry_out(&rt) {
        Ok(()) => ExitCode::SUCCESS,
        Err(fault) => {
            let _ = eprintln!(rt; "{fault}");
            ExitCode::FAILURE
        }
    }
}

fn carry_out(
    rt: &(impl Env + Threads + Wait + Sync + Clock + Print + AllocGlobal),
) -> Result<(), &'static str> {
    let args = env::args(rt).map_err(|_| "cannot read the command line")?;
    let words: Vec<String> = args.collect(rt.alloc()).map_err(|_| "out of memory")?;
    let Some(line) = words.get(1..).and_then(line::parse_line) else {
        return Err(USAGE);
    };
    let printed = match line {
        Line::Stress { phases, seed } => {
            stress::compare(rt, phases, seed)?;
            println!(rt; "{phases} phases, each as one worker makes it")
        }
        Line::Call { kind, workers } => return call::tell(rt, kind, workers),
        Line::Timed {
            kind,
            keys,
            workers,
        } => {
            let took = timed::phase(rt, kind, keys, workers)?;
            println!(rt; "{keys} keys in {} microseconds", took.as_micros())
        }
    };
    printed.map_err(|_| "cannot write the output")
}
