//! What `rhset` does without a script, and its command line.

use clap::Error;
use rh_arguments::LineFault;
use rh_commands::line::Line;
use rh_commands::{CheckFault, DumpFault};
use rh_files::{Counted, KeyFault, SnapFault};
use std::alloc::Global;
use std::io::{Read, Write};

pub fn dump_keys<R: Read, W: Write>(
    alloc: Global,
    reader: &mut Counted<R>,
    writer: &mut Counted<W>,
) -> Result<(), DumpFault> {
    rh_commands::dump_keys(alloc, reader, writer)
}

pub fn check_snapshot<R: Read, W: Write>(
    alloc: Global,
    reader: &mut Counted<R>,
    writer: &mut Counted<W>,
) -> Result<(), CheckFault> {
    rh_commands::check_snapshot(alloc, reader, writer)
}

pub fn words_asked(alloc: Global, words: &[String]) -> Result<Line, LineFault> {
    rh_commands::line::line(alloc, words)
}

pub fn variants(dump: DumpFault, check: CheckFault, line: &Line, words: &LineFault) {
    match dump {
        DumpFault::Keys(fault) => {
            let _: KeyFault = fault;
        }
        DumpFault::TooLarge | DumpFault::Memory | DumpFault::Write => {}
    }
    match check {
        CheckFault::Snap(fault) => {
            let _: SnapFault = fault;
        }
        CheckFault::Write => {}
    }
    match line {
        Line::Dump => {}
        Line::Run { workers, script } => {
            let _: &usize = workers;
            let _: &String = script;
        }
        Line::Check { snapshot } => {
            let _: &String = snapshot;
        }
    }
    match words {
        LineFault::Words(error) => {
            let _: &Error = error;
        }
        LineFault::Memory => {}
    }
}
