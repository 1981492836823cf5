//! What the words of the command line ask for.

/// A command, with its arguments.
#[derive(Drop)]
pub enum Line {
    /// Write the table of the keys on standard input.
    Dump,
    /// Carry out the commands of the file `script`, each with this many workers.
    Run { workers: usize, script: String },
    /// Tell of the file `snapshot` what table it holds.
    Check { snapshot: String },
}
