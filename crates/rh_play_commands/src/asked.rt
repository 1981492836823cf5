//! What the words of the command line ask for.

/// A command, with its arguments.
#[derive(Drop)]
pub enum Line {
    /// Let workers take turns as the text `file` says.
    Play {
        file: String,
    },
    /// The same, and tell each step.
    Trace {
        file: String,
    },
    /// Draw the steps of that play, so many from this number on; 0 stands for all.
    Draw {
        from: usize,
        steps: usize,
        file: String,
    },
}
