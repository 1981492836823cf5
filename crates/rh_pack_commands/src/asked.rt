//! What the words of the command line ask for.

/// A command, with its arguments. `skip` lines of each text are passed by.
#[derive(Drop)]
pub enum Line {
    /// Tell of each of these files in turn which lines of it are bad, and what its numbers are.
    /// None stands for standard input.
    Check {
        skip: usize,
        files: Vec<String>,
    },
    /// Write the key file of the numbers in this file: one at the most, and none stands for
    /// standard input.
    Pack {
        skip: usize,
        files: Vec<String>,
    },
    /// Write keys as text, those of a key file, or of a snapshot: of each of these files in turn,
    /// or of standard input where none is named.
    List {
        snapshot: bool,
        files: Vec<String>,
    },
    /// Split the numbers in this file, or the keys of it where it is a key file, into this many
    /// parts, with a key file `name` each; or plan that alone, and tell how many keys each part
    /// has. 0 parts: as many as the size of the file asks for. There is one file at the most, and
    /// none stands for standard input.
    Split {
        parts: usize,
        key_file: bool,
        plan: bool,
        name: String,
        skip: usize,
        files: Vec<String>,
    },
}
