//! What the words of the command line ask for.

use rh_combine::{Form, How};

/// What is asked of lists.
#[derive(Drop)]
pub enum Asked {
    /// What is made of them.
    Made(How),
    /// Which numbers stand in so many of them or more: how many, as it was written.
    AtLeast(String),
    /// Of which numbers an expression is true, as it was written. Each file is then `NAME=FILE`.
    Select(String),
}

/// A command, with its arguments: what is asked of the lists in these files is to be written.
#[derive(Drop)]
pub struct Line {
    pub asked: Asked,
    /// What is written of it; `None` where two forms are asked for.
    pub form: Option<Form>,
    /// How many share the work; 0: as many as there are processors.
    pub workers: usize,
    /// So many lines of each text are passed by.
    pub skip: usize,
    pub files: Vec<String>,
}
