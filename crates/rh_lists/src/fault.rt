//! Why a list was not read, or a command on lists ends early.

ghost use Rattle.std.specs.Prelude.{◌≡◌};
ghost use Rattle.rh_lists.specs.declared.fault.ListFault.TheVariants.{Keys, Text};

use rh_key_files::KeyFault;
use rh_numbers::TextFault;
use rh_shelf::ShelfFault;
use thiserror::Error;

/// Why a list was not read.
#[derive(Clone, Copy, Debug, PartialEq, Eq, Error)]
pub enum ListFault {
    /// The text is refused, or could not be read, also for want of memory. Never `TooMany`.
    #[error(transparent)]
    Text(TextFault),
    /// The key file is refused, or could not be read, also for want of memory. Never `TooMany` or
    /// `NotKeys`.
    #[error(transparent)]
    Keys(KeyFault),
}

impl From<TextFault> for ListFault {
    ghost from_gives = { λ fault given. given ≡ Text fault };

    fn from(fault: TextFault) -> ListFault {
        ListFault::Text(fault)
    }
}

impl From<KeyFault> for ListFault {
    ghost from_gives = { λ fault given. given ≡ Keys fault };

    fn from(fault: KeyFault) -> ListFault {
        ListFault::Keys(fault)
    }
}

/// Why a list could not be read.
#[derive(Clone, Copy, Debug, PartialEq, Eq, Error)]
pub enum FileFault {
    /// The file could not be opened. Never `ShelfFault::Write`.
    #[error(transparent)]
    Shelf(ShelfFault),
    /// The list is refused, or could not be read, also for want of memory.
    #[error(transparent)]
    List(ListFault),
}

impl From<ShelfFault> for FileFault {
    ghost use Rattle.std.specs.Prelude.{◌≡◌};
    ghost use Rattle.rh_lists.specs.declared.fault.FileFault.TheVariants.{Shelf};

    ghost from_gives = { λ fault given. given ≡ Shelf fault };

    fn from(fault: ShelfFault) -> FileFault {
        FileFault::Shelf(fault)
    }
}

impl From<ListFault> for FileFault {
    ghost use Rattle.std.specs.Prelude.{◌≡◌};
    ghost use Rattle.rh_lists.specs.declared.fault.FileFault.TheVariants.{List};

    ghost from_gives = { λ fault given. given ≡ List fault };

    fn from(fault: ListFault) -> FileFault {
        FileFault::List(fault)
    }
}

/// Why nothing was written of the lists, or not all.
#[derive(Clone, Copy, Debug, PartialEq, Eq)]
pub enum CommandFault {
    /// The list at this place has this fault, those before it have none, and nothing was written.
    List { index: usize, fault: FileFault },
    /// Memory ran out behind the reading. A front may have been written.
    Memory,
    /// A write failed. A front may have been written.
    Write,
}
