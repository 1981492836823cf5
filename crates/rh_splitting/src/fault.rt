//! Why a list was not split.

ghost use Rattle.std.specs.Prelude.{◌≡◌};
ghost use Rattle.rh_splitting.specs.declared.fault.SplitFault.TheVariants.{Keys, Text};
ghost use Rattle.rh_splitting.specs.declared.fault.FilesFault.TheVariants as files;

use rh_key_files::KeyFault;
use rh_layout::MAX_KEYS;
use rh_numbers::TextFault;
use rh_shelf::BESIDE;
use thiserror::Error;

/// Why a list was not split, or not all of it. Parts are numbered from 0.
#[derive(Clone, Copy, Debug, PartialEq, Eq, Error)]
pub enum SplitFault {
    /// The text is refused, or could not be read, also for want of memory.
    #[error(transparent)]
    Text(TextFault),
    /// The key file is refused, or could not be read, also for want of memory.
    #[error(transparent)]
    Keys(KeyFault),
    /// The part takes no more keys.
    #[error("part {part:03}: more than {} keys; --plan tells how many parts would do", MAX_KEYS)]
    TooMany { part: u64 },
    #[error("part {part:03}: cannot write the key file")]
    Write { part: u64 },
}

impl From<TextFault> for SplitFault {
    ghost from_gives = { λ fault given. given ≡ Text fault };

    fn from(fault: TextFault) -> SplitFault {
        SplitFault::Text(fault)
    }
}

impl From<KeyFault> for SplitFault {
    ghost from_gives = { λ fault given. given ≡ Keys fault };

    fn from(fault: KeyFault) -> SplitFault {
        SplitFault::Keys(fault)
    }
}

/// Why the key files of the parts were not written. None of them is left then.
#[derive(Clone, Copy, Debug, Error)]
pub enum FilesFault {
    #[error(transparent)]
    Split(SplitFault),
    #[error("part {part:03}: cannot make the key file")]
    Create { part: u64 },
    /// The program has as many open files as the system lets it have.
    #[error("part {part:03}: too many open files, see ulimit -n")]
    TooManyOpen { part: u64 },
    /// All names beside its place are taken.
    #[error("part {part:03}: too many files of runs that were cut: \
         remove {part:03}/NAME.keys{}*", BESIDE)]
    Left { part: u64 },
    #[error("part {part:03}: cannot write the key file")]
    Write { part: u64 },
    #[error("out of memory")]
    Memory,
}

impl From<SplitFault> for FilesFault {
    ghost from_gives = { λ fault given. given ≡ files.Split fault };

    fn from(fault: SplitFault) -> FilesFault {
        FilesFault::Split(fault)
    }
}
