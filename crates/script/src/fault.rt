// Why a line of a script is not taken. Knows nothing of lines.
ghost use Rattle.std.specs.Prelude.{◌≡◌, Some};
ghost use Rattle.script.specs.declared.fault.Fault.TheVariants.{NotACall, Memory};
ghost use Rattle.script.specs.Words.{fault_words};

use std::alloc::{AllocError, AllocFailed};
use std::fmt;
use std::num::ParseIntError;

/// Why a line is not taken.
#[derive(Clone, Copy, PartialEq, Eq, Hash, Debug)]
pub enum Fault {
    /// It is none of the forms of a call.
    NotACall,
    /// The file that it names cannot be read.
    Unreadable,
    /// There is no memory for it.
    Memory,
}

impl fmt::Display for Fault {
    ghost output = { λ fault. Some (fault_words fault) };

    fn fmt<W: fmt::Write>(&self, f: &mut fmt::Formatter<W>) -> fmt::Result {
        match self {
            Fault::NotACall => f.write_str("not a call"),
            Fault::Unreadable => f.write_str("the file cannot be read"),
            Fault::Memory => f.write_str("no memory is left"),
        }
    }
}

impl From<ParseIntError> for Fault {
    ghost from_gives = { λ _ r. r ≡ NotACall };

    fn from(_e: ParseIntError) -> Fault {
        Fault::NotACall
    }
}

impl From<AllocError> for Fault {
    ghost from_gives = { λ _ r. r ≡ Memory };

    fn from(_e: AllocError) -> Fault {
        Fault::Memory
    }
}

impl<T: Drop> From<AllocFailed<T>> for Fault {
    ghost from_gives = { λ _ r. r ≡ Memory };

    fn from(_e: AllocFailed<T>) -> Fault {
        Fault::Memory
    }
}
