//! Why a script is not read.
ghost use Rattle.std.specs.Prelude.{◌≡◌};
ghost use Rattle.script_reader.specs.declared.faults.LineFault.TheVariants as line_fault;
ghost use Rattle.script_reader.specs.declared.faults.ScriptFault.TheVariants as script_fault;
ghost use Rattle.script_reader.specs.Faults.{fault_at};

use rsct_packet::NoMemory;
use thiserror::Error;
use world_model::LineWhy;

/// Why a line is not read: it is in no script, or memory has run out.
#[derive(Clone, Copy, Debug, PartialEq, Eq)]
pub enum LineFault {
    Bad(LineWhy),
    NoMemory,
}

impl From<NoMemory> for LineFault {
    ghost from_gives = { λ _ e. e ≡ line_fault.NoMemory };

    fn from(_e: NoMemory) -> LineFault {
        LineFault::NoMemory
    }
}

impl LineFault {
    /// The fault of a script whose line of this number has this fault.
    pub fn at(self, number: u32) -> ScriptFault
        ensures { result ≡ fault_at number self }
    {
        match self {
            LineFault::Bad(why) => ScriptFault::Line(number, why),
            LineFault::NoMemory => ScriptFault::NoMemory,
        }
    }
}

/// Why no script is read: the number of the first line that is in no script, from 1 on, with the first reason, or
/// memory has run out.
#[derive(Clone, Copy, Debug, PartialEq, Eq, Error)]
pub enum ScriptFault {
    #[error("line {0}: {1:?}")]
    Line(u32, LineWhy),
    #[error("no memory")]
    NoMemory,
}
