//! Why a call was not done.
ghost use Rattle.std.specs.Prelude.{◌≡◌};
ghost use Rattle.hags_cli.specs.Endings.{ending_of_input, ending_of_script, ending_of_play};
ghost use Rattle.hags_cli.specs.declared.ending.Ending.TheVariants as ending;
ghost use Rattle.link_use.specs.declared.stop.Stop.TheVariants as stop;

use crate::input::InputFault;
use link_use::Stop;
use play_state::PlayFault;
use rsct_packet::NoMemory;
use script_reader::ScriptFault;
use world_model::LineWhy;

/// How a call ended that was not done. `BadLine` has the number of the first line that is in no script, and the first
/// reason. `Stop` is also that of a command that works over no link: it has no memory, or its write failed.
#[derive(Clone, Copy, Debug, PartialEq, Eq)]
pub enum Ending {
    Usage,
    BadLine(u32, LineWhy),
    ReadFault,
    TooMuchKept,
    Stop(Stop),
}

impl From<NoMemory> for Ending {
    ghost from_gives = { λ _ e. e ≡ ending.Stop stop.NoMemory };

    fn from(_e: NoMemory) -> Ending {
        Ending::Stop(Stop::NoMemory)
    }
}

impl From<Stop> for Ending {
    ghost from_gives = { λ why e. e ≡ ending.Stop why };

    fn from(stop: Stop) -> Ending {
        Ending::Stop(stop)
    }
}

impl From<InputFault> for Ending {
    ghost from_gives = { λ f e. e ≡ ending_of_input f };

    fn from(fault: InputFault) -> Ending {
        match fault {
            InputFault::ReadFault => Ending::ReadFault,
            InputFault::NoMemory => Ending::Stop(Stop::NoMemory),
        }
    }
}

impl From<ScriptFault> for Ending {
    ghost from_gives = { λ f e. e ≡ ending_of_script f };

    fn from(fault: ScriptFault) -> Ending {
        match fault {
            ScriptFault::Line(number, why) => Ending::BadLine(number, why),
            ScriptFault::NoMemory => Ending::Stop(Stop::NoMemory),
        }
    }
}

impl From<PlayFault> for Ending {
    ghost from_gives = { λ f e. e ≡ ending_of_play f };

    fn from(fault: PlayFault) -> Ending {
        match fault {
            PlayFault::Kept(_) => Ending::TooMuchKept,
            PlayFault::WriteFault => Ending::Stop(Stop::WriteFault),
            PlayFault::NoMemory => Ending::Stop(Stop::NoMemory),
        }
    }
}
