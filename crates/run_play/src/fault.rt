//! Refusals.

ghost use Rattle.std.specs.Prelude.{◌≡◌, Some};
ghost use Rattle.uni_script.specs.declared.fault.BenchFault.{BenchFault as Fault};
ghost use Rattle.run_play.specs.Fault.{play_fault_text};

use run_graph::ExploreFault;
use std::alloc::AllocError;
use std::fmt;
use uni_script::BenchFault;

/// Why there is no page.
#[derive(Clone, Copy, Debug, PartialEq, Eq)]
pub enum PlayFault {
    /// The script has this fault, or its run has.
    Script(BenchFault),
    /// A command of the script is refused.
    Refused,
    /// The script ends an era, or begins at another number than 1.
    Eras,
    /// There are more than 20,000 worlds.
    TooManyWorlds,
}

impl fmt::Display for PlayFault {
    ghost output = { λ fault. Some (play_fault_text fault) };

    fn fmt<W: fmt::Write>(&self, f: &mut fmt::Formatter<W>) -> fmt::Result {
        match self {
            PlayFault::Script(fault) => write!(f, "{fault}"),
            PlayFault::Refused => write!(f, "a command of the script is refused"),
            PlayFault::Eras => write!(f, "the script has more than one era"),
            PlayFault::TooManyWorlds => write!(f, "there are more than 20,000 worlds"),
        }
    }
}

impl From<BenchFault> for PlayFault {
    ghost use Rattle.run_play.specs.declared.fault.PlayFault.TheVariants.{Script};

    ghost from_gives = { λ of fault. fault ≡ Script of };

    fn from(fault: BenchFault) -> PlayFault {
        PlayFault::Script(fault)
    }
}

impl From<AllocError> for PlayFault {
    ghost use Rattle.run_play.specs.declared.fault.PlayFault.TheVariants.{Script};
    ghost use Rattle.uni_script.specs.declared.fault.BenchFault.TheVariants.{Memory};

    ghost from_gives = { λ _ fault. fault ≡ Script Memory };

    fn from(_: AllocError) -> PlayFault {
        PlayFault::Script(BenchFault::Memory)
    }
}

/// The fault of a page whose graph isn't found. A world of a run that was stored can be opened, but for memory.
pub(crate) fn of_graph(fault: ExploreFault) -> PlayFault
    ensures { (e : Fault) → result ≡ PlayFault.Script e → e ≡ Fault.Memory }
{
    match fault {
        ExploreFault::Limit => PlayFault::TooManyWorlds,
        ExploreFault::Opening(_) | ExploreFault::Memory => PlayFault::Script(BenchFault::Memory),
    }
}
