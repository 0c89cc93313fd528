//! What stops the program.

ghost use Rattle.std.specs.Prelude.{◌≡◌, ◌⊎◌};
ghost use Rattle.unicheck_run.specs.Stopped.{status_of_stop};

use history_picture::PictureError;
use history_text::Fault;
use std::alloc::AllocError;
use std::io::Write;

/// What stops the program before it has an answer, or before that is written.
#[derive(Clone, Copy, Debug)]
pub(crate) enum Stop {
    /// A line is refused.
    Refused(Fault),
    /// The input failed.
    Input,
    /// The output failed.
    Output,
    /// Memory was refused.
    Memory,
    /// The history has too many calls for a picture.
    TooManyCalls,
    /// The drawing doesn't show the history. None is known of which it is so.
    Misdrawn,
}

impl From<AllocError> for Stop {
    ghost use Rattle.std.specs.Prelude.{◌≡◌};
    ghost use Rattle.unicheck_run.specs.declared.stop.Stop.TheVariants.{Memory};

    ghost from_gives = { λ _ stop. stop ≡ Memory };

    fn from(_: AllocError) -> Stop {
        Stop::Memory
    }
}

impl From<PictureError> for Stop {
    ghost use Rattle.std.specs.Prelude.{◌≡◌};
    ghost use Rattle.unicheck_run.specs.Stopped.{stop_of};

    ghost from_gives = { λ error stop. stop ≡ stop_of error };

    fn from(error: PictureError) -> Stop {
        match error {
            PictureError::TooManyCalls => Stop::TooManyCalls,
            PictureError::Memory => Stop::Memory,
            PictureError::Disorderly | PictureError::Misdrawn => Stop::Misdrawn,
        }
    }
}

/// Says what stopped the program, as far as the end takes it; the answer is the status.
pub(crate) fn tell_stop<F: Write>(why: Stop, faults: &mut F) -> u8
    ensures status { result ≡ status_of_stop why }
    ensures statuses { ((result ≡ 2) ⊎ (result ≡ 3)) ⊎ (result ≡ 4) }
{
    match why {
        Stop::Refused(fault) => {
            let _ = writeln!(faults, "{fault}");
            2
        }
        Stop::Input => {
            let _ = writeln!(faults, "cannot read");
            3
        }
        Stop::Output => {
            let _ = writeln!(faults, "cannot write");
            3
        }
        Stop::Memory => {
            let _ = writeln!(faults, "out of memory");
            4
        }
        Stop::TooManyCalls => {
            let _ = writeln!(faults, "too many calls for a picture: at most 400");
            2
        }
        Stop::Misdrawn => {
            let _ = writeln!(faults, "the picture does not show the history");
            3
        }
    }
}
