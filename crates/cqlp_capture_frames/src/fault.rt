//! Why the text of what happens ends early.

use cqlp_grammar::SinkFault;
use cqlp_note::NoMemory;

/// What ends the text of what happens early.
#[derive(Clone, Copy)]
pub enum ReportFault {
    /// The output failed.
    Write,
    /// Memory is refused.
    NoMemory,
}

impl From<SinkFault> for ReportFault {
    ghost use Rattle.std.specs.Prelude.{◌≡◌};
    ghost use Rattle.cqlp_capture_frames.specs.declared.fault.ReportFault.TheVariants.{Write};

    ghost from_gives = { λ _ fault. fault ≡ Write };

    fn from(_: SinkFault) -> ReportFault {
        ReportFault::Write
    }
}

impl From<NoMemory> for ReportFault {
    ghost use Rattle.std.specs.Prelude.{◌≡◌};
    ghost use Rattle.cqlp_capture_frames.specs.declared.fault.ReportFault.TheVariants.{NoMemory};

    ghost from_gives = { λ _ fault. fault ≡ NoMemory };

    fn from(_: NoMemory) -> ReportFault {
        ReportFault::NoMemory
    }
}
