ghost use Rattle.std.specs.Prelude.{◌≡◌, Some, None};
ghost use Rattle.listing.specs.Refusals.{check_refusal};
ghost use Rattle.listing.specs.declared.fault.CheckFault.TheVariants.{Sheet, NoMemory};

use crate::check::MOST_BYTES;
use job::refusal::Refusal;
use spelling::fault::SheetFault;
use std::alloc::AllocError;
use thiserror::Error;

// Why a sheet has no report.
#[derive(Clone, Copy, PartialEq, Eq, Debug, Error)]
pub enum CheckFault {
    // more bytes than a sheet may have
    #[error("The sheet is too long: at most {most} bytes are allowed.", most = MOST_BYTES)]
    TooLong,
    #[error(transparent)]
    Sheet(SheetFault),
    // no memory was left for the answer; this is no fault of the sheet
    #[error("No memory is left for the answer.")]
    NoMemory,
}

// Written out, since a derived `From` does not say which fault it gives.
impl From<SheetFault> for CheckFault {
    ghost from_gives = { λ e r. r ≡ Sheet e };

    fn from(e: SheetFault) -> CheckFault {
        CheckFault::Sheet(e)
    }
}

// Written out, since the error is not kept.
impl From<AllocError> for CheckFault {
    ghost from_gives = { λ _ r. r ≡ NoMemory };

    fn from(_e: AllocError) -> CheckFault {
        CheckFault::NoMemory
    }
}

impl CheckFault {
    // The numbers by which it is reported; want of memory has none, so this is no `From`.
    pub fn refusal(self) -> Option<Refusal>
        ensures { result ≡ check_refusal self }
    {
        match self {
            CheckFault::TooLong => Some(Refusal::at_line(13, 0)),
            CheckFault::Sheet(fault) => Some(Refusal::from(fault)),
            CheckFault::NoMemory => None,
        }
    }
}
