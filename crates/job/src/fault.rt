ghost use Rattle.std.specs.Prelude.{◌≡◌};
ghost use Rattle.job.specs.declared.fault.JobFault.TheVariants.{Field};
ghost use Rattle.job.specs.declared.fault.PreviewFault.TheVariants.{Candidate};

// What is wrong with one field of a job or a wire.
#[derive(Clone, Copy, PartialEq, Eq, Debug)]
pub enum FieldFault {
    // not base-ten digits without leading zeros
    NoNumber,
    // more than the number that is named here
    AboveRange(u32),
    UnknownLetter,
    TooManyPoints,
}

// Why a job is no record.
#[derive(Clone, Copy, PartialEq, Eq, Debug)]
pub enum JobFault {
    Field(FieldFault),
    PointTwice,
}

// Why a preview has no answer.
#[derive(Clone, Copy, PartialEq, Eq, Debug)]
pub enum PreviewFault {
    // the list of marks is not 256 long
    WrongLength,
    Candidate(JobFault),
}

// Both written out, since a derived `From` does not say which fault it gives.
impl From<FieldFault> for JobFault {
    ghost from_gives = { λ e r. r ≡ Field e };

    fn from(e: FieldFault) -> JobFault {
        JobFault::Field(e)
    }
}

impl From<JobFault> for PreviewFault {
    ghost from_gives = { λ e r. r ≡ Candidate e };

    fn from(e: JobFault) -> PreviewFault {
        PreviewFault::Candidate(e)
    }
}
