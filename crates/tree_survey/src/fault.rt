//! Why a scan of an image ends early.
ghost use Rattle.std.specs.Prelude.{◌≡◌};
ghost use Rattle.tree_survey.specs.declared.fault.SurveyFault.TheVariants as survey_fault;
ghost use Rattle.verity_format.specs.declared.verifying.VerifyFault.TheVariants as verify_fault;

use allocation::OutOfMemory;
use program_io::WriteFault;
use verity_format::VerifyFault;

/// Why a scan of an image ends early.
#[derive(Clone, Copy, Debug, PartialEq, Eq)]
pub enum SurveyFault {
    /// There is no superblock, a device is too small or failed, or an allocation was refused.
    Image(VerifyFault),
    /// A line can't be reported.
    Write,
}

impl From<VerifyFault> for SurveyFault {
    ghost from_gives = { λ fault given. given ≡ survey_fault.Image fault };

    fn from(fault: VerifyFault) -> SurveyFault {
        SurveyFault::Image(fault)
    }
}

impl From<OutOfMemory> for SurveyFault {
    ghost from_gives = { λ _ given. given ≡ survey_fault.Image verify_fault.NoMemory };

    fn from(_error: OutOfMemory) -> SurveyFault {
        SurveyFault::Image(VerifyFault::NoMemory)
    }
}

impl From<WriteFault> for SurveyFault {
    ghost from_gives = { λ _ given. given ≡ survey_fault.Write };

    fn from(_fault: WriteFault) -> SurveyFault {
        SurveyFault::Write
    }
}
