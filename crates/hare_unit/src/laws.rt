//! What holds of programs, whatever the stores with which their checking ends.

ghost use Rattle.hare_unit.specs.Programs.{FaultsMeet, JudgedMeetLimits, NamesAreOne};

use hare_sole::law_one_fault_of_phases;
use hare_sources::law_one_early_fault;

/// The files of a program have one list of trees, and their paths one meaning.
pub fn law_names_are_one()
    ensures { NamesAreOne }
{
    law_one_early_fault();
}

/// Two stores with which the checking of a program may end tell the same, where some store goes on from both: the same first fault, or where
/// all is judged over the one none over the other but one of limits.
pub fn law_faults_meet()
    ensures one { FaultsMeet }
    ensures left { JudgedMeetLimits }
{
    law_one_fault_of_phases();
}
