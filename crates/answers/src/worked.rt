//! The worked cases of the documentation.
ghost use Rattle.answers.specs.Worked.{all_worked, AllWorkedCasesHold};
ghost use Rattle.std.specs.Prelude.{◌≡◌, length};

/// How many worked cases there are. By the definitions each of them comes out as it is due.
pub fn worked_cases() -> usize
    ensures hold { AllWorkedCasesHold }
    ensures count { result ≡ length all_worked }
{
    16
}
