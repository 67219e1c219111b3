//! The status that a program ends with.
ghost use Rattle.std.specs.Prelude.{◌≡◌, MatchResult};
ghost use Rattle.std.specs.Process.{exit_status};

use std::process::ExitCode;

/// The status that a program ends with: 0, or 1 where it fails.
pub fn status<T, E>(outcome: &Result<T, E>) -> ExitCode
    ensures { MatchResult outcome.now (λ _. exit_status result ≡ 0) (λ _. exit_status result ≡ 1) }
{
    match outcome {
        Ok(_) => ExitCode::SUCCESS,
        Err(_) => ExitCode::FAILURE,
    }
}
