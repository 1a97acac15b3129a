// Why inference or a check does not come to a yes.
ghost use Rattle.std.specs.Prelude.{◌≡◌};
ghost use Rattle.kernel.specs.Failures.{failure_of, limit_of};
ghost use Rattle.kernel.specs.declared.failure.Failure.TheVariants.{NoRoom};

use reduction::reduce::ReduceError;
use terms::copy::WriteError;

// There is no type, or the declaration may not be made; finding out takes more steps than allowed; there is no room for it.
#[derive(Clone, Copy, Debug, PartialEq, Eq)]
pub enum Failure {
    Refused,
    Spent,
    NoRoom,
}

// The same of what cannot be refused.
#[derive(Clone, Copy, Debug, PartialEq, Eq)]
pub enum Limit {
    Spent,
    NoRoom,
}

// Recursors take no step where the environment has no data type, so what stands for that step doesn't matter.
impl From<ReduceError> for Limit {
    ghost from_gives = { λ e l. l ≡ limit_of e };

    fn from(error: ReduceError) -> Limit {
        match error {
            ReduceError::UsedUp => Limit::Spent,
            ReduceError::NoRoom | ReduceError::NotYet => Limit::NoRoom,
        }
    }
}

impl From<Limit> for Failure {
    ghost from_gives = { λ l f. f ≡ failure_of l };

    fn from(limit: Limit) -> Failure {
        match limit {
            Limit::Spent => Failure::Spent,
            Limit::NoRoom => Failure::NoRoom,
        }
    }
}

impl From<WriteError> for Failure {
    ghost from_gives = { λ _ f. f ≡ NoRoom };

    fn from(error: WriteError) -> Failure {
        match error {
            WriteError::NoRoom | WriteError::NoStack => Failure::NoRoom,
        }
    }
}
