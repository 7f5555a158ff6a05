//! Counts of static keys: what commands make of them, and why a command is refused.
ghost use Rattle.std.specs.Prelude.{◌≡◌, ◌≤◌};
ghost use Rattle.key_state.specs.After.{greatest_count, refused_count};
ghost use Rattle.key_state.specs.Effects.{counted};

use module_image::Command;
use thiserror::Error;

/// The greatest count of a static key (Linux: `atomic_t`, a signed number of 32 bits).
const GREATEST_COUNT: u32 = 2_147_483_647;

/// Why a command of a static key is refused (Linux: `jump_label.c`).
#[derive(Clone, Copy, Debug, PartialEq, Eq, Error)]
pub enum CountRefused {
    /// One can't be taken from the count 0.
    #[error("the count is 0")]
    Zero,
    /// One can't be added to the count 2147483647.
    #[error("the count is the greatest")]
    Greatest,
    /// A key is enabled or disabled at the counts 0 and 1 alone; the count, which is above.
    #[error("the count is {0}")]
    Above(u32),
}

impl CountRefused {
    /// The count at which the command is refused.
    pub fn count(self) -> u32
        ensures { result ≡ refused_count self }
    {
        match self {
            CountRefused::Zero => 0,
            CountRefused::Greatest => GREATEST_COUNT,
            CountRefused::Above(count) => count,
        }
    }
}

/// The count of a static key after a command on it; the same after a command on anything else.
///
/// # Errors
/// `Zero` where one is taken from 0, `Greatest` where one is added to 2147483647, `Above` where a key with a count above 1
/// is enabled or disabled.
pub fn count_after(command: Command, count: u32) -> Result<u32, CountRefused>
    requires { count ≤ greatest_count }
    ensures { result ≡ counted command count }
{
    match (command, count) {
        (Command::Inc(_), GREATEST_COUNT) => Err(CountRefused::Greatest),
        (Command::Inc(_), _) => Ok(count + 1),
        (Command::Dec(_), 0) => Err(CountRefused::Zero),
        (Command::Dec(_), _) => Ok(count - 1),
        (Command::Enable(_), 0 | 1) => Ok(1),
        (Command::Enable(_), _) => Err(CountRefused::Above(count)),
        (Command::Disable(_), 0 | 1) => Ok(0),
        (Command::Disable(_), _) => Err(CountRefused::Above(count)),
        (Command::Target(_, _) | Command::Trace(_, _) | Command::TraceAll(_), _) => Ok(count),
    }
}
