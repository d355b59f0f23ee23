//! Why a Revision is refused.
ghost use Rattle.std.specs.Prelude.{◌≡◌};
ghost use Rattle.kn_revision.specs.Revision.{as_fault};

use kn_config::{Key, KeyError};
use kn_num::NumError;

/// The first fault of a Revision.
#[derive(Clone, Copy)]
pub enum SpecError {
    NotJson,
    /// The member isn't there, or a member on the way is no object.
    Missing(Field),
    NotText(Key),
    BadValue(Key, NumError),
    OutOfRange(Key),
    /// The initial scale in force is 0, and the configuration doesn't allow that.
    ZeroInitial,
    Memory,
}

/// A member that a Revision must have.
#[derive(Clone, Copy)]
pub enum Field {
    Namespace,
    Name,
}

impl SpecError {
    /// The fault of a key.
    pub fn of_key(fault: KeyError) -> SpecError
        ensures { result ≡ as_fault fault }
    {
        match fault {
            KeyError::NotText(key) => SpecError::NotText(key),
            KeyError::BadValue(key, why) => SpecError::BadValue(key, why),
            KeyError::OutOfRange(key) => SpecError::OutOfRange(key),
        }
    }
}
