//! Why a configuration isn't read.

use pm_types::Field;
use thiserror::Error;

/// Why a configuration isn't read.
#[derive(Clone, Copy, Debug, PartialEq, Eq, Error)]
pub enum ConfigFault {
    /// The configuration is refused: the first of the tests that refuses it has this name. Mend that field.
    #[error("the configuration is refused")]
    Bad(Field),
    /// Out of memory. The configuration may be good.
    #[error("out of memory")]
    Memory,
}
