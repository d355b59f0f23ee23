use kn_config::ConfigError;
use kn_revision::SpecError;

/// Why a setup is refused. A place is the offset of a byte in its line, from 0.
#[derive(Clone, Copy)]
pub enum SetupError {
    /// The field that begins here has another name or no number, or is one too many; or the line ends here and lacks one.
    BadField(u64),
    /// The number of the field that begins here is outside its range.
    OutOfRange(u64),
    Config(ConfigError),
    Revision(SpecError),
    /// A block has more than 1,048,576 bytes with this line.
    BlockTooLong,
    /// The first word is not one that may stand there.
    BadWord,
    /// An earlier setup has the same namespace and name.
    Duplicate,
}
