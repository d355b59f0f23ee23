/// The first fault, from left to right, of a line that spells no event. A place is the offset of a byte in the line,
/// from 0.
#[derive(Clone, Copy)]
pub enum LineError {
    /// The first field is no number.
    BadTime,
    /// The second field is no word of an act, or the fourth field of a `finish` line is neither `ok` nor `fail`.
    BadWord,
    /// A number is due in the field that begins here, or the line ends here, or it is a limit above 1,000.
    BadNumber(u64),
    /// Something follows the last field: the place of the space before it.
    Extra(u64),
}
