//! Why a text is no number or duration.

/// The first fault of a text. A place is the offset of a byte, from 0, or the text's length where its end is the fault.
#[derive(Clone, Copy)]
pub enum NumError {
    /// The text has no bytes.
    Empty,
    /// A digit was due here, or the end.
    BadByte(usize),
    /// The fourth decimal digit, or the unit of a part that is no whole number of milliseconds.
    TooFine(usize),
    /// The text is in the grammar, and its value is above the greatest.
    TooLarge,
    /// A unit was due here.
    NoUnit(usize),
}
