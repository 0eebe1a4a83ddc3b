//! Why a line that is written well isn't answered.

#[derive(Clone, Copy, Debug)]
pub(crate) enum Refusal {
    /// A row with a byte that is neither `0` nor `1`.
    BadRow,
    /// A row that hasn't as many bits as its slot.
    WrongWidth,
    /// A row after that of the last slot.
    NoSlot,
    /// An error of a number that the schedule hasn't.
    NoError,
    /// A header of more than 1,048,577 bytes.
    LongHeader,
}
