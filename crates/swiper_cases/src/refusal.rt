//! Why a line that is written well can't be taken.

#[derive(Clone, Copy, Debug)]
pub(crate) enum Refusal {
    /// A text that no earlier lines give.
    UnknownText,
    /// The number of no line that the case has so far.
    NoLine,
    /// A case that ends without what is expected of it.
    NothingExpected,
}
