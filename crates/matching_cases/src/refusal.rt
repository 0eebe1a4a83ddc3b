//! Why a line that is written well isn't answered.

#[derive(Clone, Copy, Debug)]
pub(crate) enum Refusal {
    /// A line with too few words.
    FewWords,
    /// Edges that make no part: one that doesn't fit, or a place without an edge that ends free.
    NoPart,
    /// A defect at no place of the part.
    NoPlace,
    /// Edges of a set that don't ascend.
    NotAscending,
}
