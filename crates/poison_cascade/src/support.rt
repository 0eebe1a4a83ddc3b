//! What a ticket rests on.
use window_model::Origin;

/// What a ticket takes for the result of one dependency of its window: a guess, or the result of
/// the ticket that is named.
#[derive(Clone, Copy)]
pub struct Support {
    pub source: u32,
    pub origin: Origin,
}
