//! All the room for later claims, made at the start: drafts of claims with their problems, and
//! sheets for defects.
#![tactic(auto)]

mod draft;
mod drafts;
mod laws;
mod sheets;

pub use draft::Draft;
pub use drafts::Drafts;
pub use laws::taken;
pub use sheets::Sheets;
