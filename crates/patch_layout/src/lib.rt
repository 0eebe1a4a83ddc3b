//! The rotated surface code: regions of qubits, their checks and supports, and the regions of a
//! schedule's patches and merges.
#![tactic(auto)]

mod code;
mod items;
mod regions;
mod types;

pub use code::{checks, covers, has_qubit, is_check, kind, support};
pub use items::{init_line, merge_line, read_line};
pub use regions::{is_beside, merged_region, patch_region, seam_basis, seam_region};
pub use surface_model::Basis;
pub use types::{Corner, Qubit, Region, Support};
