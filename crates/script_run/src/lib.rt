//! A script that is played on the core of the speculative decoder: what each of its lines does and
//! prints.
#![tactic(auto)]

mod act;
mod event;
mod player;

pub use act::{Act, arrive, finish, turn};
pub use player::{Played, Player};
