// Parts of concepts, and reach of roles.
#![tactic(auto)]

pub mod parts; // parts.rt: marking what the parts of a concept contain, and containment
pub mod roles; // roles.rt: the square of role reach, and its one reader

pub use parts::{contains, mark_parts};
pub use roles::{Square, close_roles, reaches};
