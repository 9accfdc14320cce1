//! Keys, the places that hold them, and the table of a box.
#![tactic(auto)]

pub mod counts;
pub mod key;
pub mod place;
pub mod places;
pub mod refusal;
pub mod role;
pub mod slot;
pub mod stamp;
pub mod table;
pub mod tag;
