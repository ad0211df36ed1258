// Which trains a post sees: in the block sections beside it, on its track, in the stretch that begins at it, and in the part that it commands.

#![tactic(auto)]

pub mod part;
pub mod reach;
pub mod stretch;
pub mod trains;
