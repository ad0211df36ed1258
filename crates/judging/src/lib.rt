// A step judged by the table: at its post, and on its track.

#![tactic(auto)]

pub mod at_post;
pub mod on_track;
mod table;
