// What a step sees beside the trains: its place on the line, what the tracks do, and what the checks ask of them.

#![tactic(auto)]

pub mod conditions;
pub mod ends;
pub mod line;
pub mod place;
pub mod ruling;
pub mod running;
