// The steps of a reversal, and those for a device that fails, a function a row of the table: the checks in its order, then what the step does.

#![tactic(auto)]

pub mod emergency;
pub mod reversal;
mod walk;
