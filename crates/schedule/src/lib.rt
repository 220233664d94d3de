// What decides whether execution times are in time: two schedulability tests, and layers over them.
#![tactic(auto)]

pub mod any_change;
pub mod any_change_laws;
pub mod busy_period;
pub mod change;
pub mod changes;
pub mod charge;
pub mod demand;
mod due;
pub mod earliest_deadline;
pub mod fixed_priority;
mod horizon;
pub mod layer;
pub mod margin;
pub mod pile;
mod requests;
mod response;
mod shape;
pub mod test;
pub mod timed_tasks;
pub mod timing_test;
