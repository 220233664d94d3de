// Sheets: a book as bytes, for the line between the planner and whoever keeps its books.
#![tactic(auto)]

pub mod fault;
pub mod load;
mod read;
mod reader;
pub mod write;
mod writer;
