// The book of tasks: what a planner is given, kept so that no book that breaks a rule can exist.
#![tactic(auto)]

pub mod book;
pub mod book_edits;
pub mod book_lists;
pub mod book_reads;
pub mod class;
mod class_list;
pub mod limits;
mod multiple;
pub mod new_task;
pub mod refusal;
pub mod refusal_text;
pub mod row;
pub mod row_edits;
mod slots;
mod table;
mod table_edits;
pub mod task;
mod task_edits;
