// Text for a person: what a sheet holds, or why it is refused.
#![tactic(auto)]

pub mod describe;
pub mod text;
pub mod text_puts;
