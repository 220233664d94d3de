// A task as it is given to a book, before any rule is checked.

/// The parts of a task that is to be taken into a book, under no rule yet.
#[derive(Clone, Copy)]
pub struct NewTask<'a> {
    pub number: u8,
    /// The least ticks between two releases.
    pub period: u32,
    pub deadline: u32,
    /// The worst-case execution time in each partition class, from class 0 up.
    pub times: &'a [u32],
}
