// Parts of lists.

/// The elements of a list from one place to just below another.
#[derive(Clone, Copy, Debug, PartialEq, Eq)]
pub(crate) struct Part {
    pub from: usize,
    pub to: usize,
}
