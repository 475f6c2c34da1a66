// What an edit or an undo answers.

// Both new lengths and the number of entries left.
#[derive(Clone, Copy, Debug, PartialEq, Eq)]
pub struct Done {
    pub len: usize,
    pub used: usize,
    pub entries: usize,
}
