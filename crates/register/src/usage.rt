// The values of the register.

/// One use of a clue: a paper, and the issue of it that printed the clue.
#[derive(Clone, Copy, PartialEq, Eq, Debug)]
pub struct Use {
    pub paper: u16,
    pub issue: u32,
}
