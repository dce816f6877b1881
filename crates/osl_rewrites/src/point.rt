//! Program points, and what is around an op: the types in which ways through code are told.

/// A program point of a layer's code.
#[derive(Clone, Copy, Debug, PartialEq, Eq)]
pub enum Spot {
    /// Before the op of this number.
    At(u32),
    /// Before the condition of this loop is read.
    Test(u32),
    /// Before the section of this place.
    Gate(u32),
    /// The layer's end.
    Done,
}

/// The range around an op: where it ends, and where its end and the ways out of it lead.
#[derive(Clone, Copy, Debug, PartialEq, Eq)]
pub struct Around {
    pub end: u32,
    pub next: Spot,
    pub breaks: Spot,
    pub continues: Spot,
    pub returns: Spot,
}
