use crate::checks::role::Role;

/// A range that a walk over ops has entered or will enter.
#[derive(Clone, Copy, Debug, PartialEq, Eq)]
pub struct Open {
    pub start: u32,
    pub end: u32,
    pub role: Role,

    /// How many ranges, one in another, it is the innermost of.
    pub depth: u32,

    /// Whether the innermost body from it outwards is a loop's.
    pub in_loop: bool,
}

/// What an op is in.
#[derive(Clone, Copy, Debug, PartialEq, Eq)]
pub struct Inside {
    /// Where the innermost range ends, or else the section.
    pub end: u32,

    /// How many ranges it is in.
    pub depth: u32,

    /// Whether it is in a loop's body, with no call between.
    pub in_loop: bool,
}

/// What a walk over ranges finds.
#[derive(Clone, Copy, Debug, PartialEq, Eq)]
pub struct RangeFaults {
    /// The first op whose jumps, or whose `break` or `continue`, are not valid.
    pub jump: Option<u32>,

    /// The first op before it whose ranges nest too deep.
    pub deep: Option<u32>,
}
