/// Stands round each piece of a worker's or an editor's work, so that a test can hold a caller until another has come
/// to its own piece.
///
/// Worker w is `who = w`, and editor e is `who = 16 + e`. The pieces of one caller are counted by `turn`, from 0.
pub trait Gate {
    /// Comes before the piece reads or writes anything shared.
    fn before(&self, who: u32, turn: u32);

    /// Comes when the piece is done.
    fn after(&self, who: u32, turn: u32);
}

/// Holds nobody.
#[derive(Clone, Copy, Debug)]
pub struct NoGate;

impl Gate for NoGate {
    fn before(&self, _who: u32, _turn: u32) {}

    fn after(&self, _who: u32, _turn: u32) {}
}
