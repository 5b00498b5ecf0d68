//! Frames of single rows.

/// The rows from `start` on and before `end`.
#[derive(Clone, Copy, PartialEq, Eq, Debug)]
pub struct WindowFrameRange {
    pub start: usize,
    pub end: usize,
}

/// The frame of a row: complete although rows may follow, or with rows still to wait for.
#[derive(Clone, Copy, PartialEq, Eq, Debug)]
pub enum RowFrame {
    Complete(WindowFrameRange),
    Waiting(WindowFrameRange),
}
