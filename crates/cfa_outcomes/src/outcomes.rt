// What became of a promise.

/// What became of an instance of a promise.
#[derive(Clone, Copy, Debug, PartialEq, Eq)]
pub enum Outcome {
    /// Nothing was to be changed.
    Kept,
    /// Something was changed, and now all is as promised.
    Repaired,
    /// It couldn't be made as promised.
    Failed,
}
