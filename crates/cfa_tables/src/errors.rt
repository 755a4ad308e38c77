// Why tables can't be read.
use thiserror::Error;

/// Why bytes can't be read as a table.
#[derive(Clone, Copy, Debug, PartialEq, Eq, Error)]
pub enum TableErr {
    /// A line, by its number from 1, is no row, or its key isn't above the one before; those before it are rows.
    #[error("line {0} is no row in its place")]
    BadTable(u64),
    #[error("out of memory")]
    NoMemory,
}
