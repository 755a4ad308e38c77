// Rows, written and read by their format.
ghost use Rattle.std.specs.Prelude.{◌≡◌, ◌++◌, ◌≤◌, List, ℕ, Option, length, IfErr, IfOk, OnOk, option_copied};
ghost use Rattle.cfa_rows.specs.Rows.{written, Reads, IsRows, HasBadLine};
ghost use Rattle.cfa_rows.specs.declared.rows.RowsErr.TheVariants.{NoMemory};

use crate::cut;
use cfa_base as base;
use cfa_base::Bytes;
use std::alloc::{AllocFailed, Global};
use thiserror::Error;

/// Why bytes can't be read as rows.
#[derive(Clone, Copy, Debug, PartialEq, Eq, Error)]
pub enum RowsErr {
    /// A line, by its number from 1, is no row in its place, and those before it are.
    #[error("line {0} is no row in its place")]
    BadLine(u64),
    #[error("out of memory")]
    NoMemory,
}

impl From<base::NoMemory> for RowsErr {
    ghost from_gives = { λ _ e. e ≡ NoMemory };

    fn from(_: base::NoMemory) -> Self {
        RowsErr::NoMemory
    }
}

impl<T: Drop> From<AllocFailed<T>> for RowsErr {
    ghost from_gives = { λ _ e. e ≡ NoMemory };

    fn from(_: AllocFailed<T>) -> Self {
        RowsErr::NoMemory
    }
}

/// How rows are written as lines.
pub trait Format {
    /// What a line holds.
    type Row: Drop;

    /// The line of a row, without its newline.
    ghost form: { Self.Row → List ℕ };

    /// Whether a row may stand behind the row before it, or first.
    ghost follows: { Option Self.Row → Self.Row → Type 0 };

    /// Adds the line of a row at the end of bytes, without its newline.
    fn append(alloc: Global, bytes: &mut Bytes, row: &Self::Row) -> Result<(), base::NoMemory>
        ensures { OnOk result (bytes.new ≡ bytes.old ++ form row.now) };

    /// The row that a line is behind the row before it. `None` where the line is no row that may stand there.
    fn read(
        alloc: Global,
        last: Option<&Self::Row>,
        line: &[u8],
    ) -> Result<Option<Self::Row>, base::NoMemory>
        ensures { IfOk result (Reads form (follows (option_copied last.entry)) line.now) };
}

/// The text of some rows.
pub fn write_rows<F: Format>(alloc: Global, rows: &[F::Row]) -> Result<Bytes, base::NoMemory>
    ensures { IfOk result (λ bytes. bytes ≡ written F.form rows.now) }
{
    let mut bytes = Bytes::from_vec(Vec::new(alloc));
    for row in rows {
        F::append(alloc, &mut bytes, row)?;
        bytes.append(b"\n")?;
    }
    Ok(bytes)
}

/// The rows that bytes are, and what stands behind the last newline.
pub fn read_rows<F: Format>(alloc: Global, bytes: &[u8]) -> Result<(Vec<F::Row>, &[u8]), RowsErr>
    ensures ok { IfOk result (λ r. IsRows F.form F.follows bytes.now r.0.items r.1.now) }
    ensures bad { IfErr result (λ e. (n : ℕ) → e ≡ RowsErr.BadLine n
        → HasBadLine F.form F.follows bytes.now n) }
    ensures within { IfErr result (λ e. (n : ℕ) → e ≡ RowsErr.BadLine n → n ≤ length bytes.now) }
{
    let mut rows = Vec::new(alloc);
    let mut rest = bytes;
    let mut number = 1;
    'lines: while let Some((line, behind)) = cut(rest, b'\n') {
        match F::read(alloc, rows.last(), line)? {
            Some(row) => rows.push(row)?,
            None => return Err(RowsErr::BadLine(number)),
        }
        rest = behind;
        number += 1;
    }
    Ok((rows, rest))
}
