//! Files of rows: each row is a line in its one written form. They are written and read by one logic, whatever the rows.
#![tactic(auto)]

mod cuts;
mod numbers;
mod rows;

pub use cuts::{cut, is_text};
pub use numbers::{append_number, read_number};
pub use rows::{Format, RowsErr, read_rows, write_rows};
