//! The tables of a host, read and written: its services, the permissions of its nodes, its locks, and the rows that
//! changed since.
#![tactic(auto)]

mod errors;
mod fields;
mod laws;
mod modes;
mod row_changes;
mod rows;
mod tables;

pub use errors::TableErr;
pub use laws::{changes_are_read_again, kept_rows_are_tables, tables_tell_rows};
pub use row_changes::{RowChange, RowChanges, change_line};
pub use tables::{
    Locks, Permissions, Services, read_locks, read_perms, read_services, write_locks, write_perms,
    write_services,
};
