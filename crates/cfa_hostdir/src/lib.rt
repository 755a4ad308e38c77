//! The real host: its tables, and the folder in which a host is kept, seen and changed as a site;
//! files as inputs; standard output as a sink.
#![tactic(auto)]

mod changing;
mod errors;
mod faults;
mod files;
mod growing;
mod held;
mod host_inputs;
mod host_sink;
mod host_site;
mod kept_rows;
mod layout;
mod looking;
mod opening;
mod putting;
mod seeing;
mod settled;
mod walked;

pub use cfa_tables::{
    TableErr, read_locks, read_perms, read_services, tables_tell_rows, write_locks, write_perms,
    write_services,
};
pub use errors::Why;
pub use faults::{FailedCall, Fault};
pub use host_inputs::HostInputs;
pub use host_sink::HostSink;
pub use host_site::HostSite;
pub use opening::Exclusive;
