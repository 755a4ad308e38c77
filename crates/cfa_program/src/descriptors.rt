// The descriptors of the three standard streams.
use std::fs;
use std::fs::File;
use std::os::fd::AsRawFd;

/// Files that stand in the place of standard streams that were closed. Nothing can be read from them, nor written to.
#[derive(Drop)]
pub struct HeldStreams {
    files: [Option<File>; 3],
}

// The root folder, opened to be read, where its descriptor is one of a standard stream.
fn hold_one(rt: &HostRuntime) -> Option<File> {
    match fs::open(rt, "/") {
        Ok(file) if file.as_raw_fd() <= 2 => Some(file),
        _ => None,
    }
}

/// Holds those of the descriptors 0 to 2 that are closed, so that no file that is opened later gets one of them, and a line that is put
/// on a closed output fails.
pub fn hold(rt: &HostRuntime) -> HeldStreams {
    HeldStreams {
        files: [hold_one(rt), hold_one(rt), hold_one(rt)],
    }
}
