// The sizes and the moment that a run goes up to.

/// The most bytes of a policy's source.
pub const MOST_SOURCE_BYTES: usize = 1_048_576;

/// The most files that are read with a main file.
pub const MOST_INPUTS: usize = 16;

/// The most bytes of an expanded text, and of a text that a function gives.
pub const MOST_TEXT_BYTES: usize = 65_536;

/// The most combinations of the items of lists, and the most items of one of these lists.
pub const MOST_COMBINATIONS: usize = 4_096;

/// The most bytes of a file that is read to be edited, and of a journal.
pub const MOST_FILE_BYTES: usize = 16_777_216;

/// The last moment of a run, in seconds since 1970: the last of the year 9998 in UTC.
pub const LAST_MOMENT: u64 = 253_370_764_799;
