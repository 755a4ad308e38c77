// What is done at the first call on a host: its folder is taken hold of, the tables are read with
// the rows that changed since, and a last line of the journal that was cut off is taken away.
use crate::errors::{HostErr, Part, Why, answer_of, at, refused};
use crate::files::read_if_there;
use crate::growing::{Growing, MOST_WAITING};
use crate::held::{Changed, Held, Left};
use crate::kept_rows::HostTables;
use crate::layout::{Layout, Table};
use crate::looking::{Kind, kind_at};
use cfa_rows::read_rows;
use cfa_tables::RowChanges;
use std::alloc::Global;
use std::fs;
use std::fs::{OpenFile, OpenOptions};
use std::io::{ErrorKind, Read, Seek, SeekFrom, Write};
use std::rt::Files;

/// A file that can be taken hold of, against every other opening of it, as long as it is open. The
/// system lets it go where the process ends in any way.
pub trait Exclusive {
    /// Takes hold, and tells whether it is held now. It never waits.
    fn take_hold(&self) -> bool;
}

impl Exclusive for fs::File {
    fn take_hold(&self) -> bool {
        self.try_lock().is_ok()
    }
}

// How many lines at the end of the journal may not have been synced.
const MOST_UNSYNCED: u8 = MOST_WAITING + 1;

// The most bytes of a table, and of a file of changed rows.
const MOST_TABLE_BYTES: u64 = 1 << 30;

// Makes the folder where it is missing. What else stands there is never opened.
fn make_root<R: Files>(rt: &R, root: &str) -> Result<(), HostErr> {
    match rt.metadata(root) {
        Ok(found) if found.is_dir() => Ok(()),
        Ok(_) => Err(refused(Why::OfAnotherKind)),
        Err(error) if error.kind() == ErrorKind::NotFound => answer_of(rt.create_dir(root)),
        Err(error) => Err(HostErr::from(error)),
    }
}

// Takes hold of the folder. Where another agent holds it, this one gets nothing.
fn hold<R: Files>(rt: &R, root: &str) -> Result<R::File, HostErr>
where
    R::File: Exclusive,
{
    make_root(rt, root)?;
    let folder = fs::open(rt, root)?;
    if folder.take_hold() {
        Ok(folder)
    } else {
        Err(refused(Why::Taken))
    }
}

// Nothing may stand at `tree` but a folder.
fn look_at_tree<R: Files>(rt: &R, tree: &str) -> Result<(), HostErr> {
    match kind_at(rt, tree)? {
        Kind::Missing | Kind::Dir => Ok(()),
        Kind::File(_) | Kind::Other => Err(refused(Why::OfAnotherKind)),
    }
}

// Takes the rows of a table as it was written.
fn take_table<R: Files>(
    rt: &R,
    alloc: Global,
    layout: &Layout,
    table: Table,
    tables: &mut HostTables,
) -> Result<(), HostErr> {
    let text = read_if_there(rt, alloc, layout.table(table), MOST_TABLE_BYTES)?;
    tables.take_table(alloc, table, &text)
}

// The tables as they were written.
fn written_tables<R: Files>(rt: &R, alloc: Global, layout: &Layout) -> Result<HostTables, HostErr> {
    let mut tables = HostTables::new(alloc);
    for table in [Table::Perms, Table::Services, Table::Locks] {
        at(
            table.part(),
            take_table(rt, alloc, layout, table, &mut tables),
        )?;
    }
    Ok(tables)
}

// The bytes before the first zero, where that stands in the last line: a power cut left it there
// for a byte that never came to the disk.
fn before_zeros(bytes: &[u8]) -> &[u8] {
    let Some(zero) = bytes.iter().position(|byte| *byte == 0) else {
        return bytes;
    };
    let Some((front, rest)) = bytes.split_at_checked(zero) else {
        return bytes;
    };
    match rest.iter().position(|byte| *byte == b'\n') {
        Some(place) if place.saturating_add(1) < rest.len() => bytes,
        _ => front,
    }
}

// Takes the rows that changed since and that count where the journal has so many bytes, and gives
// the length of all whole lines. A last line that was cut off is none.
fn take_changes<R: Files>(
    rt: &R,
    alloc: Global,
    layout: &Layout,
    tables: &mut HostTables,
    journal: u64,
) -> Result<u64, HostErr> {
    let text = read_if_there(rt, alloc, layout.changes.as_str(), MOST_TABLE_BYTES)?;
    let bytes = before_zeros(text.as_slice());
    let (changes, torn) = read_rows::<RowChanges>(alloc, bytes)?;
    let len = (bytes.len() as u64).saturating_sub(torn.len() as u64);
    for change in changes {
        if change.counts_at(journal) {
            tables.take_change(alloc, change)?;
        }
    }
    Ok(len)
}

fn read_piece<F: Read + Seek>(file: &mut F, from: u64, piece: &mut [u8]) -> Result<(), HostErr> {
    file.seek(SeekFrom::Start(from))?;
    answer_of(file.read_exact(piece))
}

// The place behind the last newline before a place of a file, or its beginning.
fn behind_newline<F: Read + Seek>(file: &mut F, before: u64) -> Result<u64, HostErr> {
    let mut piece = [0u8; 4096];
    let mut end = before;
    for _ in 0..u64::MAX {
        if end == 0 {
            return Ok(0);
        }
        let count = end.min(4096);
        let from = end - count;
        let last = &mut piece[..count as usize];
        read_piece(file, from, last)?;
        if let Some(place) = piece[..count as usize]
            .iter()
            .rposition(|byte| *byte == b'\n')
        {
            return Ok(from.saturating_add(place as u64).saturating_add(1));
        }
        end = from;
    }
    Err(refused(Why::OfAnotherLength))
}

// The place of the first zero byte of a file between two places, or the second of them.
fn first_zero<F: Read + Seek>(file: &mut F, from: u64, end: u64) -> Result<u64, HostErr> {
    let mut piece = [0u8; 4096];
    let mut place = from;
    for _ in 0..u64::MAX {
        let count = end.saturating_sub(place).min(4096);
        if count == 0 {
            break;
        }
        read_piece(file, place, &mut piece[..count as usize])?;
        if let Some(at) = piece[..count as usize].iter().position(|byte| *byte == 0) {
            return Ok(place.saturating_add(at as u64));
        }
        place = place.saturating_add(count);
    }
    Ok(end)
}

// The length of the whole lines of a file. Its last lines may not have been synced when it was
// written last, as many as may wait and the one that was added behind them. Where a power cut left
// zeros in one of them, for bytes that never came to the disk, it was cut off, and what is behind
// it.
fn whole_lines<F: Read + Seek>(file: &mut F, len: u64) -> Result<u64, HostErr> {
    let end = behind_newline(file, len)?;
    let mut first = end;
    for _ in 0..MOST_UNSYNCED {
        first = behind_newline(file, first.saturating_sub(1))?;
    }
    let zero = first_zero(file, first, end)?;
    if zero < end {
        behind_newline(file, zero)
    } else {
        Ok(end)
    }
}

// Whether the last line of a file, which ends at a place, begins with `open ` or `file `: a repair
// was begun, and nothing tells that it was done.
fn ends_open<F: Read + Seek>(file: &mut F, end: u64) -> Result<bool, HostErr> {
    let start = behind_newline(file, end.saturating_sub(1))?;
    if end.saturating_sub(start) < 5 {
        return Ok(false);
    }
    let mut word = [0u8; 5];
    read_piece(file, start, &mut word)?;
    Ok(word == *b"open " || word == *b"file ")
}

/// The journal as it was found: its length, that of its whole lines, and whether the last one tells
/// of a repair that was begun.
#[derive(Clone, Copy)]
struct Ending {
    found: u64,
    len: u64,
    is_open: bool,
}

// Takes a last line of the journal that was cut off away.
fn cut_journal<R: Files>(rt: &R, path: &str, ending: Ending) -> Result<(), HostErr> {
    if ending.len == ending.found {
        return Ok(());
    }
    let mut options = OpenOptions::new();
    options.write(true);
    answer_of(options.open(rt, path)?.set_len(ending.len))
}

// The end of the journal.
fn ending_of<R: Files>(rt: &R, path: &str) -> Result<Ending, HostErr> {
    let found = match kind_at(rt, path)? {
        Kind::Missing => {
            return Ok(Ending {
                found: 0,
                len: 0,
                is_open: false,
            });
        }
        Kind::File(file) => file.size,
        Kind::Dir | Kind::Other => return Err(refused(Why::OfAnotherKind)),
    };
    let mut file = fs::open(rt, path)?;
    let len = whole_lines(&mut file, found)?;
    let is_open = ends_open(&mut file, len)?;
    Ok(Ending {
        found,
        len,
        is_open,
    })
}

// The tables with the rows that changed since they were written, and the length of these rows'
// lines.
fn open_tables<R: Files>(
    rt: &R,
    alloc: Global,
    layout: &Layout,
    journal: u64,
) -> Result<(HostTables, u64), HostErr> {
    let mut tables = written_tables(rt, alloc, layout)?;
    let taken = take_changes(rt, alloc, layout, &mut tables, journal);
    let len = at(Part::Changes, taken)?;
    Ok((tables, len))
}

// A file that grows, of which so many bytes count.
fn growing<F: Write + OpenFile>(
    alloc: Global,
    path: &str,
    len: u64,
) -> Result<Growing<F>, HostErr> {
    Ok(Growing::new(String::from_str(alloc, path)?, len))
}

// The host in a folder that is held.
fn open_held<R: Files>(
    rt: &R,
    alloc: Global,
    layout: Layout,
    folder: R::File,
) -> Result<Held<R::File>, HostErr> {
    at(Part::Tree, look_at_tree(rt, layout.tree.as_str()))?;
    let ending = at(Part::Journal, ending_of(rt, layout.journal.as_str()))?;
    let (tables, len) = open_tables(rt, alloc, &layout, ending.len)?;
    let cut = cut_journal(rt, layout.journal.as_str(), ending);
    at(Part::Journal, cut)?;
    let journal = growing(alloc, layout.journal.as_str(), ending.len)?;
    let changes = growing(alloc, layout.changes.as_str(), len)?;
    let changed = if len == 0 {
        Changed::NONE
    } else {
        Changed::ALL
    };
    let left = Left {
        changed,
        is_open: ending.is_open,
    };
    Ok(Held::new(alloc, layout, folder, tables, left, changes, journal))
}

/// The host in a folder, which is held from then on.
pub fn open_host<R: Files>(rt: &R, alloc: Global, root: &str) -> Result<Held<R::File>, HostErr>
where
    R::File: Exclusive,
{
    let layout = Layout::new(alloc, root)?;
    let folder = at(Part::Folder, hold(rt, root))?;
    open_held(rt, alloc, layout, folder)
}
