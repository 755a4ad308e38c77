// The lines that were printed, read again.
use cfa_base::Place;

/// The line of a refusal: the file, its place where there is one, and the code.
#[derive(Clone, Copy, Debug)]
pub struct RefusedLine<'a> {
    pub name: &'a str,
    /// The line, and the column, each from 1; 0 where the line has none.
    pub line: u64,
    pub col: u64,
    pub code: &'a str,
}

impl<'a> RefusedLine<'a> {
    /// Its place in the file, where it has one.
    pub fn place(self) -> Option<Place> {
        let line = u32::try_from(self.line).ok()?;
        let col = u32::try_from(self.col).ok()?;
        if line == 0 || col == 0 {
            return None;
        }
        Some(Place { file: 0, line, col })
    }
}

/// A promise as a line names it.
#[derive(Clone, Copy, Debug)]
pub struct IdText<'a> {
    pub text: &'a str,
    pub bundle: &'a str,
    /// Its number in the bundle, and its line, each from 1.
    pub number: u64,
    pub line: u64,
}

/// The line of a failed promise.
#[derive(Clone, Copy, Debug)]
pub struct FailedLine<'a> {
    pub id: IdText<'a>,
    pub code: &'a str,
}

/// The line of a conflict.
#[derive(Clone, Copy, Debug)]
pub struct ConflictLine<'a> {
    pub code: &'a str,
    pub first: IdText<'a>,
    pub second: IdText<'a>,
    pub resource: &'a str,
}

fn number_of(text: &str) -> Option<u64> {
    text.parse::<u64>().ok()
}

// `NAME:LINE:COL`, else `NAME:LINE`, else `NAME`.
fn place_of<'a>(place: &'a str, code: &'a str) -> RefusedLine<'a> {
    let none = RefusedLine {
        name: place,
        line: 0,
        col: 0,
        code,
    };
    let Some((before, last)) = place.rsplit_once(':') else {
        return none;
    };
    let Some(last) = number_of(last) else {
        return none;
    };
    if let Some((name, line)) = before.rsplit_once(':') {
        if let Some(line) = number_of(line) {
            return RefusedLine {
                name,
                line,
                col: last,
                code,
            };
        }
    }
    RefusedLine {
        name: before,
        line: last,
        col: 0,
        code,
    }
}

/// Reads `NAME:LINE:COL CODE WORD`, `NAME:LINE CODE WORD` and `NAME CODE WORD`.
pub fn read_refused(line: &str) -> Option<RefusedLine<'_>> {
    let (rest, _) = line.rsplit_once(' ')?;
    let (place, code) = rest.rsplit_once(' ')?;
    Some(place_of(place, code))
}

/// Reads `BUNDLE:NUMBER@LINE`.
pub fn read_id(text: &str) -> Option<IdText<'_>> {
    let (bundle, rest) = text.split_once(':')?;
    let (number, line) = rest.split_once('@')?;
    let number = number_of(number)?;
    let line = number_of(line)?;
    Some(IdText {
        text,
        bundle,
        number,
        line,
    })
}

/// Reads `failed ID REASON WORD`.
pub fn read_failed(line: &str) -> Option<FailedLine<'_>> {
    let rest = line.strip_prefix("failed ")?;
    let (id, rest) = rest.split_once(' ')?;
    let (code, _) = rest.split_once(' ')?;
    let id = read_id(id)?;
    Some(FailedLine { id, code })
}

/// Reads `conflict CAUSE FIRST SECOND RESOURCE`.
pub fn read_conflict(line: &str) -> Option<ConflictLine<'_>> {
    let rest = line.strip_prefix("conflict ")?;
    let (code, rest) = rest.split_once(' ')?;
    let (first, rest) = rest.split_once(' ')?;
    let (second, resource) = rest.split_once(' ')?;
    let first = read_id(first)?;
    let second = read_id(second)?;
    Some(ConflictLine {
        code,
        first,
        second,
        resource,
    })
}
