// Where records may stand.
ghost use Rattle.std.specs.Prelude.{◌≡◌};
ghost use Rattle.cfa_journal.specs.Positions.{behind, is_between, is_in_place, is_two, is_within, version_of};

use crate::Record;

/// The version of a run.
#[derive(Clone, Copy, Debug, PartialEq, Eq)]
pub enum Version {
    One,
    Two,
}

/// Where the next record of a journal stands.
#[derive(Clone, Copy, Debug, PartialEq, Eq)]
pub enum Position {
    /// Before any run.
    Start,
    /// In a run of this version, behind its `run` or behind the last record of an instance.
    Between(Version),
    /// In a run of this version, directly behind the `open` or a `file` of the instance of this number.
    Within(Version, u32),
}

// The version of the run in which a position is.
fn version_of(position: Position) -> Version
    ensures { result ≡ version_of position }
{
    match position {
        Position::Start => Version::One,
        Position::Between(version) | Position::Within(version, _) => version,
    }
}

fn is_two(version: Version) -> bool
    ensures { result ≡ is_two version }
{
    match version {
        Version::One => false,
        Version::Two => true,
    }
}

fn is_between(position: Position) -> bool
    ensures { result ≡ is_between position }
{
    match position {
        Position::Between(_) => true,
        Position::Start | Position::Within(_, _) => false,
    }
}

fn is_within(number: u32, position: Position) -> bool
    ensures { result ≡ is_within number position }
{
    match position {
        Position::Within(_, n) => n == number,
        Position::Start | Position::Between(_) => false,
    }
}

/// Whether a record may stand at a position.
pub fn is_in_place(position: Position, item: &Record) -> bool
    ensures { result ≡ is_in_place position item.now }
{
    match item {
        Record::Run(_) | Record::Run2(_) => true,
        Record::Open(_, _, _) | Record::Fail(_, _, _, _) => is_between(position),
        Record::File(number, _, _, _) => {
            is_two(version_of(position)) && is_within(*number, position)
        }
        Record::Repaired(number, _) | Record::Failed(number, _) => is_within(*number, position),
    }
}

/// The position behind a record.
pub fn behind(position: Position, item: &Record) -> Position
    ensures { result ≡ behind position item.now }
{
    match item {
        Record::Run(_) => Position::Between(Version::One),
        Record::Run2(_) => Position::Between(Version::Two),
        Record::Open(number, _, _) | Record::File(number, _, _, _) => {
            Position::Within(version_of(position), *number)
        }
        Record::Repaired(_, _) | Record::Failed(_, _) | Record::Fail(_, _, _, _) => {
            Position::Between(version_of(position))
        }
    }
}
