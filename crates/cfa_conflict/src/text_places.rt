// Texts with places: those of a text, and those of the texts beneath it.
ghost use Rattle.std.specs.Prelude.{◌≡◌, ◌++◌, Bool, IfOk, OnOk};
ghost use Rattle.std.specs.List.{filter, list_any};
ghost use Rattle.cfa_conflict.specs.Targets.{AreSorted, Row, is_near, is_sought, places_of, seen_rows};

use cfa_base::NoMemory;
use std::marker::Model;

// Whether the text is the key, or may be beneath it and is.
fn is_sought(key: &str, beneath: bool, text: &str) -> bool
    ensures { result ≡ is_sought key.now beneath text.now }
{
    let (key, text) = (key.as_bytes(), text.as_bytes());
    if !text.starts_with(key) {
        return false;
    }
    match text.get(key.len()) {
        Some(byte) => beneath && *byte == b'/',
        None => true,
    }
}

// Whether the text is the key, or may go on behind it and does.
fn is_near(key: &str, beneath: bool, text: &str) -> bool
    ensures { result ≡ is_near key.now beneath text.now }
{
    if beneath {
        return text.as_bytes().starts_with(key.as_bytes());
    }
    key == text
}

// Of rows in the order of their texts those of a key, or those whose texts begin with it, which stand together.
fn rows_near<'r, 'a>(
    rows: &'r [(&'a str, usize)],
    key: &str,
    beneath: bool,
) -> &'r [(&'a str, usize)]
    ensures { AreSorted rows.now
        → result.now ≡ filter (λ row. is_near key.now beneath row.0.now) rows.now }
{
    let start = rows.partition_point(|row| row.0 < key);
    let (_, rest) = rows.split_at(start);
    let end = rest.partition_point(
        |row: &(&str, usize)| -> bool
            ensures { result ≡ is_near key.entry.now beneath row.entry.now.0.now }
        { is_near(key, beneath, row.0) },
    );
    let (found, _) = rest.split_at(end);
    found
}

// Adds the places of the rows of a key, and of what is beneath it.
fn add_rows(
    rows: &[(&str, usize)],
    key: &str,
    beneath: bool,
    places: &mut Vec<usize>,
) -> Result<(), NoMemory>
    ensures { OnOk result (places.new.items
        ≡ places.old.items ++ places_of (seen_rows rows.now) key.now beneath) }
{
    for (text, place) in rows {
        if is_sought(key, beneath, text) {
            places.push(*place)?;
        }
    }
    Ok(())
}

/// Texts, each with a place, in the order of the texts, so that those of a text are found by a search, and so are those of the texts
/// that begin with it.
#[derive(Drop)]
pub(crate) struct TextPlaces<'a> {
    rows: Vec<(&'a str, usize)>,
}

impl<'a> Model for TextPlaces<'a> {
    ghost use Rattle.std.specs.Prelude.{List, ℕ};
    ghost use Rattle.cfa_conflict.specs.Targets.{AreSorted, seen_rows};

    ghost Value = { List (List ℕ × ℕ) };

    ghost view = { λ t. seen_rows t.rows.items };

    ghost invariant = { λ t. AreSorted t.rows.items };
}

impl<'a> TextPlaces<'a> {
    /// Puts texts with their places in order.
    pub(crate) fn from_rows(rows: Vec<(&'a str, usize)>) -> Result<TextPlaces<'a>, NoMemory>
        ensures { IfOk result (λ places. (test : Row → Bool)
            → list_any test places ≡ list_any test (seen_rows rows.entry.items)) }
    {
        let mut rows = rows;
        rows.sort()?;
        Ok(TextPlaces { rows })
    }

    /// The texts with their places.
    pub(crate) fn rows(&self) -> &[(&'a str, usize)]
        ensures { seen_rows result.now ≡ self.now }
    {
        self.rows.as_slice()
    }

    /// Adds the places of a text, and of what is beneath it.
    pub(crate) fn add_places(
        &self,
        key: &str,
        beneath: bool,
        places: &mut Vec<usize>,
    ) -> Result<(), NoMemory>
        ensures { OnOk result (places.new.items
            ≡ places.old.items ++ places_of self.now key.now beneath) }
    {
        let rows = rows_near(self.rows.as_slice(), key, beneath);
        add_rows(rows, key, beneath, places)
    }
}
