// Paths from the root.
ghost use Rattle.std.specs.Prelude.{◌≡◌, ◌&&◌, ◌++◌, List, ℕ, IfOk, OnOk, IsErrOf, None, Some, map, length, nat_le, nat_lt, ◌==◌, not};
ghost use Rattle.std.specs.List.{list_all};
ghost use Rattle.std.specs.String.{string_bytes};
ghost use Rattle.cfa_outside.specs.Paths.{path_of, is_rooted, components, is_component, joined};
ghost use Rattle.cfa_outside.specs.declared.paths.PathErr.TheVariants.{NoMemory};

use cfa_base as base;
use cfa_base::Name;
use std::alloc::{AllocError, AllocFailed, Global};
use std::marker::Model;
use thiserror::Error;

/// Why a text gave no path.
#[derive(Clone, Copy, Debug, PartialEq, Eq, Error)]
pub enum PathErr {
    /// The text is no path.
    #[error("not a path")]
    BadPath,
    /// No memory was left for the path.
    #[error("out of memory")]
    NoMemory,
}

impl From<base::NoMemory> for PathErr {
    ghost from_gives = { λ _ e. e ≡ NoMemory };

    fn from(_: base::NoMemory) -> Self {
        PathErr::NoMemory
    }
}

impl From<AllocError> for PathErr {
    ghost from_gives = { λ _ e. e ≡ NoMemory };

    fn from(_: AllocError) -> Self {
        PathErr::NoMemory
    }
}

impl<T: Drop> From<AllocFailed<T>> for PathErr {
    ghost from_gives = { λ _ e. e ≡ NoMemory };

    fn from(_: AllocFailed<T>) -> Self {
        PathErr::NoMemory
    }
}

/// A path from the root, with components of 1 to 255 bytes, none of them `.` or `..` and none with a zero byte, of at
/// most 1,024 bytes in all. It doesn't end with a slash, so the root itself is none. Contracts see the list of its
/// bytes.
#[derive(Debug, Drop)]
pub struct Path {
    text: Name,
}

impl Model for Path {
    ghost Value = { List ℕ };

    ghost view = { λ p. p.text };

    ghost invariant = { λ p. path_of p.text ≡ Some p.text };
}

impl Path {
    /// The path that the text names. A run of slashes counts as one.
    #[tactic(auto, unfolding(crate::specs::Paths::path_of))]
    pub fn read(alloc: Global, text: &Name) -> Result<Path, PathErr>
        ensures ok { IfOk result (λ p. path_of text.now ≡ Some p) }
        ensures bad { IsErrOf result PathErr.BadPath → path_of text.now ≡ None }
    {
        let text = text.as_str();
        let parts = split_into_components(alloc, text)?;
        if !tests_as_path(text, &parts) {
            return Err(PathErr::BadPath);
        }
        let whole = join(alloc, &parts)?;
        if whole.len() > 1024 {
            return Err(PathErr::BadPath);
        }
        let text = Name::from_string(whole)?;
        Ok(Path { text })
    }

    /// The path's text, with each run of slashes as one, without taking memory.
    pub fn text(&self) -> &Name
        ensures same { result.now ≡ self.now }
        ensures path { path_of self.now ≡ Some self.now }
    {
        &self.text
    }

    /// An equal path of its own.
    pub fn copy(&self, alloc: Global) -> Result<Path, base::NoMemory>
        ensures { IfOk result (λ p. p ≡ self.now) }
    {
        Ok(Path {
            text: self.text.copy(alloc)?,
        })
    }
}

fn tests_as_rooted(text: &str) -> bool
    ensures { result ≡ is_rooted text.now }
{
    let bytes = text.as_bytes();
    bytes.len() != 0 && bytes[0] == b'/' && bytes[bytes.len() - 1] != b'/'
}

fn split_into_components(alloc: Global, text: &str) -> Result<Vec<&str>, AllocError>
    ensures { IfOk result (λ v. map (λ x. x.now) v.items ≡ components text.now) }
{
    text.split('/')
        .filter(|piece| !piece.is_empty())
        .collect(alloc)
}

fn has_no_zero(part: &str) -> bool
    ensures { result ≡ list_all (λ b. not (b == 0)) part.now }
{
    part.as_bytes().iter().all(|b| *b != 0)
}

fn tests_as_component(part: &str) -> bool
    ensures { result ≡ is_component part.now }
{
    part.len() <= 255 && part != "." && part != ".." && has_no_zero(part)
}

fn tests_as_components(parts: &[&str]) -> bool
    ensures { result ≡ list_all is_component (map (λ x. x.now) parts.now) }
{
    parts.iter().all(|part| tests_as_component(part))
}

fn tests_as_path(text: &str, parts: &[&str]) -> bool
    ensures { result ≡ (is_rooted text.now && list_all is_component (map (λ x. x.now) parts.now)) }
{
    tests_as_rooted(text) && tests_as_components(parts)
}

fn join(alloc: Global, parts: &[&str]) -> Result<String, AllocError>
    ensures { IfOk result (λ s. string_bytes s ≡ joined (map (λ x. x.now) parts.now)) }
{
    let mut whole = String::new(alloc);
    push_parts(&mut whole, parts)?;
    Ok(whole)
}

// Writes each part after a slash at the end of a text.
fn push_parts(whole: &mut String, parts: &[&str]) -> Result<(), AllocError>
    ensures { OnOk result (string_bytes whole.new
        ≡ string_bytes whole.old ++ joined (map (λ x. x.now) parts.now)) }
{
    for part in parts {
        whole.push_str("/")?;
        whole.push_str(part)?;
    }
    Ok(())
}
