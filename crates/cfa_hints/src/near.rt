// The name that is most like another one, for who wrote one letter wrong.

ghost use Rattle.std.specs.Prelude.{◌≡◌, ◌⊎◌, []};
ghost use Rattle.cfa_base.specs.IndexTables.{texts_of};
ghost use Rattle.cfa_hints.specs.Findings.{IsOneOf};

// The most bytes in which two names differ that are alike.
const MOST_WRONG: usize = 2;

// How many first bytes two names have in common.
fn common_front(first: &str, second: &str) -> usize {
    let mut count = 0usize;
    for (one, other) in first.bytes().zip(second.bytes()) {
        if one != other {
            return count;
        }
        count = count.saturating_add(1);
    }
    count
}

// How many last bytes two names have in common.
fn common_back(first: &[u8], second: &[u8]) -> usize {
    let mut count = 0usize;
    for (one, other) in first.iter().rev().zip(second.iter().rev()) {
        if *one != *other {
            return count;
        }
        count = count.saturating_add(1);
    }
    count
}

// In how many bytes two names differ, from the first one that does to the last; none where they aren't alike.
fn wrong_bytes(first: &str, second: &str) -> Option<usize> {
    let longest = first.len().max(second.len());
    let shortest = first.len().min(second.len());
    let common = common_front(first, second)
        .saturating_add(common_back(first.as_bytes(), second.as_bytes()))
        .min(shortest);
    let wrong = longest.saturating_sub(common);
    if wrong <= MOST_WRONG && wrong < common {
        Some(wrong)
    } else {
        None
    }
}

// The nearest name so far, and in how many bytes it differs.
#[derive(Clone, Copy)]
pub struct Nearest<'a> {
    name: &'a str,
    wrong: usize,
}

impl<'a> Nearest<'a> {
    // None so far.
    pub fn none() -> Nearest<'a>
        ensures { result.name.now ≡ [] }
    {
        Nearest {
            name: "",
            wrong: MOST_WRONG.saturating_add(1),
        }
    }

    // The nearer one of this and another name.
    pub fn or(self, wanted: &str, name: &'a str) -> Nearest<'a>
        ensures { (result.name.now ≡ self.entry.name.now) ⊎ (result.name.now ≡ name.now) }
    {
        match wrong_bytes(wanted, name) {
            Some(wrong) if wrong < self.wrong => Nearest { name, wrong },
            _ => self,
        }
    }

    // The name; empty where there is none.
    pub fn name(self) -> &'a str
        ensures { result.now ≡ self.entry.name.now }
    {
        self.name
    }
}

// The name that is nearest to a wanted one; empty where none is alike.
pub fn nearest_of<'a>(wanted: &str, names: &[&'a str]) -> &'a str
    ensures { IsOneOf (texts_of names.now) result.now }
{
    let mut best = names.len();
    let mut fewest = MOST_WRONG.saturating_add(1);
    for (place, name) in names.iter().enumerate() {
        if let Some(wrong) = wrong_bytes(wanted, name) {
            if wrong < fewest {
                best = place;
                fewest = wrong;
            }
        }
    }
    names.get(best).copied().unwrap_or("")
}
