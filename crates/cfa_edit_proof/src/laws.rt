// The laws of quiet scripts, each the contract of a function that changes nothing.
ghost use Rattle.std.specs.Prelude.{All, IsUtf8};
ghost use Rattle.cfa_edit_proof.specs.Quiet.{HasTexts, QuietSettles};
ghost use Rattle.cfa_edit_proof.specs.Decisions.{QuietDecides};

use cfa_acts::settles_as_lines;
use cfa_base::Names;
use cfa_edits::Edit;

/// On lines on which a quiet script isn't refused it settles: what it leaves it leaves again.
pub fn quiet_settles()
    ensures { QuietSettles }
{}

/// What an edit of a file by a quiet script needs is never that the script doesn't settle.
pub fn quiet_never_fails()
    ensures { QuietDecides }
{
    settles_as_lines();
}

/// The names of edits are texts and their separators characters, as their types keep.
pub fn have_texts(edits: &[Edit])
    ensures { All HasTexts edits.now }
{
    for edit in edits {
        has_texts(edit);
    }
}

fn has_texts(edit: &Edit)
    ensures { HasTexts edit.now }
{
    match edit {
        Edit::Delete(_) => {}
        Edit::Field(_, separator, _, value) => {
            let _character = *separator;
            let _text = value.as_str();
        }
        Edit::Insert(block, _) => are_texts(block),
        Edit::Replace(_, value, _) => {
            let _text = value.as_str();
        }
    }
}

fn are_texts(lines: &Names)
    ensures { All IsUtf8 lines.now }
{
    for line in lines.as_slice() {
        let _text = line.as_str();
    }
}
