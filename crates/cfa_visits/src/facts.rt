// What holds of the names and ids of a checked policy.
ghost use Rattle.cfa_schema.specs.Seen.{tree_of};
ghost use Rattle.cfa_visits.specs.Bundles.{HasCountedIds};
ghost use Rattle.cfa_states.specs.Levels.{HasPlainNames};

use cfa_schema::{
    Checked, lines_are_counts, names_are_words, served_bundles_stand, served_names_are_words,
};

/// No shared scope has a name with a newline.
pub fn names_are_plain(checked: &Checked)
    ensures { HasPlainNames (tree_of checked.now) }
{
    let _ = checked.policy();
    names_are_words();
    served_names_are_words();
}

/// The ids of the promises of each bundle that is found are counted.
pub fn ids_are_counted(checked: &Checked)
    ensures { HasCountedIds (tree_of checked.now) }
{
    let _ = checked.policy();
    lines_are_counts();
    served_bundles_stand();
}
