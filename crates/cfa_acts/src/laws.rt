// The laws of acts, each the contract of a function that does nothing.
ghost use Rattle.cfa_acts.specs.Laws.{HasScript, KeptWherePostHolds, NeededFits, NeededMakesPost, NeededKeepsPost, SettlesAsLines};

use crate::Act;
use cfa_edits::texts_tell_scripts;

/// An act is kept exactly where its post holds.
pub fn kept_where_post_holds()
    ensures { KeptWherePostHolds }
{}

/// The change that an act needs may be made.
pub fn needed_change_fits()
    ensures { NeededFits }
{}

/// The change that an act needs makes its post true, but for a restart, which is asked for anew each time.
pub fn needed_change_makes_post()
    ensures { NeededMakesPost }
{}

/// A post that holds stays true under the change that another act needs, unless that act disturbs the one of the post.
pub fn needed_change_keeps_post()
    ensures { NeededKeepsPost }
{
    texts_tell_scripts();
}

/// A script leaves the text of lines without newlines exactly where it leaves the lines.
pub fn settles_as_lines()
    ensures { SettlesAsLines }
{}

/// The edits of an act are those of a script.
pub fn has_script(act: &Act)
    ensures { HasScript act.now }
{
    if let Act::Edit(_, script) = act {
        let _edits = script.edits();
    }
}
