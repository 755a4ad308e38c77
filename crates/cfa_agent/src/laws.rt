// What the journal tells, each the contract of a function that changes nothing.
ghost use Rattle.std.specs.Prelude.{All};
ghost use Rattle.cfa_journal.specs.Records.{IsFilled};
ghost use Rattle.cfa_agent.specs.Bracketed.{FrontsAreBracketed};
ghost use Rattle.cfa_agent.specs.Journaled.{HasName, LogsAreBracketed, RunsAreBracketed, BracketedLogsTell};

use cfa_acts::Act;
use cfa_outside::Path;

/// A first part of a bracketed log is one.
pub fn fronts_are_bracketed()
    ensures { FrontsAreBracketed }
{}

/// The log of a run is bracketed, and so is each first part of it.
pub fn logs_are_bracketed()
    ensures logs { LogsAreBracketed }
    ensures runs { RunsAreBracketed }
{}

/// The journal of a bracketed log is that of one run at most, in its place, and leaves at most one instance
/// open. Where its last record is a `file`, this tells what stands at the path.
pub fn bracketed_logs_tell()
    ensures { BracketedLogsTell }
{}

/// The files that acts put have names, as the type of paths keeps.
pub(crate) fn have_names(acts: &[Act])
    ensures { All HasName acts.now }
{
    for act in acts {
        has_name(act);
    }
}

fn has_name(act: &Act)
    ensures { HasName act.now }
{
    match act {
        Act::Create(path) => is_filled(path),
        Act::Content(path, _) => is_filled(path),
        Act::Copy(_, path) => is_filled(path),
        Act::Edit(path, _) => is_filled(path),
        Act::MakeDir(_)
        | Act::Delete(_, _)
        | Act::Perms(_, _, _, _)
        | Act::Start(_)
        | Act::Stop(_)
        | Act::Enable(_)
        | Act::Disable(_)
        | Act::Restart(_)
        | Act::Bust(_) => {}
    }
}

#[tactic(auto, using(crate::proofs::Opened::path_filled))]
fn is_filled(path: &Path)
    ensures { IsFilled path.now }
{
    let _text = path.text().as_str();
}
