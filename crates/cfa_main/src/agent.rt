// The top call.
ghost use Rattle.std.specs.Prelude.{◌≡◌, ◌≢◌, ◌<◌, ◌≤◌, ◌⊎◌, None, Some, IfSome, List, ℕ};
ghost use Rattle.cfa_base.specs.Shown.{Untouched, Follows};
ghost use Rattle.cfa_outside.specs.declared.worlds.World as declared;
ghost use Rattle.cfa_outside.specs.Sinks.{adds_bytes};
ghost use Rattle.cfa_output.specs.declared.items.End as settled_ends;
ghost use Rattle.cfa_output.specs.Lines.{words_line, moment_line, memory_line, settled_line};
ghost use Rattle.cfa_words.specs.Words.{asked};
ghost use Rattle.cfa_agent.specs.Actuations.{Mark};
ghost use Rattle.cfa_agent.specs.Bracketed.{AllBracketed};
ghost use Rattle.cfa_agent.specs.Marks.{marks_of};
ghost use Rattle.cfa_agent.specs.Ran.{added, IfBothTold};
ghost use Rattle.cfa_main.specs.Calls.{AsksUnaccepted, Does};
ghost use Rattle.cfa_words.specs.Demos.{demo_asked};
ghost use Rattle.cfa_main.specs.Demos.{AlwaysTells, AsksNoDemo, CalledFor, Demonstrates, EndsDemo};
ghost use Rattle.cfa_main.specs.Done.{Stands, Puts, HasFault, FallsShort};
ghost use Rattle.cfa_main.specs.Ends.{IsEnd, IsStop, IsNotDone, AsksRun, AsksNoRun, AsksToObey, AsksTaken, AsksRefused, EndsWith, IsSettledBy, IsUnhindered, IsDoneOrMemory, PutsRefusal, IsUnread, PutsLast, MakesRun, IsToPut, StopsReading, StopsAtSite, ReadsInTurn, RefusesText, StopsAtPattern, StopsAtVisits};
ghost use Rattle.cfa_main.specs.Stages.{Called};

use crate::demonstrating::demonstrate;
use crate::ends::{end_status, put_failure, put_stop};
use crate::laws::{a_policy_is_run_in_one_setting, taken_requests_are_not_refused};
use crate::performing::perform;
use crate::preparing::prepare;
use cfa_base::{LAST_MOMENT, Name, Patterns};
use cfa_conflict::conflicts_meet_in_resources;
use cfa_demo_laws::{demos_are_accepted, demos_are_taken, demos_are_walked};
use cfa_output::Stop;
use cfa_outside::{Inputs, Sink, Site};
use cfa_words::read_demo;
use std::alloc::Global;

// Reads what the words ask for, and does it.
fn call<I: Inputs, S: Site, O: Sink, P: Patterns>(
    alloc: Global,
    words: &[Name],
    moment: u64,
    inputs: &mut I,
    site: &mut S,
    out: &mut O,
    pats: &mut P,
) -> u8
    ensures { Called words.now moment (I.shown inputs.old) (I.shown inputs.new)
        (S.shown site.old) (S.shown site.new) (O.shown out.old) (O.shown out.new)
        (P.shown pats.old) (P.shown pats.new) result }
{
    match prepare(alloc, words, moment, inputs, pats) {
        Ok(work) => {
            let done = perform(alloc, &work, moment, site, out, pats);
            drop(work);
            match done {
                Ok(end) => end_status(end),
                Err(stop) => {
                    let status = put_stop(&stop, out);
                    drop(stop);
                    status
                }
            }
        }
        Err(failure) => {
            let status = put_failure(&failure, out);
            drop(failure);
            status
        }
    }
}

// Reads whether the words ask for a demo, and does what they ask for.
fn call_for<I: Inputs, S: Site, O: Sink, P: Patterns>(
    alloc: Global,
    words: &[Name],
    moment: u64,
    inputs: &mut I,
    site: &mut S,
    out: &mut O,
    pats: &mut P,
) -> u8
    ensures { CalledFor (AlwaysTells S.shown) words.now moment
        (I.shown inputs.old) (I.shown inputs.new) (S.shown site.old) (S.shown site.new)
        (O.shown out.old) (O.shown out.new) (P.shown pats.old) (P.shown pats.new) result }
{
    match read_demo(alloc, words) {
        Ok(Some(number)) => demonstrate(alloc, number, moment, site, out),
        Ok(None) => call(alloc, words, moment, inputs, site, out, pats),
        Err(_) => put_stop(&Stop::Memory, out),
    }
}

/// Does what the words say, and answers the status of the process: 0 where the work came to its end, 1 where the words, the
/// moment, the policy or the journal are refused, 2 where a run ended with a failed promise, 3 where a check or a strict run
/// found two promises in conflict or `edits` told a clash, 4 where the inputs or the sink failed, or a lock or the journal of the
/// site, 5 where memory ended, 6 where a pattern was refused for its size or the run, or an analysis or a walk that is obeyed,
/// needs too many visits.
///
/// The words come without the program's name, as `cfa_words` reads them; `run POLICY`, `show POLICY`, `check POLICY`, `edits
/// POLICY`, `audit JOURNAL`, `history JOURNAL` and `demo N` are built so far. POLICY and JOURNAL name a text of the inputs, and
/// so do the inputs that a policy that is checked, walked or run lists. `moment` is the time in seconds since
/// 1970-01-01T00:00:00Z; one after the year 9998 is refused.
///
/// The words, the moment and the policy or the journal are read before anything is done on the site or put. A check puts the verdict
/// of the analysis, `accepted N` or the first conflict, in the classes of the calendar and of `-D`. Each valid policy is run: it is
/// analysed first, and the run is that of `cfa_agent`, in the same classes, with locks unless `-K` is given. Its last line tells
/// whether the world is settled. With `--strict` a policy that isn't accepted is not run, and its verdict is put. Each line is
/// put as soon as it stands. After a put that failed nothing more is put; after a failed reading, lock or record of the journal
/// the last line is `stopped: outside`, after want of memory it is `stopped: memory`, after a pattern that was refused for its
/// size it is `stopped: pattern`, and after too many visits it is `stopped: visits`. Where that line can't be put the status is 4.
///
/// `edits` puts a line for each instance of the open walk that edits a file, that its script is quiet or the first clash of its edits, and
/// then how many are quiet. A history puts a line for each promise of the journal, and for each file that something else changed between
/// two recorded writes. The lines of each are one text, made before any of it is put.
///
/// `demo N` makes a policy of N promises, from 1 to 10000, and checks and analyses it in the classes of the calendar. It is run twice
/// without locks on the site, where its files stand in the folder `/d`. The lines `demo N` and `accepted A` are put before the runs;
/// `repaired R` and `changes C` between them, by the first run; `rerun L` behind them, by the length of the second run's log, and then
/// whether the world is settled. The lines of the runs themselves are put nowhere. The status is that of the second run.
pub fn agent_main<I: Inputs, S: Site, O: Sink, P: Patterns>(
    alloc: Global,
    words: &[Name],
    moment: u64,
    inputs: &mut I,
    site: &mut S,
    out: &mut O,
    pats: &mut P,
) -> u8
    // A call that isn't stopped does exactly what its definition says, under the marks of the calls on the site that failed in
    // an act in this call.
    ensures exact { AsksNoDemo words.now
        → IsEnd result
        → IfSome (I.shown inputs.old).told (λ library. IfBothTold (λ before after.
        Stands (Does words.now moment library.texts before.world (marks_of (added before after)))
        before after (O.shown out.old) (O.shown out.new) result)
        (S.shown site.old) (S.shown site.new)) }

    // Each first part of what a call that isn't stopped adds to the log is told by its journal: the repairs that were finished, and
    // at most one in flight.
    ensures journaled { AsksNoDemo words.now
        → IsEnd result → IfBothTold (λ before after. AllBracketed before.world (added before after))
        (S.shown site.old) (S.shown site.new) }

    // A call that asks for no run does so on any site, and leaves the site as it was, however it ends.
    ensures without_site { AsksNoDemo words.now
        → AsksNoRun words.now → IsEnd result
        → IfSome (I.shown inputs.old).told (λ library. (world : declared.World) (marks : List Mark)
        → Puts (Does words.now moment library.texts world marks)
        (O.shown out.old) (O.shown out.new) result) }
    ensures site_untouched { AsksNoDemo words.now
        → AsksNoRun words.now → Untouched (S.shown site.old) (S.shown site.new) }
    ensures range { AsksNoDemo words.now
        → IsEnd result ⊎ IsStop result }

    // Status 1 comes exactly for refused words, a refused moment and a refused policy or journal, unless a put fails, memory
    // ends or a pattern is too big. Then the line of the refusal was put and nothing was done on the site, nor anything read
    // where the words or the moment are refused.
    ensures refused { AsksNoDemo words.now
        → result ≡ 1 →
        PutsRefusal words.now moment (I.shown inputs.old).told (O.shown out.old) (O.shown out.new) }
    ensures refused_untouched { AsksNoDemo words.now
        → result ≡ 1 → Untouched (S.shown site.old) (S.shown site.new) }
    ensures words_refused { AsksNoDemo words.now
        → asked words.now ≡ None →
        IsUnread words_line (I.shown inputs.old) (I.shown inputs.new)
        (O.shown out.old) (O.shown out.new) result
        × Untouched (S.shown site.old) (S.shown site.new) }
    ensures moment_refused { AsksNoDemo words.now
        → asked words.now ≢ None → LAST_MOMENT < moment →
        IsUnread moment_line (I.shown inputs.old) (I.shown inputs.new)
        (O.shown out.old) (O.shown out.new) result
        × Untouched (S.shown site.old) (S.shown site.new) }
    ensures request_refused { AsksNoDemo words.now
        → IfSome (I.shown inputs.old).told (λ library.
        AsksRefused words.now library.texts →
        IsNotDone result × Untouched (S.shown site.old) (S.shown site.new)) }

    // Status 2 comes only for a run, status 3 only for a check or a strict run, or for `edits`. Then the line of the conflict, or the
    // lines of the clashes, are all that was put, and the site is as it was.
    ensures failed { AsksNoDemo words.now
        → result ≡ 2 → AsksRun words.now }
    ensures conflict { AsksNoDemo words.now
        → result ≡ 3 → AsksToObey words.now
        × Untouched (S.shown site.old) (S.shown site.new) }
    ensures conflict_put { AsksNoDemo words.now
        → result ≡ 3
        → IfSome (I.shown inputs.old).told (λ library. (world : declared.World) (marks : List Mark)
        → Puts (Does words.now moment library.texts world marks)
        (O.shown out.old) (O.shown out.new) result) }

    // A strict run of a policy that isn't accepted leaves the site as it was, however it ends.
    ensures unaccepted { AsksNoDemo words.now
        → IfSome (I.shown inputs.old).told (λ library.
        AsksUnaccepted words.now moment library.texts →
        Untouched (S.shown site.old) (S.shown site.new)) }

    // Where the last line of a run is `settled: yes`, a rerun without locks and without a failed call, on the world that it left,
    // with the same classes and at whatever moment, changes nothing.
    ensures settled { AsksNoDemo words.now
        → IsEnd result → IfSome (O.shown out.new).told (λ bytes.
        EndsWith (settled_line settled_ends.End.Yes) bytes →
        IfSome (I.shown inputs.old).told (λ library. IfBothTold (λ before after.
        IsSettledBy words.now moment library.texts after.world)
        (S.shown site.old) (S.shown site.new))) }

    // What is taken is done, or memory ends, where nothing outside fails and no limit is passed.
    ensures complete { AsksNoDemo words.now
        → IfSome (I.shown inputs.old).told (λ library.
        AsksTaken words.now moment library.texts →
        IsUnhindered words.now moment library.texts (I.shown inputs.old) (I.shown inputs.new)
        (S.shown site.old) (S.shown site.new) (O.shown out.old) (O.shown out.new)
        (P.shown pats.old) (P.shown pats.new) → IsDoneOrMemory result) }

    // With every status but 4 no put failed: the sink's count of faults stands. This holds of demos too.
    ensures calm { result ≢ 4 → (O.shown out.new).faults ≡ (O.shown out.old).faults }

    // Where a call isn't stopped no reading failed. This holds of demos too.
    ensures read_whole { IsEnd result → Untouched (I.shown inputs.old) (I.shown inputs.new) }

    // Status 4 comes only where a put failed; or the reading of a file of the policy or of the journal did, before anything
    // was done on the site or put but the line that tells the stop; or, for a run, a call on the site did. No reading fails but
    // that of the file that is read next, and then the status is 4.
    ensures outside { AsksNoDemo words.now
        → result ≡ 4 → HasFault (O.shown out.old) (O.shown out.new)
        ⊎ (StopsReading words.now (I.shown inputs.old) (I.shown inputs.new)
        (S.shown site.old) (S.shown site.new) (O.shown out.old) (O.shown out.new)
        ⊎ StopsAtSite words.now (S.shown site.old) (S.shown site.new) (O.shown out.new)) }
    ensures names { AsksNoDemo words.now
        → ReadsInTurn words.now (I.shown inputs.old) (I.shown inputs.new) result }

    // Where a put fails, and no run is made, what was put is a first part of all that the call puts, which isn't all, and nothing
    // was put behind it.
    ensures put_short { AsksNoDemo words.now
        → result ≡ 4 → MakesRun words.now moment (I.shown inputs.old).told
        ⊎ (StopsReading words.now (I.shown inputs.old) (I.shown inputs.new)
        (S.shown site.old) (S.shown site.new) (O.shown out.old) (O.shown out.new)
        ⊎ FallsShort (IsToPut words.now moment (I.shown inputs.old) (I.shown inputs.new)
        (S.shown site.old) (S.shown site.new) (P.shown pats.old) (P.shown pats.new))
        (O.shown out.old) (O.shown out.new)) }

    // The line that tells want of memory is the last; where no run is asked for, it is all that was put.
    ensures memory { AsksNoDemo words.now
        → result ≡ 5 → AsksNoRun words.now
        → Follows (adds_bytes memory_line) (O.shown out.old) (O.shown out.new) }
    ensures memory_told { AsksNoDemo words.now
        → result ≡ 5 → PutsLast memory_line (O.shown out.new) }

    // Status 6 has two causes, which the last line tells apart. A pattern of a policy that is checked or run was refused for
    // its size, after all its files were read and nothing else was refused, or one that its analysis or the walk of `edits`
    // builds, before anything else was done; or one that a run builds. Or the analysis that a check or a strict run obeys,
    // or the walk of `edits`, needs more visits than it may make, before anything was done; or a run does, by its definition
    // under the marks of the entries so far: all before the promise with which it would have more was done then, and put, and
    // nothing else. A run of a policy that is refused is none of these, whatever the site tells.
    ensures pattern_or_visits { AsksNoDemo words.now
        → result ≡ 6 →
        StopsAtPattern words.now moment (I.shown inputs.old).told
        (S.shown site.old) (S.shown site.new)
        (O.shown out.old) (O.shown out.new) (P.shown pats.old) (P.shown pats.new)
        ⊎ StopsAtVisits words.now moment (I.shown inputs.old).told
        (S.shown site.old) (S.shown site.new) (O.shown out.old) (O.shown out.new)
        (P.shown pats.old) (P.shown pats.new) }

    // Otherwise no pattern was refused, unless the line that tells the stop couldn't be put: of one that was refused before a run
    // nothing was done on the site.
    ensures patterns_kept { AsksNoDemo words.now
        → result ≢ 6 → Untouched (P.shown pats.old) (P.shown pats.new)
        ⊎ ((result ≡ 4) × HasFault (O.shown out.old) (O.shown out.new)
        × RefusesText words.now moment (I.shown inputs.old).told
        (S.shown site.old) (S.shown site.new) (P.shown pats.old) (P.shown pats.new)) }

    // A call that asks for a demo reads nothing and builds no pattern. Up to its stop, if one comes, it puts its first lines, runs the
    // policy of that many promises, tells it, and runs it again on the world that the first run left, and tells that.
    ensures demo { (number : ℕ) → demo_asked words.now ≡ Some number →
        Demonstrates (AlwaysTells S.shown) number moment (S.shown site.old) (S.shown site.new)
        (O.shown out.old) (O.shown out.new) result }

    // A demo in time is neither refused nor found in conflict. Its second run comes to its end, and gives the status, unless a put
    // failed, the site has counted a failed call, memory ends, or a site that needn't tell its world sees too many visits.
    ensures demo_ends { (number : ℕ) → demo_asked words.now ≡ Some number →
        moment ≤ LAST_MOMENT → EndsDemo (AlwaysTells S.shown) (S.shown site.new)
        (O.shown out.old) (O.shown out.new) result }
    ensures demo_unread { (number : ℕ) → demo_asked words.now ≡ Some number →
        Untouched (I.shown inputs.old) (I.shown inputs.new)
        × Untouched (P.shown pats.old) (P.shown pats.new) }
{
    taken_requests_are_not_refused();
    a_policy_is_run_in_one_setting();
    conflicts_meet_in_resources();
    demos_are_taken();
    demos_are_walked();
    demos_are_accepted();
    call_for(alloc, words, moment, inputs, site, out, pats)
}
