// What holds of the moves of every stack.
ghost use Rattle.std.specs.Prelude.{◌≡◌, ◌+◌, ◌<◌, ℕ, true, false, List, [], ◌∷◌, length};
ghost use Rattle.cfa_frames.specs.Depths.{calls_before, run_with};
ghost use Rattle.cfa_frames.specs.Frames.{Frame, Stack, beginning, rest};
ghost use Rattle.cfa_frames.specs.Growing.{AnswerAlike, CourseGrows, NextGrows};
ghost use Rattle.cfa_frames.specs.Hearing.{NextQuietly};
ghost use Rattle.cfa_frames.specs.Moves.{Meets, come_to, ended, ending, entered, moved};
ghost use Rattle.cfa_frames.specs.Moves.{need_of, nothing, over, skipped, skipping};
ghost use Rattle.cfa_frames.specs.Standing.{AreNested, AreShorter, IsNested, NextIsNested};
ghost use Rattle.cfa_frames.specs.Weights.{IsLighter, weight};
ghost use Rattle.cfa_outcomes.specs.declared.outcomes.Outcome.{Outcome};
ghost use Rattle.cfa_resolve.specs.declared.instances.Instance.{Instance};
ghost use Rattle.cfa_schema.specs.Valid.{Valid};
ghost use Rattle.cfa_states.specs.History.{History, Listed, Told};
ghost use Rattle.cfa_states.specs.Levels.{outcomes_of};
ghost use Rattle.cfa_states.specs.Passes.{Calls, all_calls, calls_of, goes, run};
ghost use Rattle.cfa_states.specs.Tellers.{Teller};
ghost use Rattle.cfa_states.specs.Views.{Setting};
ghost use Rattle.cfa_statuses.specs.declared.levels.Status.{Status};

use cfa_resolve::{instances_are_few, instances_are_named};
use cfa_schema::{chains_are_short, served_bundles_stand};

/// The stack with which a run begins comes to the whole run. A move leaves what the history so far
/// and the stack still come to as it was, and so does each answer as the teller tells. Where nothing
/// is left to do, they come to the history so far.
pub fn moves_keep_what_is_left()
    ensures begins { (s : Setting) (t : Teller) → rest s t (beginning s) [] ≡ run s t }
    ensures moved { (s : Setting) (t : Teller) (st : Stack) (h : History)
        → Meets s t (moved s st h) (rest s t st h) }
    ensures skipped { (s : Setting) (t : Teller) (st : Stack) (h : History)
        → (i : Instance) (status : Status) → need_of st ≡ skipping i status
        → t.skips h i ≡ true → Meets s t (skipped st h) (rest s t st h) }
    ensures entered { (s : Setting) (t : Teller) (st : Stack) (h : History)
        → (i : Instance) (status : Status) → need_of st ≡ skipping i status
        → t.skips h i ≡ false → Meets s t (entered s st h) (rest s t st h) }
    ensures ended { (s : Setting) (t : Teller) (st : Stack) (h : History)
        → (i : Instance) (status : Status) → need_of st ≡ ending i status
        → Meets s t (ended (outcomes_of t h i i.work) st h) (rest s t st h) }
    ensures over { (s : Setting) (t : Teller) (st : Stack) (h : History)
        → need_of st ≡ over → rest s t st h ≡ goes h }
{}

/// A move lowers the weight of a stack that waits for nothing, and an answer that of a stack that
/// waits for it, whatever is answered.
pub fn moves_lower_the_weight()
    ensures moved { (s : Setting) (st : Stack) (h : History)
        → need_of st ≡ nothing → IsLighter s (moved s st h) (weight s st h) }
    ensures skipped { (s : Setting) (st : Stack) (h : History) (i : Instance) (status : Status)
        → need_of st ≡ skipping i status → IsLighter s (skipped st h) (weight s st h) }
    ensures entered { (s : Setting) (st : Stack) (h : History) (i : Instance) (status : Status)
        → need_of st ≡ skipping i status → IsLighter s (entered s st h) (weight s st h) }
    ensures ended { (s : Setting) (st : Stack) (h : History) (i : Instance) (status : Status)
        → (outcomes : List Outcome) → need_of st ≡ ending i status
        → IsLighter s (ended outcomes st h) (weight s st h) }
{
    instances_are_few();
}

/// A run by moves and answers ends: more of them than a stack weighs come to what is left to it, so
/// those from the beginning come to the whole run.
pub fn moves_make_the_run()
    ensures left { (s : Setting) (t : Teller) (st : Stack) (h : History) (n : ℕ)
        → weight s st h < n → come_to s t n st h ≡ rest s t st h }
    ensures run { (s : Setting) (t : Teller) (n : ℕ)
        → weight s (beginning s) [] < n → come_to s t n (beginning s) [] ≡ run s t }
{
    instances_are_few();
}

/// What has happened stays: a move and an answer add events to a history and take none away, and so
/// does all that is left to a stack. What that is hangs on the answers to come alone.
pub fn histories_only_grow()
    ensures moved { (s : Setting) (st : Stack) (h : History) → NextGrows h (moved s st h) }
    ensures skipped { (st : Stack) (h : History) → NextGrows h (skipped st h) }
    ensures entered { (s : Setting) (st : Stack) (h : History) → NextGrows h (entered s st h) }
    ensures ended { (st : Stack) (h : History) (outcomes : List Outcome)
        → NextGrows h (ended outcomes st h) }
    ensures left { (s : Setting) (t : Teller) (st : Stack) (h : History)
        → CourseGrows h (rest s t st h) }
    ensures alike { (s : Setting) (t u : Teller) (st : Stack) (h : History)
        → AnswerAlike h t u → rest s t st h ≡ rest s u st h }
{
    instances_are_few();
}

/// A move adds events alone that a teller needn't hear of. An answer adds what it is heard by, the
/// visit that is listed or the instance that is told, and then such events.
pub fn moves_are_quiet()
    ensures moved { (s : Setting) (st : Stack) (h : History) → NextQuietly h (moved s st h) }
    ensures skipped { (st : Stack) (h : History) (i : Instance) (status : Status)
        → need_of st ≡ skipping i status
        → NextQuietly (Told i [] ∷ Listed i status ∷ h) (skipped st h) }
    ensures entered { (s : Setting) (st : Stack) (h : History) (i : Instance) (status : Status)
        → need_of st ≡ skipping i status → NextQuietly (Listed i status ∷ h) (entered s st h) }
    ensures ended { (st : Stack) (h : History) (i : Instance) (status : Status)
        → (outcomes : List Outcome) → need_of st ≡ ending i status
        → NextQuietly (Told i outcomes ∷ h) (ended outcomes st h) }
{}

/// The frames of a run stay nested: each but the innermost runs the call whose bundle is gone through
/// above it. So the path of each is longer than those below.
pub fn frames_stay_nested()
    ensures begins { (s : Setting) → IsNested (beginning s) }
    ensures moved { (s : Setting) (st : Stack) (h : History) → IsNested st
        → NextIsNested (moved s st h) }
    ensures skipped { (st : Stack) (h : History) → IsNested st → NextIsNested (skipped st h) }
    ensures entered { (s : Setting) (st : Stack) (h : History) → IsNested st
        → NextIsNested (entered s st h) }
    ensures ended { (st : Stack) (h : History) (outcomes : List Outcome) → IsNested st
        → NextIsNested (ended outcomes st h) }
    ensures longer { (f : Frame) (frames : List Frame) → AreNested (f ∷ frames)
        → AreShorter (length f.home.path) frames }
{
    instances_are_named();
}

/// No history of a valid policy ends or goes on otherwise for want of depth. A run has as many levels
/// of calls as its policy has blocks: with more of them it is the same, and so it is whatever calls
/// behind the last level do, since none is made there.
pub fn calls_never_lack_depth()
    ensures same { (s : Setting) (t : Teller) → run_with s t (all_calls s t) ≡ run s t }
    ensures deeper { (s : Setting) (t : Teller) (n : ℕ) → Valid s.policy
        → run_with s t (calls_of s t (n + length s.policy)) ≡ run s t }
    ensures never_past_the_last { (s : Setting) (t : Teller) (others : Calls) → Valid s.policy
        → run_with s t (calls_before s t others (length s.policy)) ≡ run s t }
{
    chains_are_short();
    served_bundles_stand();
}
