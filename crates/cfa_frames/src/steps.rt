// What holds of the steps of every run.
ghost use Rattle.std.specs.Prelude.{◌≡◌, ◌<◌, ℕ, suc, true, false, List, All, replicate};
ghost use Rattle.cfa_frames.specs.Frames.{Stack, rest};
ghost use Rattle.cfa_frames.specs.Growing.{NextGrows};
ghost use Rattle.cfa_frames.specs.Moves.{Meets, Next, answered, goes_on, need_of, over};
ghost use Rattle.cfa_frames.specs.Steps.{AlwaysTells, EndsAs, HasActuated, IsOver, IsWhole};
ghost use Rattle.cfa_frames.specs.Steps.{StepAlike, actuations_in, after_steps, awaits_actuation};
ghost use Rattle.cfa_frames.specs.Steps.{begun, by_turns, course_at, history_at, step};
ghost use Rattle.cfa_frames.specs.Steps.{Turn, handed_to, interleaved, step_within, then_step};
ghost use Rattle.cfa_frames.specs.Weights.{weight};
ghost use Rattle.cfa_states.specs.History.{History};
ghost use Rattle.cfa_states.specs.Passes.{run};
ghost use Rattle.cfa_states.specs.Tellers.{Teller};
ghost use Rattle.cfa_states.specs.Views.{Setting};

use cfa_resolve::instances_are_few;

/// A step of a stack that waits for an actuation is that answer; of every other stack it is what
/// the stack does first, and the step from there. It ends: more moves and answers than the stack
/// weighs are enough for it. Where nothing is left to do it changes nothing.
pub fn steps_end_with_an_actuation()
    ensures actuates { (s : Setting) (t : Teller) (st : Stack) (h : History)
        → awaits_actuation (need_of st) ≡ true
        → step s t st h ≡ answered s t (need_of st) st h }
    ensures goes_on { (s : Setting) (t : Teller) (st : Stack) (h : History)
        → awaits_actuation (need_of st) ≡ false
        → step s t st h ≡ then_step s t (answered s t (need_of st) st h) }
    ensures ends { (s : Setting) (t : Teller) (st : Stack) (h : History) (n : ℕ)
        → weight s st h < n → step_within s t n st h ≡ step s t st h }
    ensures over { (s : Setting) (t : Teller) (st : Stack) (h : History)
        → need_of st ≡ over → step s t st h ≡ goes_on st h }
{
    instances_are_few();
}

/// A step leaves what the history so far and the stack still come to as it was, where the rest is
/// told by its teller. It adds events to the history and takes none away.
pub fn steps_keep_what_is_left()
    ensures left { (s : Setting) (t : Teller) (st : Stack) (h : History)
        → Meets s t (step s t st h) (rest s t st h) }
    ensures grows { (s : Setting) (t : Teller) (st : Stack) (h : History)
        → NextGrows h (step s t st h) }
{}

/// What a step adds to the history ends with the actuation of an instance, the only one, and more
/// is left to do; or nothing is left to do; or the run is too large there. So a run has as many
/// steps as actuations, and one. What a step does hangs on the answers up to its actuation alone.
pub fn steps_are_whole()
    ensures whole { (s : Setting) (t : Teller) (st : Stack) (h : History)
        → IsWhole t h (step s t st h) }
    ensures counted { (t : Teller) (h k : History) → AlwaysTells t → HasActuated t h k
        → actuations_in k ≡ suc (actuations_in h) }
    ensures alike { (s : Setting) (t u : Teller) (st : Stack) (h : History)
        → StepAlike h t u → step s t st h ≡ step s u st h }
{
    instances_are_few();
}

/// Steps by one teller make the run of the definition, once they are more than it has actuations.
/// Steps that are each handed a teller of their own make that of the teller that answers at each
/// history as the one at hand did: what they come to and what is left make its run, which is what
/// they come to where nothing is left. A run that is over stays as it is, whatever is handed in.
pub fn steps_make_the_run()
    ensures run { (s : Setting) (t : Teller) (n : ℕ)
        → AlwaysTells t → actuations_in (history_at (run s t)) < n
        → EndsAs (run s t) (after_steps s (replicate n t) (begun s)) }
    ensures turns { (s : Setting) (tellers : List Teller) (last : Teller)
        → All AlwaysTells tellers
        → Meets s (by_turns tellers last) (after_steps s tellers (begun s))
        (run s (by_turns tellers last)) }
    ensures ended { (s : Setting) (tellers : List Teller) (last : Teller)
        → All AlwaysTells tellers → IsOver (after_steps s tellers (begun s))
        → course_at (after_steps s tellers (begun s)) ≡ run s (by_turns tellers last) }
    ensures stays { (s : Setting) (tellers : List Teller) (x : Next)
        → IsOver x → after_steps s tellers x ≡ x }
{
    instances_are_few();
}

/// Where several runs of one policy are moved by turns, a step each time, each of them stands where
/// its own steps bring it, by the tellers that it was handed in these. So each is one of the
/// definition, by the teller that answers at each of its histories as that of its step at hand.
pub fn each_run_has_its_own_steps()
    ensures alone { (s : Setting) (turns : List Turn) (runs : ℕ → Next) (number : ℕ)
        → interleaved s turns runs number
        ≡ after_steps s (handed_to number turns) (runs number) }
    ensures made { (s : Setting) (turns : List Turn) (last : Teller) (number : ℕ)
        → All AlwaysTells (handed_to number turns)
        → Meets s (by_turns (handed_to number turns) last)
        (interleaved s turns (λ k. begun s) number)
        (run s (by_turns (handed_to number turns) last)) }
    ensures ended { (s : Setting) (turns : List Turn) (last : Teller) (number : ℕ)
        → All AlwaysTells (handed_to number turns)
        → IsOver (interleaved s turns (λ k. begun s) number)
        → course_at (interleaved s turns (λ k. begun s) number)
        ≡ run s (by_turns (handed_to number turns) last) }
{
    instances_are_few();
}
