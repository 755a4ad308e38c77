// Who tells how instances end.
ghost use Rattle.std.specs.Prelude.{◌∷◌, IfErr, IfOk, IsTrue, OnOk};
ghost use Rattle.cfa_schema.specs.Laws.{IsCounted};
ghost use Rattle.cfa_states.specs.History.{History, Event};
ghost use Rattle.cfa_states.specs.Levels.{HasVisited, HasTold, Faults, Later, Stops, IsTellersStop, is_quiet};
ghost use Rattle.cfa_states.specs.Tellers as tellers;

use cfa_outcomes::Outcome;
use cfa_output::Stop;
use cfa_resolve::Instance;
use cfa_states::Ending;
use cfa_statuses::Status;
use std::alloc::Global;

/// Who tells which visits are skipped and how instances end. It stands on a site and a sink, or on whatever else it was made
/// for.
pub trait Teller<S, O> {
    /// What a teller of the definition is made of.
    ghost given: { Type 0 };

    ghost teller: { given → tellers.Teller };

    /// It agrees with a teller of the definition as far as it was asked.
    ghost agrees: { Self × (S × O) → given → Type 0 };

    /// It stands behind a history that a teller of the definition tells.
    ghost behind: { Self × (S × O) → given → History → Type 0 };

    /// How often a call on the site failed, and how often one on the sink did.
    ghost faults: { Self × (S × O) → Faults };

    /// What its counts come to from one point to a later one, behind answers alone.
    ghost counts: { Self × (S × O) → Self × (S × O) → Type 0 };

    /// So they do where nothing was asked.
    ghost counts_none: { (w : Self × (S × O)) → counts w w };

    /// They do over two stretches if they do over each.
    ghost counts_then: { (v w x : Self × (S × O)) → counts v w → counts w x → counts v x };

    /// Hears of a visit of an instance, and answers whether it is skipped.
    fn visit(
        &mut self,
        alloc: Global,
        instance: &Instance,
        status: Status,
        site: &mut S,
        out: &mut O,
    ) -> Result<bool, Stop>
        ensures visited { IfOk result (HasVisited teller agrees behind
            (self.old, (site.old, out.old)) (self.new, (site.new, out.new))
            instance.now status) }
        ensures counted { OnOk result (counts (self.old, (site.old, out.old))
            (self.new, (site.new, out.new))) }
        ensures later { IfOk result (λ skipped. Later (faults (self.old, (site.old, out.old)))
            (faults (self.new, (site.new, out.new)))) }
        ensures stopped { IfErr result (Stops (faults (self.old, (site.old, out.old)))
            (faults (self.new, (site.new, out.new)))) }
        ensures own { IfErr result IsTellersStop };

    /// Makes an instance end, and answers how it did or may end. Of a call it is handed the worst outcome in its bundle.
    fn tell(
        &mut self,
        alloc: Global,
        instance: &Instance,
        called: Outcome,
        site: &mut S,
        out: &mut O,
    ) -> Result<Ending, Stop>
        requires { IsCounted instance.now.source }
        ensures told { IfOk result (HasTold teller agrees behind (self.old, (site.old, out.old))
            (self.new, (site.new, out.new)) instance.now called) }
        ensures counted { OnOk result (counts (self.old, (site.old, out.old))
            (self.new, (site.new, out.new))) }
        ensures later { IfOk result (λ ending. Later (faults (self.old, (site.old, out.old)))
            (faults (self.new, (site.new, out.new)))) }
        ensures stopped { IfErr result (Stops (faults (self.old, (site.old, out.old)))
            (faults (self.new, (site.new, out.new)))) }
        ensures own { IfErr result IsTellersStop };

    /// Other events than visits and endings leave it as it is.
    ghost steady: { (w : Self × (S × O)) (x : given) (event : Event) (h : History)
        → IsTrue (is_quiet event) → behind w x h → behind w x (event ∷ h) };
}
