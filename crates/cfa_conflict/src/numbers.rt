// The first and the last visit of each instance.
ghost use Rattle.std.specs.Prelude.{◌≡◌, ◌<◌, IfOk, length, option_copied, vec_len};
ghost use Rattle.cfa_conflict.specs.Targets.{AreNumbers};

use cfa_base::NoMemory;
use cfa_walk::Visit;
use std::alloc::Global;

/// Visits, with the numbers of the first and of the last one of each instance, by its place. The visits are numbered from 0.
/// Where an instance has no visit the number of its first one is that of all visits, and the number of its last one is 0.
#[derive(Drop)]
pub(crate) struct VisitIndex<'a> {
    pub visits: &'a [Visit],
    pub firsts: Vec<usize>,
    pub lasts: Vec<usize>,
    ghost numbered: { AreNumbers visits.now firsts.items lasts.items },
}

impl<'a> VisitIndex<'a> {
    ghost use Rattle.cfa_conflict.specs.Conflicts.{first_visit, is_visited_after};

    /// The numbers of so many instances, in one way through the visits.
    pub(crate) fn new(
        alloc: Global,
        visits: &'a [Visit],
        count: usize,
    ) -> Result<VisitIndex<'a>, NoMemory>
        ensures visits { IfOk result (λ index. index.visits.now ≡ visits.entry.now) }
        ensures count { IfOk result (λ index. vec_len index.firsts ≡ count) }
    {
        let mut firsts = vec![in alloc; visits.len(); count]?;
        let mut lasts = vec![in alloc; 0usize; count]?;
        for i in (0..visits.len()).rev() {
            let place = visits[i].instance as usize;
            if place < count {
                firsts[place] = i;
                if lasts[place] == 0 {
                    lasts[place] = i;
                }
            }
        }
        Ok(VisitIndex {
            visits,
            firsts,
            lasts,
        })
    }

    /// The first visit of the instance at a place.
    pub(crate) fn first_visit(&self, place: usize) -> Option<&'a Visit>
        requires { place < vec_len self.now.firsts }
        ensures { option_copied result ≡ first_visit self.now.visits.now place }
    {
        self.visits.get(self.firsts[place])
    }

    /// Whether the instance at the other place is visited after the first visit of the one at this place.
    pub(crate) fn is_visited_after(&self, place: usize, other: usize) -> bool
        requires place { place < vec_len self.now.firsts }
        requires other { other < vec_len self.now.firsts }
        ensures { result ≡ is_visited_after self.now.visits.now place other }
    {
        self.firsts[place] < self.lasts[other]
    }
}
