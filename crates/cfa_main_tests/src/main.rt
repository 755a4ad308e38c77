//! Worked rows of the top call, in the tables of `data/`: policies, hosts, logs, lines and statuses. What isn't met is told.
#![tactic(auto)]

use cfa_base::Name;
use cfa_main::agent_main;
use cfa_outside::{MemoryInputs, MemorySink, RegexPatterns, Site};
use cfa_test_rows::{Top, run_all};
use std::alloc::Global;
use std::process::ExitCode;

struct AgentMain;

impl Top for AgentMain {
    fn call<S: Site>(
        alloc: Global,
        words: &[Name],
        moment: u64,
        inputs: &mut MemoryInputs,
        site: &mut S,
        out: &mut MemorySink,
        pats: &mut RegexPatterns,
    ) -> u8 {
        agent_main(alloc, words, moment, inputs, site, out, pats)
    }
}

fn main(rt: HostRuntime) -> ExitCode {
    ExitCode::from(u8::from(!run_all::<AgentMain>(rt)))
}
