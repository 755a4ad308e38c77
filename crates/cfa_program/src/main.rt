//! The agent: runs, shows and checks policies, and audits journals, by the words of its command line, on the real host. What a
//! person is told beside goes to standard error, and changes nothing.
#![tactic(auto)]

mod descriptors;
mod reading;
mod telling;

use cfa_advice::{NotingInputs, NotingSink, NotingSite};
use cfa_base::{Name, NoMemory};
use cfa_hints::NotingPatterns;
use cfa_hostdir::{HostInputs, HostSink, HostSite};
use cfa_main::{agent_main, stop_status};
use cfa_output::{Object, Stop};
use cfa_outside::RegexPatterns;
use std::alloc::Global;
use std::env;
use std::process::ExitCode;
use std::rt::Clock;
use std::time::{SystemTime, UNIX_EPOCH};

type Inputs = NotingInputs<HostInputs<HostRuntime>>;

type Host = NotingSite<HostSite<HostRuntime>>;

type Out = NotingSink<HostSink<HostRuntime>>;

type Pats = NotingPatterns<RegexPatterns>;

// The words without the program's name. None where one of them isn't UTF-8, so that they are refused.
fn read_words(rt: &HostRuntime, alloc: Global) -> Result<Vec<Name>, NoMemory> {
    let mut words = Vec::new(alloc);
    if let Ok(args) = env::args(rt) {
        for arg in args.skip(1) {
            words.push(Name::from_text(alloc, arg.as_str())?)?;
        }
    }
    Ok(words)
}

// The clock's seconds since 1970. A clock that can't be read, or that stands before that, gives a moment that is refused.
fn moment_now(clock: &impl Clock) -> u64 {
    let Ok(now) = SystemTime::now(clock) else {
        return u64::MAX;
    };
    match now.duration_since(UNIX_EPOCH) {
        Ok(since) => since.as_secs(),
        Err(_) => u64::MAX,
    }
}

// Runs the agent on a host, and answers its status.
fn run_agent(
    alloc: Global,
    words: &[Name],
    moment: u64,
    inputs: &mut Inputs,
    site: &mut Host,
    out: &mut Out,
    pats: &mut Pats,
) -> u8 {
    let status = agent_main(alloc, words, moment, inputs, site, out, pats);
    // Where the tables can't be written, the next call on the host reads the rows that changed.
    let _ = site.inner().write_tables(alloc);
    if site.inner().settle() {
        status
    } else {
        // The last record was written, and nobody knows whether it lasts.
        stop_status(&Stop::Outside(Object::Site))
    }
}

fn start(rt: &HostRuntime) -> Result<u8, NoMemory> {
    let alloc = rt.alloc();
    let words = read_words(rt, alloc)?;
    let host = Name::from_text(alloc, "host")?;
    let (for_inputs, for_site, for_sink) = (rt.clone()?, rt.clone()?, rt.clone()?);
    let mut inputs = NotingInputs::new(alloc, HostInputs::new(for_inputs));
    let mut site = NotingSite::new(alloc, HostSite::new(for_site, host));
    let mut out = NotingSink::new(alloc, HostSink::new(for_sink));
    let mut pats = NotingPatterns::new(alloc, RegexPatterns::new(alloc, Vec::new(alloc)));
    let words = words.as_slice();
    let moment = moment_now(rt);
    let status = run_agent(
        alloc,
        words,
        moment,
        &mut inputs,
        &mut site,
        &mut out,
        &mut pats,
    );
    telling::tell(rt, words, status, &mut inputs, &mut site, &out, &pats);
    drop(site);
    Ok(status)
}

fn main(rt: HostRuntime) -> ExitCode {
    let held = descriptors::hold(&rt);
    let status = match start(&rt) {
        Ok(status) => status,
        Err(error) => stop_status(&Stop::from(error)),
    };
    drop(held);
    ExitCode::from(status)
}
