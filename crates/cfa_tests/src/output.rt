// The lines that no call of the program puts in the tests of the top call: those of a demo, of want of memory, and of the greatest
// count.
use cfa_output::{Halt, Item, line_of};
use std::alloc::Global;
use std::process::Abort;
use std::test::Fail;

fn check(rt: &impl Abort, alloc: Global, item: Item, text: &str) -> Result<(), Fail> {
    let line = line_of(alloc, item)?;
    assert_eq!(rt; line.as_str(), text);
    Ok(())
}

#[test]
fn lines_of_a_demo(rt: HostRuntime) -> Result<(), Fail> {
    let alloc = rt.alloc();
    check(&rt, alloc, Item::Demo(10_000), "demo 10000\n")?;
    check(&rt, alloc, Item::DemoRepaired(10_000), "repaired 10000\n")?;
    check(&rt, alloc, Item::Changes(12_500), "changes 12500\n")?;
    check(&rt, alloc, Item::Rerun(0), "rerun 0\n")
}

#[test]
fn lines_that_stop_or_end(rt: HostRuntime) -> Result<(), Fail> {
    let alloc = rt.alloc();
    check(&rt, alloc, Item::Stopped(Halt::Memory), "stopped: memory\n")?;
    let most = Item::Total(1, 20, 0, u64::MAX);
    let line = "total kept 1 repaired 20 failed 0 skipped 18446744073709551615\n";
    check(&rt, alloc, most, line)
}
