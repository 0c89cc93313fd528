//! Graphs of two processes, by a second implementation's count of worlds and events, and what is refused.

use run_graph::{ExploreFault, Graph, Plan, explore, world_at};
use seq_object::SwapRegister;
use std::alloc::{AllocError, Global};
use std::process::Abort;
use std::test::Fail;
use uni_core::OpenFault;

/// Two processes share a register, in which they swap so many numbers.
fn plan(alloc: Global, first: u32, second: u32) -> Result<Plan<SwapRegister>, AllocError> {
    let mut calls = Vec::new(alloc);
    for count in [first, second] {
        let mut own = Vec::new(alloc);
        for number in 0..count {
            own.push(number)?;
        }
        calls.push(own)?;
    }
    Ok(Plan {
        object: SwapRegister { start: 9 },
        processes: 2,
        row: 4,
        calls,
    })
}

/// How many worlds and events a graph has.
fn counts(graph: &Graph) -> (usize, usize) {
    (
        graph.paths.len(),
        graph
            .targets
            .iter()
            .filter(|target| target.is_some())
            .count(),
    )
}

/// The graph of so many calls of two processes has so many worlds and events.
fn has_counts(
    rt: &impl Abort,
    alloc: Global,
    calls: (u32, u32),
    want: (usize, usize),
) -> Result<(), AllocError> {
    let plan = plan(alloc, calls.0, calls.1)?;
    match explore(alloc, &plan, 10_000) {
        Ok(graph) => assert!(rt; counts(&graph) == want),
        Err(_) => return Err(AllocError),
    }
    Ok(())
}

#[test]
fn worlds_are_counted_once(rt: HostRuntime) -> Result<(), Fail> {
    has_counts(&rt, rt.alloc(), (0, 0), (1, 0))?;
    has_counts(&rt, rt.alloc(), (1, 1), (747, 1_396))?;
    Ok(())
}

#[test]
fn refusals_are_named(rt: HostRuntime) -> Result<(), Fail> {
    let alloc = rt.alloc();
    let mut plan = plan(alloc, 1, 1)?;
    assert!(rt; explore(alloc, &plan, 746).err() == Some(ExploreFault::Limit));
    assert!(rt; explore(alloc, &plan, 0).err() == Some(ExploreFault::Limit));
    plan.processes = 65;
    assert!(rt;
        explore(alloc, &plan, 10).err() == Some(ExploreFault::Opening(OpenFault::BadCount))
    );
    Ok(())
}

#[test]
fn no_world_is_at_a_path_that_does_not_come(rt: HostRuntime) -> Result<(), Fail> {
    let alloc = rt.alloc();
    let plan = plan(alloc, 1, 0)?;
    assert!(rt; matches!(world_at(alloc, &plan, &[0, 0]), Ok(Some(_))));
    assert!(rt; matches!(world_at(alloc, &plan, &[1]), Ok(None)));
    assert!(rt; matches!(world_at(alloc, &plan, &[2]), Ok(None)));
    Ok(())
}
