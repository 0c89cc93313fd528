//! The parts of a cell: what settles once, and what its owner writes.

use consensus_cell::{Own, Settle};
use std::test::Fail;

/// What comes of a proposal, and what is settled after it.
fn decided(settle: &mut Settle<u32>, proposal: u32) -> (u32, Option<u32>) {
    let decided = *settle.decide(proposal);
    (decided, settle.get().copied())
}

#[test]
fn the_first_proposal_stands(rt: HostRuntime) -> Result<(), Fail> {
    let mut settle = Settle::new();
    assert!(rt; settle.get().is_none());
    for (proposal, want) in [(7, 7), (9, 7), (7, 7), (0, 7)] {
        let (decided, settled) = decided(&mut settle, proposal);
        assert!(rt; decided == want, "at {proposal}");
        assert!(rt; settled == Some(want), "after {proposal}");
    }
    assert!(rt; settle.into_inner() == Some(7));
    Ok(())
}

#[test]
fn the_last_write_is_read(rt: HostRuntime) -> Result<(), Fail> {
    let mut own = Own::new(3u64);
    assert_eq!(rt; own.read(), 3);
    for value in [5, 0, 8] {
        own.write(value);
        assert_eq!(rt; own.read(), value);
    }
    Ok(())
}
