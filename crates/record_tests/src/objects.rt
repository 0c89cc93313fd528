//! A directory through more names than its states share.

use ready_objects::{Amount, DirectoryInv, DirectoryObject, DirectoryResp, Name};
use seq_object::SeqObject;
use std::alloc::{AllocError, Global};
use std::test::Fail;

/// A state of a directory.
type State = <DirectoryObject as SeqObject>::State;

/// The state after one more name has come and gone.
fn come_and_gone(alloc: Global, state: &State, number: u64) -> Result<State, Fail> {
    let text = format!(in alloc; "n{number}")?;
    let name = Name::read(text.as_bytes()).ok_or("no name")?;
    let put = DirectoryInv::Put(name.clone()?, Amount::ZERO);
    let (there, _) = DirectoryObject.apply(alloc, state, &put)?;
    let (gone, _) = DirectoryObject.apply(alloc, &there, &DirectoryInv::Del(name))?;
    Ok(gone)
}

/// The state after a name with its value, and so many others that came and went.
fn kept_beside(alloc: Global, name: Name, value: Amount, others: u64) -> Result<State, Fail> {
    let start = DirectoryObject.start(alloc)?;
    let mut state = DirectoryObject
        .apply(alloc, &start, &DirectoryInv::Put(name, value))?
        .0;
    for number in 0..others {
        state = come_and_gone(alloc, &state, number)?;
    }
    Ok(state)
}

/// What a directory answers.
fn answer(alloc: Global, state: &State, inv: &DirectoryInv) -> Result<DirectoryResp, AllocError> {
    Ok(DirectoryObject.apply(alloc, state, inv)?.1)
}

#[test]
fn more_names_go_than_states_share(rt: HostRuntime) -> Result<(), Fail> {
    let alloc = rt.alloc();
    let kept = Name::read(b"kept").ok_or("no name")?;
    let seven = Amount::new(7).ok_or("no amount")?;
    let state = kept_beside(alloc, kept.clone()?, seven, 1100)?;
    assert!(rt; answer(alloc, &state, &DirectoryInv::Get(kept))? == DirectoryResp::Found(seven));
    assert!(rt; answer(alloc, &state, &DirectoryInv::Size)? == DirectoryResp::Count(1));
    Ok(())
}
