//! The text of each fault, once.

use seq_object::CallId;
use std::alloc::Global;
use std::fmt;
use std::io::Write;
use std::process::Abort;
use uni_core::{
    BeginFault, OpenFault, Refusal as CommandFault, ReshapeFault, StepFault, TrimFault,
};
use uni_record::{
    RecordBeginFault, RecordOpenFault, RecordReshapeFault, RecordStepFault, RecordTrimFault,
    Refusal,
};
use uni_shared::{ApplyFault, CloseFault, StepHeldFault};

/// The call 3.5.
const CALL: CallId = CallId { process: 3, nth: 5 };

/// Asserts what faults of one kind tell.
fn tell<T: fmt::Display>(rt: &impl Abort, alloc: Global, rows: &[(T, &str)]) {
    for (fault, text) in rows {
        let mut told = Vec::new(alloc);
        let is_told = write!(told, "{fault}").is_ok();
        assert!(rt; is_told && told.as_slice() == text.as_bytes(), "{text}");
    }
}

#[test]
fn faults_of_worlds(rt: HostRuntime) {
    let alloc = rt.alloc();
    let rows = [
        (
            OpenFault::BadCount,
            "the number of processes isn't from 1 to 64",
        ),
        (OpenFault::BadRow, "the row isn't from 1 to 4096"),
        (
            OpenFault::SeqFull,
            "the numbers of an era would pass 2^48 - 1",
        ),
        (OpenFault::Memory, "out of memory"),
    ];
    tell(&rt, alloc, rows.as_slice());
    let rows = [
        (BeginFault::BadProcess, "there is no such process"),
        (BeginFault::Busy(3), "process 3 has a call pending"),
        (
            BeginFault::RowFull(3),
            "process 3 has made as many calls in this era as a row has",
        ),
        (BeginFault::Memory, "out of memory"),
    ];
    tell(&rt, alloc, rows.as_slice());
    let rows = [
        (StepFault::BadProcess, "there is no such process"),
        (StepFault::Idle(3), "process 3 has no call pending"),
        (StepFault::Memory, "out of memory"),
    ];
    tell(&rt, alloc, rows.as_slice());
    let rows = [
        (CommandFault::BadProcess, "there is no such process"),
        (CommandFault::Busy(3), "process 3 has a call pending"),
        (
            CommandFault::RowFull(3),
            "process 3 has made as many calls in this era as a row has",
        ),
        (CommandFault::Idle(3), "process 3 has no call pending"),
        (CommandFault::Memory, "out of memory"),
    ];
    tell(&rt, alloc, rows.as_slice());
    let rows = [
        (TrimFault::Pending(3), "process 3 has a call pending"),
        (
            TrimFault::SeqFull,
            "the numbers of the next era would pass 2^48 - 1",
        ),
    ];
    tell(&rt, alloc, rows.as_slice());
    let rows = [
        (
            ReshapeFault::BadCount,
            "the number of processes isn't from 1 to 64",
        ),
        (ReshapeFault::Pending(3), "process 3 has a call pending"),
        (
            ReshapeFault::SeqFull,
            "the numbers of the next era would pass 2^48 - 1",
        ),
        (ReshapeFault::Memory, "out of memory"),
    ];
    tell(&rt, alloc, rows.as_slice());
}

#[test]
fn faults_of_records(rt: HostRuntime) {
    let alloc = rt.alloc();
    let rows = [
        (
            RecordOpenFault::BadCount,
            "the number of processes isn't from 1 to 64",
        ),
        (RecordOpenFault::BadRow, "the row isn't from 1 to 4096"),
        (
            RecordOpenFault::SeqFull,
            "the numbers of the first era would pass 2^48 - 1",
        ),
        (
            RecordOpenFault::BadHistory,
            "the history isn't from 1 to 16777216",
        ),
        (RecordOpenFault::Memory, "out of memory"),
    ];
    tell(&rt, alloc, rows.as_slice());
    let rows = [
        (RecordBeginFault::BadProcess, "there is no such process"),
        (RecordBeginFault::Busy(3), "process 3 has a call pending"),
        (
            RecordBeginFault::RowFull(3),
            "process 3 has made as many calls in this era as a row has",
        ),
        (
            RecordBeginFault::HistoryFull,
            "the events of another call may not fit into the history",
        ),
        (RecordBeginFault::Memory, "out of memory"),
    ];
    tell(&rt, alloc, rows.as_slice());
    let rows = [
        (RecordStepFault::BadProcess, "there is no such process"),
        (RecordStepFault::Idle(3), "process 3 has no call pending"),
        (RecordStepFault::Memory, "out of memory"),
    ];
    tell(&rt, alloc, rows.as_slice());
    let rows = [
        (RecordTrimFault::Pending(3), "process 3 has a call pending"),
        (
            RecordTrimFault::SeqFull,
            "the numbers of the next era would pass 2^48 - 1",
        ),
        (RecordTrimFault::HistoryFull, "the history is full"),
        (RecordTrimFault::Memory, "out of memory"),
    ];
    tell(&rt, alloc, rows.as_slice());
    let rows = [
        (
            RecordReshapeFault::BadCount,
            "the number of processes isn't from 1 to 64",
        ),
        (
            RecordReshapeFault::Pending(3),
            "process 3 has a call pending",
        ),
        (
            RecordReshapeFault::SeqFull,
            "the numbers of the next era would pass 2^48 - 1",
        ),
        (RecordReshapeFault::HistoryFull, "the history is full"),
        (RecordReshapeFault::Memory, "out of memory"),
    ];
    tell(&rt, alloc, rows.as_slice());
    let rows = [
        (Refusal::BadProcess, "there is no such process"),
        (Refusal::Busy(3), "process 3 has a call pending"),
        (
            Refusal::RowFull(3),
            "process 3 has made as many calls in this era as a row has",
        ),
        (Refusal::Idle(3), "process 3 has no call pending"),
        (
            Refusal::BadCount,
            "the number of processes isn't from 1 to 64",
        ),
        (Refusal::Pending(3), "process 3 has a call pending"),
        (
            Refusal::SeqFull,
            "the numbers of the next era would pass 2^48 - 1",
        ),
        (Refusal::HistoryFull, "the history has no room for it"),
        (Refusal::Memory, "out of memory"),
    ];
    tell(&rt, alloc, rows.as_slice());
}

#[test]
fn faults_of_seats(rt: HostRuntime) {
    let alloc = rt.alloc();
    let rows = [
        (ApplyFault::SeatPending, "the seat has a call pending"),
        (
            ApplyFault::RowFull,
            "the process of the seat has made as many calls in this era as a row has",
        ),
        (
            ApplyFault::HistoryFull,
            "the events of another call may not fit into the history",
        ),
        (ApplyFault::Memory, "out of memory"),
        (ApplyFault::GaveUp, "the gate gave up"),
        (
            ApplyFault::Stranger,
            "what the world answers doesn't fit the seat",
        ),
        (ApplyFault::NothingPending, "the seat has no call pending"),
    ];
    tell(&rt, alloc, rows.as_slice());
    let rows = [
        (
            CloseFault::MissingSeat(3),
            "process 3 has no seat there, or several, or one that isn't of this record",
        ),
        (CloseFault::Stranger, "the record is another one"),
        (CloseFault::PendingSeat(3), "process 3 has a call pending"),
        (
            CloseFault::Mismatch(CALL),
            "the receipts differ from the history at call 3.5",
        ),
        (CloseFault::Memory, "out of memory"),
    ];
    tell(&rt, alloc, rows.as_slice());
    let rows = [
        (
            StepHeldFault::NotIts,
            "the call isn't its process's pending one",
        ),
        (StepHeldFault::Memory, "out of memory"),
    ];
    tell(&rt, alloc, rows.as_slice());
}
