//! What a gate is told, and what it may do between two steps.

use crate::seat_calls::{Stops, enqueues, has_added, last, queue, resumes};
use cell_arena::CellId;
use ready_objects::QueueObject;
use std::alloc::Global;
use std::sync::atomic::{AtomicU64, Ordering};
use std::sync::{Mutex, Wait};
use uni_core::Place;
use uni_shared::{ApplyFault, Gate, GaveUp, NoGate, Seat, Shared};

/// Counts how often it was told of process 1 and of the next of these places, and gives up past them.
#[derive(Drop)]
struct Told<'a> {
    places: &'a [Place],
    asked: AtomicU64,
    right: AtomicU64,
}

impl Told<'_> {
    /// One that is to be told of these places.
    fn of(places: &[Place]) -> Told<'_> {
        Told {
            places,
            asked: AtomicU64::new(0),
            right: AtomicU64::new(0),
        }
    }

    /// Whether it was told of each of its places.
    fn of_each(&self) -> bool {
        self.right.load(Ordering::SeqCst) == self.places.len() as u64
    }
}

impl Gate for Told<'_> {
    fn before(&self, p: u64, place: Place) -> Result<(), GaveUp> {
        let at = self.asked.fetch_add(1, Ordering::SeqCst);
        match self.places.get(at as usize) {
            Some(told) => {
                if p == 1 && place == *told {
                    self.right.fetch_add(1, Ordering::SeqCst);
                }
                Ok(())
            }
            None => Err(GaveUp),
        }
    }
}

/// The places of a call of process 1 alone among two, step by step: its own cell is this.
fn places_of(mine: CellId) -> [Place; 16] {
    let anchor = CellId::anchor();
    [
        Place::Announced(1),
        Place::HeadOf(0),
        Place::SeqOf(anchor),
        Place::HeadOf(1),
        Place::SeqOf(anchor),
        Place::HeadOf(1),
        Place::SeqOf(mine),
        Place::Announced(1),
        Place::SeqOf(mine),
        Place::AfterOf(anchor),
        Place::NewOf(mine),
        Place::BeforeOf(mine),
        Place::SeqOf(mine),
        Place::HeadOf(1),
        Place::SeqOf(mine),
        Place::HeadOf(1),
    ]
}

#[test]
fn a_gate_is_told_of_each_step(rt: HostRuntime) {
    let alloc = rt.alloc();
    let (shared, mut seats) = queue(&rt, alloc, 2, 8);
    let mut seat = last(&rt, &mut seats);
    let places = places_of(CellId::of(2, 1, 0));
    let (before, after) = places.split_at(9);
    let gate = Told::of(before);
    assert!(rt; enqueues(&rt, alloc, &shared, &mut seat, 7, &gate) == Some(ApplyFault::GaveUp));
    assert!(rt; gate.of_each());
    // it goes on before the step that wasn't taken
    let gate = Told::of(after);
    assert!(rt; seat.resume(&rt, alloc, &shared, &gate).is_ok());
    assert!(rt; gate.of_each() && has_added(&seat, 1, 0, 7, 16, 1));
}

/// Before the step after fourteen, has process 0 end its call, and begin another one that it announces.
#[derive(Drop)]
struct Beside<'a, R: Wait> {
    rt: &'a R,
    alloc: Global,
    shared: &'a Shared<QueueObject>,
    first: Mutex<Seat<QueueObject>>,
    asked: AtomicU64,
}

impl<R: Wait> Gate for Beside<'_, R> {
    fn before(&self, _p: u64, _place: Place) -> Result<(), GaveUp> {
        if self.asked.fetch_add(1, Ordering::SeqCst) == 14 {
            let mut first = self.first.lock(self.rt);
            let ended = resumes(self.rt, self.alloc, self.shared, &mut first);
            let stops = Stops::after(1);
            let stopped = enqueues(self.rt, self.alloc, self.shared, &mut first, 20, &stops);
            if ended.is_some() || stopped != Some(ApplyFault::GaveUp) {
                return Err(GaveUp);
            }
        }
        Ok(())
    }
}

#[test]
fn a_call_takes_all_its_steps(rt: HostRuntime) {
    let alloc = rt.alloc();
    let (shared, mut seats) = queue(&rt, alloc, 2, 8);
    let mut second = last(&rt, &mut seats);
    let mut first = last(&rt, &mut seats);
    let stops = Stops::after(10);
    assert!(rt; enqueues(&rt, alloc, &shared, &mut first, 10, &stops) == Some(ApplyFault::GaveUp));
    let gate = Beside {
        rt: &rt,
        alloc,
        shared: &shared,
        first: Mutex::new(first),
        asked: AtomicU64::new(0),
    };
    assert!(rt; enqueues(&rt, alloc, &shared, &mut second, 30, &gate).is_none());
    // with two processes a call takes 32 steps at most
    assert!(rt; has_added(&second, 1, 0, 30, 32, 3));
}
