//! A history is cut into its parts, and from their orders one of the whole is made. Nothing is promised of either: a
//! verdict rests on what is checked of them.

use crate::checkable::Checkable;
use crate::event::Event;
use crate::order::note_call;
use crate::part::copied;
use std::alloc::{AllocError, Global};
use std::collections::BTreeMap;

/// The events of a part, with their places in the whole history.
#[derive(Drop)]
pub(crate) struct Part<I: Drop, R: Drop> {
    pub(crate) number: u64,
    pub(crate) events: Vec<Event<I, R>>,
    places: Vec<usize>,
}

/// Whether all calls are of one part.
pub(crate) fn is_of_one_part<O: Checkable>(history: &[Event<O::Inv, O::Resp>]) -> bool {
    let mut first = None;
    for event in history {
        if let Event::Call(_, inv) = event {
            let part = O::part_of(inv);
            match first {
                Some(other) if other != part => return false,
                _ => first = Some(part),
            }
        }
    }
    true
}

/// Where a part stands among these; it is added where it doesn't.
fn place_of<I: Drop, R: Drop>(
    alloc: Global,
    parts: &mut Vec<Part<I, R>>,
    known: &mut BTreeMap<u64, usize>,
    number: u64,
) -> Result<usize, AllocError> {
    if let Some(place) = known.get(&number) {
        return Ok(*place);
    }
    let place = parts.len();
    known.insert(number, place)?;
    parts.push(Part {
        number,
        events: Vec::new(alloc),
        places: Vec::new(alloc),
    })?;
    Ok(place)
}

/// Cuts a history into its parts.
pub(crate) fn cut<O: Checkable>(
    alloc: Global,
    history: &[Event<O::Inv, O::Resp>],
) -> Result<Vec<Part<O::Inv, O::Resp>>, AllocError> {
    let mut parts = Vec::new(alloc);
    let mut known = BTreeMap::new(alloc);
    let mut latest: Vec<usize> = Vec::new(alloc);
    for i in 0..history.len() {
        let place = match &history[i] {
            Event::Call(p, inv) => {
                let place = place_of(alloc, &mut parts, &mut known, O::part_of(inv))?;
                if *p < 65536 {
                    note_call(&mut latest, *p, place)?;
                }
                place
            }
            Event::Return(p, _) => latest.get(*p).copied().unwrap_or(usize::MAX),
        };
        if let Some(part) = parts.get_mut(place) {
            part.events.push(copied::<O>(alloc, &history[i])?)?;
            part.places.push(i)?;
        }
    }
    Ok(parts)
}

/// A call, by its place, and the first place of the history behind which it can take effect.
#[derive(Clone, Copy)]
pub(crate) struct Point {
    after: usize,
    call: usize,
}

impl<I: Drop, R: Drop> Part<I, R> {
    /// Adds the calls of an order of the part.
    pub(crate) fn add_points(
        &self,
        points: &mut Vec<Point>,
        order: &[usize],
    ) -> Result<(), AllocError> {
        let mut after = 0;
        for call in order {
            if let Some(place) = self.places.get(*call) {
                if after < *place {
                    after = *place;
                }
                points.push(Point {
                    after,
                    call: *place,
                })?;
            }
        }
        Ok(())
    }
}

/// The calls in the order of their points. At one place calls of one part alone can take effect, and these stay as they
/// are.
pub(crate) fn in_turn(alloc: Global, mut points: Vec<Point>) -> Result<Vec<usize>, AllocError> {
    points.sort_by_key(|point| point.after)?;
    points.iter().map(|point| point.call).collect(alloc)
}
