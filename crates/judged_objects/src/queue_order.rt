//! An order that a history of a queue may have, where no number is put in twice. It takes as long as a sort. Nothing is
//! promised of it: whoever takes it checks it.
//!
//! Of two numbers one goes first where it was put in, or taken out, before that of the other began (Henzinger, Sezgin
//! and Vafeiadis 2013). The queue is empty at some instant of a call that finds it so: such instants cut the history.

use crate::queue::{QueueEvent, QueueInv, QueueResp};
use lin_check::{Event, by_return};
use std::alloc::{AllocError, Global};
use std::collections::BTreeMap;

/// A call in time. The event at place i has the time 4i; a call that doesn't return ends at the greatest time.
#[derive(Clone, Copy)]
struct Span {
    call: usize,
    begin: u64,
    end: u64,
}

impl Span {
    /// The call at a place, where each call returns at these places.
    fn at(returns: &[u64], call: usize) -> Span {
        let place = returns.get(call).copied().unwrap_or(u64::MAX);
        Span {
            call,
            begin: (call as u64).saturating_mul(4).saturating_add(1),
            end: place.saturating_mul(4),
        }
    }

    /// The same between two instants.
    fn within(self, begin: u64, end: u64) -> Span {
        Span {
            call: self.call,
            begin: self.begin.max(begin),
            end: self.end.min(end),
        }
    }
}

/// A number in the queue: the call that puts it in, and the one that takes it out.
#[derive(Clone, Copy)]
struct Stay {
    put: Span,
    take: Option<Span>,
}

impl Stay {
    /// Its taking; one that never comes can begin before the greatest time.
    fn taking(&self) -> Span {
        self.take.unwrap_or(Span {
            call: usize::MAX,
            begin: u64::MAX - 1,
            end: u64::MAX,
        })
    }

    /// The same between two instants, and put in before it is taken out.
    fn within(&self, begin: u64, end: u64) -> Stay {
        let put = self.put.within(begin, self.taking().end.min(end));
        Stay {
            put,
            take: self.take.map(|take| take.within(put.begin, end)),
        }
    }
}

/// The calls of a queue: the numbers, the calls that found it empty, and those that would take a number and didn't
/// return.
#[derive(Drop)]
struct Calls {
    stays: Vec<Stay>,
    empties: Vec<Span>,
    open_takes: Vec<Span>,
}

/// The numbers that are put in, and where each stands among them; `None` where one is put in twice.
fn puts(
    alloc: Global,
    history: &[QueueEvent],
    returns: &[u64],
) -> Result<Option<(Vec<Stay>, BTreeMap<u64, usize>)>, AllocError> {
    let mut stays = Vec::new(alloc);
    let mut known = BTreeMap::new(alloc);
    for i in 0..history.len() {
        if let Event::Call(_, QueueInv::Enq(number)) = &history[i] {
            if known.insert(*number, stays.len())?.is_some() {
                return Ok(None);
            }
            stays.push(Stay {
                put: Span::at(returns, i),
                take: None,
            })?;
        }
    }
    Ok(Some((stays, known)))
}

/// The response of the call at a place.
fn reply_of(history: &[QueueEvent], returns: &[u64], call: usize) -> Option<QueueResp> {
    match history.get(*returns.get(call)? as usize)? {
        Event::Return(_, response) => Some(*response),
        Event::Call(_, _) => None,
    }
}

/// The calls of a history; `None` where a number is put in twice, or is taken that isn't put in or is taken already.
fn calls_in(alloc: Global, history: &[QueueEvent]) -> Result<Option<Calls>, AllocError> {
    let returns = by_return(alloc, history)?;
    let Some((mut stays, known)) = puts(alloc, history, &returns)? else {
        return Ok(None);
    };
    let mut empties = Vec::new(alloc);
    let mut open_takes = Vec::new(alloc);
    for i in 0..history.len() {
        if let Event::Call(_, QueueInv::Deq) = &history[i] {
            match reply_of(history, &returns, i) {
                Some(QueueResp::Empty) => empties.push(Span::at(&returns, i))?,
                Some(QueueResp::Taken(number)) => {
                    let stay = known.get(&number).copied().unwrap_or(usize::MAX);
                    match stays.get_mut(stay) {
                        Some(stay) if stay.take.is_none() => stay.take = Some(Span::at(
                            &returns, i,
                        )),
                        _ => return Ok(None),
                    }
                }
                _ => open_takes.push(Span::at(&returns, i))?,
            }
        }
    }
    Ok(Some(Calls {
        stays,
        empties,
        open_takes,
    }))
}

impl Calls {
    /// The last instant at which one of the numbers that were taken is put in, or the queue is found empty.
    fn last_needed(&self) -> u64 {
        let mut last = 0u64;
        for stay in &self.stays {
            if stay.take.is_some() {
                last = last.max(stay.put.begin);
            }
        }
        match self.empties.last() {
            Some(empty) => last.max(empty.begin),
            None => last,
        }
    }

    /// Lets calls that didn't return take the numbers that would be left before others, in the order of both.
    fn take_what_is_left(&mut self) {
        let last = self.last_needed();
        let mut next = 0usize;
        for stay in &mut self.stays {
            if stay.take.is_none() && stay.put.end < last {
                stay.take = self.open_takes.get(next).copied();
                next = next.saturating_add(1);
            }
        }
    }
}

/// The numbers that were taken, or whose putting in returned, each put in before it is taken out.
fn told_stays(alloc: Global, stays: &[Stay]) -> Result<Vec<Stay>, AllocError> {
    let mut told = Vec::new(alloc);
    for stay in stays {
        if stay.take.is_some() || stay.put.end < u64::MAX {
            told.push(stay.within(0, u64::MAX))?;
        }
    }
    Ok(told)
}

/// When the queue can't be empty: from one instant to another, in rising order and apart.
fn full_times(alloc: Global, stays: &[Stay]) -> Result<Vec<(u64, u64)>, AllocError> {
    let mut times = Vec::new(alloc);
    for stay in stays {
        if stay.put.end < stay.taking().begin {
            times.push((stay.put.end, stay.taking().begin))?;
        }
    }
    times.sort_by_key(|times| times.0)?;
    let mut apart: Vec<(u64, u64)> = Vec::new(alloc);
    for (begin, end) in &times {
        match apart.last_mut() {
            Some(last) if *begin <= last.1 => last.1 = last.1.max(*end),
            _ => apart.push((*begin, *end))?,
        }
    }
    Ok(apart)
}

/// An instant for each call that finds the queue empty, in rising order; `None` where one has none.
fn cuts_of(
    alloc: Global,
    empties: &[Span],
    full: &[(u64, u64)],
) -> Result<Option<Vec<u64>>, AllocError> {
    let mut cuts = Vec::new(alloc);
    for empty in empties {
        let mut at = empty.begin.saturating_add(1);
        if let Some((begin, end)) = full.get(full.partition_point(|times| times.1 < at)) {
            if *begin < at {
                at = end.saturating_add(1);
            }
        }
        if at >= empty.end {
            return Ok(None);
        }
        cuts.push(at)?;
    }
    Ok(Some(cuts))
}

/// The numbers between the cuts: each is put in and taken out between two of them.
fn between(alloc: Global, stays: &[Stay], cuts: &[u64]) -> Result<Vec<Stay>, AllocError> {
    let mut narrow = Vec::new(alloc);
    for stay in stays {
        let next = cuts.partition_point(|cut| *cut < stay.taking().begin);
        let begin = match cuts.get(next.saturating_sub(1)) {
            Some(cut) if next > 0 => cut.saturating_add(1),
            _ => 0,
        };
        let end = cuts.get(next).copied().unwrap_or(u64::MAX);
        narrow.push(stay.within(begin, end))?;
    }
    Ok(narrow)
}

/// Numbers by the begins and the ends of their spans, and how far these are passed.
#[derive(Drop)]
struct Front {
    begins: Vec<(u64, usize)>,
    ends: Vec<(u64, usize)>,
    begun: usize,
    ended: usize,
}

impl Front {
    /// The front of these spans.
    fn of(alloc: Global, spans: &[Span]) -> Result<Front, AllocError> {
        let mut begins = Vec::new(alloc);
        let mut ends = Vec::new(alloc);
        for (i, span) in spans.iter().enumerate() {
            begins.push((span.begin, i))?;
            ends.push((span.end, i))?;
        }
        begins.sort()?;
        ends.sort()?;
        Ok(Front {
            begins,
            ends,
            begun: 0,
            ended: 0,
        })
    }

    /// The first end of those that aren't gone.
    fn first_end(&mut self, is_gone: &[bool]) -> u64 {
        for i in self.ended..self.ends.len() {
            let (end, stay) = self.ends[i];
            if !is_gone.get(stay).copied().unwrap_or(false) {
                self.ended = i;
                return end;
            }
        }
        u64::MAX
    }

    /// Counts those that have begun before each that isn't gone ends, and notes which of them have been counted twice.
    fn pass(
        &mut self,
        is_gone: &[bool],
        counts: &mut [u64],
        ready: &mut Vec<usize>,
    ) -> Result<(), AllocError> {
        let end = self.first_end(is_gone);
        for i in self.begun..self.begins.len() {
            let (begin, stay) = self.begins[i];
            if begin >= end {
                self.begun = i;
                return Ok(());
            }
            if let Some(count) = counts.get_mut(stay) {
                *count = count.saturating_add(1);
                if *count == 2 {
                    ready.push(stay)?;
                }
            }
        }
        self.begun = self.begins.len();
        Ok(())
    }
}

/// The numbers in an order in which they can go through the queue; `None` where none is found.
fn turns_of(alloc: Global, stays: &[Stay]) -> Result<Option<Vec<usize>>, AllocError> {
    let puts: Vec<Span> = stays.iter().map(|stay| stay.put).collect(alloc)?;
    let takes: Vec<Span> = stays.iter().map(|stay| stay.taking()).collect(alloc)?;
    let mut puts = Front::of(alloc, &puts)?;
    let mut takes = Front::of(alloc, &takes)?;
    let mut is_gone = vec![in alloc; false; stays.len()]?;
    let mut counts: Vec<u64> = vec![in alloc; 0; stays.len()]?;
    let mut ready = Vec::new(alloc);
    let mut turns = Vec::new(alloc);
    for _ in 0..stays.len() {
        puts.pass(&is_gone, &mut counts, &mut ready)?;
        takes.pass(&is_gone, &mut counts, &mut ready)?;
        let Some(stay) = ready.pop() else {
            return Ok(None);
        };
        if let Some(gone) = is_gone.get_mut(stay) {
            *gone = true;
        }
        turns.push(stay)?;
    }
    Ok(Some(turns))
}

/// When each call takes effect, as early as it can: at one time numbers are put in before others are taken out.
fn points_of(
    alloc: Global,
    stays: &[Stay],
    turns: &[usize],
) -> Result<Vec<(u64, bool, usize)>, AllocError> {
    let mut points = Vec::new(alloc);
    let mut put = 0u64;
    let mut take = 0u64;
    for turn in turns {
        if let Some(stay) = stays.get(*turn) {
            put = put.max(stay.put.begin);
            points.push((put, false, stay.put.call))?;
            if let Some(taking) = &stay.take {
                take = take.max(taking.begin).max(put);
                points.push((take, true, taking.call))?;
            }
        }
    }
    Ok(points)
}

/// An order that a history may have; `None` where none is found.
pub(crate) fn queue_order(
    alloc: Global,
    history: &[QueueEvent],
) -> Result<Option<Vec<usize>>, AllocError> {
    let Some(mut calls) = calls_in(alloc, history)? else {
        return Ok(None);
    };
    calls.take_what_is_left();
    let stays = told_stays(alloc, &calls.stays)?;
    let Some(cuts) = cuts_of(alloc, &calls.empties, &full_times(alloc, &stays)?)? else {
        return Ok(None);
    };
    let stays = between(alloc, &stays, &cuts)?;
    let Some(turns) = turns_of(alloc, &stays)? else {
        return Ok(None);
    };
    let mut points = points_of(alloc, &stays, &turns)?;
    for (cut, empty) in cuts.iter().zip(calls.empties.iter()) {
        points.push((*cut, false, empty.call))?;
    }
    points.sort_by_key(|point| (point.0, point.1))?;
    let order: Vec<usize> = points.iter().map(|point| point.2).collect(alloc)?;
    Ok(Some(order))
}
