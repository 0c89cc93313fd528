//! Opening an object.
ghost use Rattle.std.specs.Prelude.{◌<◌, ◌≡◌, ◌≤◌, ◌⊎◌, ◌↔◌, ◌+◌, ◌-◌};
ghost use Rattle.std.specs.Prelude.{All, IfOk, IsErrOf, None, replicate};
ghost use Rattle.std.specs.Arc.{arc_value};
ghost use Rattle.triple_buffers.specs.Parties.{AreOf, key_of, many, next_of, view_of_all};
ghost use Rattle.uni_any.specs.declared.open.AnyOpenFault as AnyOpenFault;
ghost use Rattle.uni_any.specs.Content.{blank};
ghost use Rattle.uni_any.specs.News.{first_told, first_version, told_by, version_as};
ghost use Rattle.uni_any.specs.Plays.{first_view, others};
ghost use Rattle.uni_any.specs.Seats.{AreFirstSeats, IsFirstSeat, IsSeatOf, object_of, processes_of, rest_of};

use crate::news::{Block, News, Row};
use crate::rule::{NewsOf, Setup, ViewOf};
use crate::seat::{AnySeat, AnyShared, BlockOf};
use crate::writing::owners;
use atomic_table::Split;
use seq_object::SeqObject;
use std::alloc::{AllocError, Global};
use std::sync::Arc;
use thiserror::Error;
use triple_buffers::{Buffers, Layout, Parties};
use uni_model::MAX_PROCESSES;

/// Why an object is not opened.
#[derive(Debug, Clone, Copy, PartialEq, Eq, Drop, Error)]
pub enum AnyOpenFault {
    /// The number of processes isn't from 1 to 64.
    #[error("the number of processes isn't from 1 to 64")]
    BadCount,
    /// Memory was refused.
    #[error("out of memory")]
    Memory,
}

impl From<AllocError> for AnyOpenFault {
    ghost use Rattle.std.specs.Prelude.{◌≡◌};
    ghost use Rattle.uni_any.specs.declared.open.AnyOpenFault.TheVariants.{Memory};

    ghost from_gives = { λ _ fault. fault ≡ Memory };

    fn from(_: AllocError) -> AnyOpenFault {
        AnyOpenFault::Memory
    }
}

/// The places that have no seat yet.
pub(crate) type PartiesOf<O> = Parties<NewsOf<O>, ViewOf<O>>;

/// How a process is cut off.
pub struct First;

impl<O: SeqObject> Split<ViewOf<O>> for First {
    ghost use Rattle.uni_any.specs.Plays.{others, first_alone};

    ghost left = { others };

    ghost right = { first_alone };
}

/// The rows of so many processes that have no call in. The error says that memory was refused.
fn blank_rows<R: Copy>(alloc: Global, count: u64) -> Result<Vec<Row<R>>, AllocError>
    ensures { IfOk result (λ rows. rows.items ≡ replicate count blank) }
{
    let mut rows = Vec::with_capacity(alloc, count as usize)?;
    for _ in 0..count {
        rows.push(Row {
            applied: 0,
            reply: None,
        })?;
    }
    Ok(rows)
}

/// The start.
fn first_block<O: SeqObject>(
    alloc: Global,
    object: &O,
    n: u64,
) -> Result<Arc<BlockOf<O>, Global>, AllocError>
    ensures { IfOk result (λ start. version_as (arc_value start) ≡ first_version (O.sequential object.now) n) }
{
    let rows = blank_rows(alloc, n)?;
    let state = object.start(alloc)?;
    let start = Block {
        number: 0,
        state,
        rows,
    };
    let Ok(start) = Arc::new(alloc, start) else {
        return Err(AllocError);
    };
    Ok(start)
}

/// What is known of each process at the start.
fn first_news<O: SeqObject>(
    alloc: Global,
    start: &Arc<BlockOf<O>, Global>,
) -> Result<NewsOf<O>, AllocError>
    ensures { IfOk result (λ news. told_by news ≡ record {
      call = 0;
      inv = None;
      last = version_as (arc_value start.now);
      next = version_as (arc_value start.now);
    }) }
{
    let news = News {
        call: 0,
        inv: None,
        last: Arc::try_clone(start)?,
        next: Arc::try_clone(start)?,
    };
    let Ok(news) = Arc::new(alloc, news) else {
        return Err(AllocError);
    };
    Ok(news)
}

impl<O: SeqObject> AnyShared<O> {
    /// The seat of the next process.
    fn seat(
        &self,
        alloc: Global,
        parties: &mut PartiesOf<O>,
        p: u64,
        start: &Arc<BlockOf<O>, Global>,
        news: &NewsOf<O>,
    ) -> Result<AnySeat<O>, AllocError>
        requires parties { AreOf self.now.buffers parties.old }
        requires next { (next_of parties.old ≡ p) × (1 ≤ many parties.old) × (p < processes_of self.now) }
        requires view { view_of_all parties.old
            ≡ rest_of O.sequential (object_of self.now) (processes_of self.now) p }
        requires start { version_as (arc_value start.now) ≡
            first_version (O.sequential (object_of self.now)) (processes_of self.now) }
        requires news { told_by news.now ≡ first_told (O.sequential (object_of self.now)) (processes_of self.now) }
        ensures seat { IfOk result (λ seat. IsFirstSeat self.now p seat) }
        ensures rest { IfOk result (λ seat. AreOf self.now.buffers parties.new × (next_of parties.new ≡ p + 1)
            × (many parties.new ≡ many parties.old - 1)
            × (view_of_all parties.new ≡ others (view_of_all parties.old))) }
    {
        let party = self.buffers.next_party::<First>(alloc, parties)?;
        let seen = owners(alloc, news, self.buffers.key().processes)?;
        let last = Arc::try_clone(start)?;
        Ok(AnySeat {
            party,
            p,
            made: 0,
            asked: None,
            last,
            seen,
            named: 0,
        })
    }

    /// The seats of all processes, in order.
    fn seats(
        &self,
        alloc: Global,
        parties: PartiesOf<O>,
        start: &Arc<BlockOf<O>, Global>,
    ) -> Result<Vec<AnySeat<O>>, AllocError>
        requires parties { AreOf self.now.buffers parties × (next_of parties ≡ 0)
            × (many parties ≡ processes_of self.now) }
        requires view { view_of_all parties ≡ first_view O.sequential (object_of self.now) (processes_of self.now) }
        requires start { version_as (arc_value start.now) ≡
            first_version (O.sequential (object_of self.now)) (processes_of self.now) }
        ensures { IfOk result (λ seats. AreFirstSeats self.now (processes_of self.now) seats.items) }
    {
        let n = self.buffers.key().processes;
        let news = first_news::<O>(alloc, start)?;
        let mut parties = parties;
        let mut seats = Vec::with_capacity(alloc, n as usize)?;
        for p in 0..n {
            let seat = self.seat(alloc, &mut parties, p, start, &news)?;
            seats.push(seat)?;
        }
        Ok(seats)
    }

    /// An object of so many processes, and their seats.
    fn with_seats(
        alloc: Global,
        object: O,
        n: u64,
    ) -> Result<(AnyShared<O>, Vec<AnySeat<O>>), AllocError>
        requires few { (1 ≤ n) × (n ≤ 64) }
        ensures object { IfOk result (λ opened. (object_of opened.0 ≡ object) × (processes_of opened.0 ≡ n)) }
        ensures seats { IfOk result (λ opened. AreFirstSeats opened.0 n opened.1.items) }
    {
        let start = first_block::<O>(alloc, &object, n)?;
        let layout = Layout {
            words: 1,
            parties: n,
        };
        let setup = Setup {
            object,
            processes: n,
        };
        let (buffers, parties) = Buffers::open(alloc, layout, setup)?;
        let shared = AnyShared { buffers };
        let seats = shared.seats(alloc, parties, &start)?;
        Ok((shared, seats))
    }

    /// An object that n processes share, and their seats, in order, none of which has made a call.
    ///
    /// Errors, in this order: `BadCount` where `n` isn't from 1 to 64; `Memory`, where memory was refused (in no
    /// clause: by the clauses it may come of any count that is allowed). After each the object is dropped.
    pub fn open(
        alloc: Global,
        object: O,
        n: u64,
    ) -> Result<(AnyShared<O>, Vec<AnySeat<O>>), AnyOpenFault>
        ensures count { IsErrOf result AnyOpenFault.BadCount ↔ ((n ≡ 0) ⊎ (64 < n)) }
        ensures object { IfOk result (λ opened. (object_of opened.0 ≡ object) × (processes_of opened.0 ≡ n)) }
        ensures seats { IfOk result (λ opened. AreFirstSeats opened.0 n opened.1.items) }
        ensures own { IfOk result (λ opened. All (IsSeatOf opened.0) opened.1.items) }
    {
        if n < 1 || n > MAX_PROCESSES {
            return Err(AnyOpenFault::BadCount);
        }
        let opened = AnyShared::with_seats(alloc, object, n)?;
        Ok(opened)
    }
}
