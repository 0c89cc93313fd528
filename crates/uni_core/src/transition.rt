//! The transition of each kind of step: what it does to the one place that it touches, and where
//! its process stands then.

ghost use Rattle.std.specs.Prelude.{◌≡◌, ◌+◌, ◌<◌, ◌==◌, if◌then◌else◌, ℕ, IsSome, Some};
ghost use Rattle.std.specs.Prelude.{◌↔◌, IsTrue, None, OnOk, IfOk, OnErr, option_map};
ghost use Rattle.std.specs.Option.{option_or};
ghost use Rattle.cell_arena.specs.Arena.{processes_of, cell_of};
ghost use Rattle.uni_model.specs.Places.{Name, new_of, inv_of, memory_with};
ghost use Rattle.uni_model.specs.Places.Place.{NewOf};
ghost use Rattle.uni_model.specs.Places.Content.{Settled};
ghost use Rattle.uni_model.specs.Stages.{Stage as at};
ghost use Rattle.uni_model.specs.Transition.{stage_after_scan, value_after};
ghost use Rattle.uni_core.specs.SharedEntries.{named, memory_of, HasShapeOf};
ghost use Rattle.uni_core.specs.Stage.{stage_of, stage_left, Takes, CanStep, ChangesAt, MayBeRefused};

use crate::shared::SharedEntries;
use crate::stage::Stage;
use cell_arena::CellId;
use seq_object::SeqObject;
use std::alloc::{AllocError, Global};

/// Where a process of `n` stands in its scan after it has compared the number of the head of
/// process `q`.
fn after_comparing(n: u64, q: u64, best: (CellId, u64), head: (CellId, u64)) -> Stage
    requires { q < n }
    ensures { (name : ℕ → Name) → stage_of name result
        ≡ stage_after_scan n q (name best.0) best.1 (name head.0) head.1 }
{
    let (best, best_seq) = if best.1 < head.1 { head } else { best };
    if q + 1 < n {
        Stage::ScanHead {
            q: q + 1,
            best,
            best_seq,
        }
    } else {
        Stage::WriteScan { best, best_seq }
    }
}

/// Where a process stands after it has tested the number of its cell: a turn begins where that is 0.
fn after_test(c: CellId, c_seq: u64, mine_seq: u64) -> Stage
    ensures { (name : ℕ → Name) → stage_of name result
        ≡ (if mine_seq == 0 then at.ReadAnnounce (name c) c_seq else at.Finish c_seq mine_seq) }
{
    match mine_seq {
        0 => Stage::ReadAnnounce { c, c_seq },
        mine_seq => Stage::Finish { c_seq, mine_seq },
    }
}

/// The cell that is proposed: the one to be helped where it has no number yet, and else one's own.
fn preferred(help: CellId, help_seq: u64, mine: CellId) -> CellId
    ensures { (name : ℕ → Name) → name result ≡ (if help_seq == 0 then name help else name mine) }
{
    if help_seq == 0 { help } else { mine }
}

/// The object and the shared places.
#[derive(Drop)]
pub(crate) struct Machine<O: SeqObject> {
    pub(crate) object: O,
    pub(crate) shared: SharedEntries<O::State, O::Inv, O::Resp>,
}

impl<O: SeqObject> Machine<O> {
    /// Settles the state and the response of cell `d`, after those of `c`, where they aren't settled.
    fn settle_new(&mut self, alloc: Global, c: CellId, d: CellId) -> Result<(), AllocError>
        requires c { IsSome (cell_of self.old.shared.cells c) }
        requires d { IsSome (cell_of self.old.shared.cells d) }
        requires state { IsSome (new_of (memory_of self.old.shared) (named self.old.shared c)) }
        requires inv { IsSome (inv_of (memory_of self.old.shared) (named self.old.shared d)) }
        ensures shape { HasShapeOf self.old.shared self.new.shared }
        ensures memory { OnOk result (memory_of self.new.shared
            ≡ memory_with (memory_of self.old.shared) (NewOf (named self.old.shared d))
            (Settled (option_or (new_of (memory_of self.old.shared) (named self.old.shared d))
            (value_after (O.sequential self.old.object) (new_of (memory_of self.old.shared) (named self.old.shared c))
            (inv_of (memory_of self.old.shared) (named self.old.shared d)))))) }
        ensures refused { OnErr result (new_of (memory_of self.old.shared) (named self.old.shared d) ≡ None) }
        ensures object { self.new.object ≡ self.old.object }
        ensures unchanged { OnErr result (self.new.shared ≡ self.old.shared) }
    {
        if self.shared.new_of(d).is_some() {
            return Ok(());
        }
        let (Some(before), Some(inv)) = (self.shared.new_of(c), self.shared.inv(d)) else {
            unreachable!()
        };
        let (state, response) = self.object.apply(alloc, &before.0, inv)?;
        self.shared.decide_new(d, (state, Some(response)));
        Ok(())
    }

    /// Whether the next step of process `p`, which stands at `stage` in the call of cell `mine`, changes what
    /// its place contains.
    pub(crate) fn changes(&self, p: u64, mine: CellId, stage: Stage) -> bool
        requires process { p < processes_of self.now.shared.cells }
        requires step { CanStep self.now.shared mine stage }
        ensures { IsTrue result ↔ ChangesAt (O.sequential self.now.object) self.now.shared p
            (named self.now.shared mine) (stage_of (named self.now.shared) stage) }
    {
        match stage {
            Stage::Announce => self.shared.announced(p) != mine,
            Stage::WriteScan { best, best_seq: _ } => self.shared.head(p) != best,
            Stage::DecideAfter { c, .. } => self.shared.after(c).is_none(),
            Stage::DecideNew { c: _, c_seq: _, d } => self.shared.new_of(d).is_none(),
            Stage::WriteBefore { c, c_seq: _, d } => self.shared.before(d) != Some(c),
            Stage::WriteSeq { c: _, c_seq, d } => self.shared.seq(d) != c_seq + 1,
            Stage::WriteHead { c: _, c_seq: _, d } => self.shared.head(p) != d,
            Stage::Finish { c_seq, mine_seq } => c_seq < mine_seq && self.shared.head(p) != mine,
            Stage::ScanHead { .. }
            | Stage::ScanSeq { .. }
            | Stage::Test { .. }
            | Stage::ReadAnnounce { .. }
            | Stage::ReadHelpSeq { .. } => false,
        }
    }

    /// Takes the next step of process `p`, which stands at `stage` in the call of cell `mine`: it
    /// touches the one place of that step. `stage` becomes where the process stands then; the answer is the
    /// response where its call has ended, and `None` where it goes on.
    ///
    /// An `Err` says that the object's apply was refused memory; nothing is changed then.
    pub(crate) fn take_step(
        &mut self,
        alloc: Global,
        p: u64,
        mine: CellId,
        stage: &mut Stage,
    ) -> Result<Option<O::Resp>, AllocError>
        requires process { p < processes_of self.old.shared.cells }
        requires step { CanStep self.old.shared mine stage.old }
        ensures taken { IfOk result (λ response. Takes (O.sequential self.old.object) p (named self.old.shared mine)
            (stage_of (named self.old.shared) stage.old) self.old.shared self.new.shared
            (option_map (stage_of (named self.old.shared)) (stage_left stage.new response)) response) }
        ensures refused { OnErr result (MayBeRefused self.old.shared stage.old) }
        ensures object { self.new.object ≡ self.old.object }
        ensures unchanged { OnErr result (self.new.shared ≡ self.old.shared) }
        ensures kept { OnErr result (stage.new ≡ stage.old) }
    {
        let n = self.shared.processes();
        let from = *stage;
        match from {
            Stage::Announce => {
                self.shared.announce(p, mine);
                *stage = Stage::ScanHead {
                    q: 0,
                    best: CellId::anchor(),
                    best_seq: 0,
                };
            }
            Stage::ScanHead { q, best, best_seq } => {
                *stage = Stage::ScanSeq {
                    q,
                    best,
                    best_seq,
                    head: self.shared.head(q),
                };
            }
            Stage::ScanSeq {
                q,
                best,
                best_seq,
                head,
            } => {
                *stage = after_comparing(n, q, (best, best_seq), (head, self.shared.seq(head)));
            }
            Stage::WriteScan { best, best_seq } => {
                self.shared.set_head(p, best);
                *stage = Stage::Test {
                    c: best,
                    c_seq: best_seq,
                };
            }
            Stage::Test { c, c_seq } => *stage = after_test(c, c_seq, self.shared.seq(mine)),
            Stage::ReadAnnounce { c, c_seq } => {
                *stage = Stage::ReadHelpSeq {
                    c,
                    c_seq,
                    help: self.shared.announced(c_seq % n),
                };
            }
            Stage::ReadHelpSeq { c, c_seq, help } => {
                *stage = Stage::DecideAfter {
                    c,
                    c_seq,
                    prefer: preferred(help, self.shared.seq(help), mine),
                };
            }
            Stage::DecideAfter { c, c_seq, prefer } => {
                *stage = Stage::DecideNew {
                    c,
                    c_seq,
                    d: self.shared.decide_after(c, prefer),
                };
            }
            Stage::DecideNew { c, c_seq, d } => {
                self.settle_new(alloc, c, d)?;
                *stage = Stage::WriteBefore { c, c_seq, d };
            }
            Stage::WriteBefore { c, c_seq, d } => {
                self.shared.set_before(d, c);
                *stage = Stage::WriteSeq { c, c_seq, d };
            }
            Stage::WriteSeq { c, c_seq, d } => {
                self.shared.set_seq(d, c_seq + 1);
                *stage = Stage::WriteHead { c, c_seq, d };
            }
            Stage::WriteHead { c: _, c_seq, d } => {
                self.shared.set_head(p, d);
                *stage = Stage::Test {
                    c: d,
                    c_seq: c_seq + 1,
                };
            }
            Stage::Finish { c_seq, mine_seq } => {
                let response = self.shared.response(mine);
                if c_seq < mine_seq {
                    self.shared.set_head(p, mine);
                }
                return Ok(Some(response));
            }
        }
        Ok(None)
    }
}
