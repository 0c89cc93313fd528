//! Opening, and a place for each party.
ghost use Rattle.std.specs.Prelude.{◌≡◌, ◌+◌, ◌-◌, ◌≤◌, IfOk, OnErr, replicate};
ghost use Rattle.triple_buffers.specs.Buffer.{IsSmall};
ghost use Rattle.triple_buffers.specs.Contents.{AllowsSplit, opening};
ghost use Rattle.triple_buffers.specs.Parties.{AreOf, IsPartyOf, key_of, layout_of, many, next_of, number_of, seat_of};
ghost use Rattle.triple_buffers.specs.Parties.{steps_of, view_of, view_of_all, seat_of_all};

use crate::layout::Layout;
use crate::party::{Parties, Party};
use crate::rule::{BufferRule, Buffers, FirstOf, Setup};
use atomic_table::{Split, Table};
use std::alloc::{AllocError, Global};

impl<T: Drop, V, K: Drop, P: BufferRule<T, V, K>> Buffers<T, V, K, P> {
    /// Words, each 0 at first, and a buffer of each party for each, itself too, empty at first; and the parties.
    ///
    /// The error says that memory was refused.
    pub fn open(
        alloc: Global,
        layout: Layout,
        about: K,
    ) -> Result<(Buffers<T, V, K, P>, Parties<T, V>), AllocError>
        requires small { IsSmall layout }
        requires rule { P.holds about (opening (P.first about)) }
        ensures buffers { IfOk result (λ opened. (layout_of opened.0 ≡ layout) × (key_of opened.0 ≡ about)) }
        ensures parties { IfOk result (λ opened. AreOf opened.0 opened.1 × (next_of opened.1 ≡ 0)
            × (many opened.1 ≡ layout.parties) × (view_of_all opened.1 ≡ P.first about)) }
    {
        let count = layout.parties * layout.parties;
        let words = vec![in alloc; 0u64; (layout.words + count) as usize]?;
        let setup = Setup { about, layout };
        let (table, seat) = Table::vacant(alloc, &words, (3 * count) as usize, &setup)?;
        let parties = Parties {
            seat,
            next: 0,
            count: layout.parties,
        };
        Ok((Buffers { setup, table }, parties))
    }
}

impl<T, V, K, P: BufferRule<T, V, K>> Buffers<T, V, K, P> {
    /// What the rule was told at the opening.
    pub fn key(&self) -> &K
        ensures { result.now ≡ key_of self.now }
    {
        &self.setup.about
    }

    /// The place of the next party, apart from those of the others.
    ///
    /// The error says that memory was refused; nothing is changed then.
    pub fn next_party<M: Split<V>>(
        &self,
        alloc: Global,
        parties: &mut Parties<T, V>,
    ) -> Result<Party<T, V>, AllocError>
        requires parties { AreOf self.now parties.old }
        requires some { 1 ≤ many parties.old }
        requires rule { AllowsSplit (P.holds (key_of self.now)) (seat_of_all parties.old) (view_of_all parties.old)
            (M.left (view_of_all parties.old)) (M.right (view_of_all parties.old)) }
        ensures party { IfOk result (λ party. IsPartyOf self.now party × (number_of party ≡ next_of parties.old)
            × (view_of party ≡ M.right (view_of_all parties.old)) × (steps_of party ≡ 0)) }
        ensures others { IfOk result (λ party. AreOf self.now parties.new
            × (next_of parties.new ≡ next_of parties.old + 1) × (many parties.new ≡ many parties.old - 1)
            × (view_of_all parties.new ≡ M.left (view_of_all parties.old))
            × (seat_of_all parties.new ≡ seat_of_all parties.old)) }
        ensures unchanged { OnErr result (parties.new ≡ parties.old) }
    {
        let n = self.setup.layout.parties;
        let backs = vec![in alloc; 1u64; n as usize]?;
        let fronts = vec![in alloc; 2u64; n as usize]?;
        let number = parties.next;
        let seat = self
            .table
            .shared
            .split_seat::<FirstOf<M>>(&mut parties.seat);
        parties.next += 1;
        parties.count -= 1;
        Ok(Party {
            seat,
            number,
            backs,
            fronts,
        })
    }
}
