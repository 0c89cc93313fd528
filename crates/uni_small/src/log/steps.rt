//! The word steps, each one function.
ghost use Rattle.std.specs.Prelude.{true, false, ◌≡◌, ◌≢◌, ℕ, ◌+◌, ◌*◌, ◌<◌, ◌≤◌};
ghost use Rattle.std.specs.Prelude.{◌==◌, List, [], ◌∷◌, ◌++◌, Option, Some, None};
ghost use Rattle.std.specs.Prelude.{if◌then◌else◌, length, slice_index};
ghost use Rattle.uni_small.specs.Image.{AreWidths, HasRows, buffer_words, held_place, spell, with_seen, read_image};
ghost use Rattle.uni_small.specs.Final.{IsVersion};
ghost use Rattle.uni_small.specs.View.{Read, announces, begins_directly, brings, confirms, goes, knows, recalls};
ghost use Rattle.uni_small.specs.View.{returns, wrote};
ghost use Rattle.uni_small.specs.View.Stage.{Idle, Last, Reading, Ready, Writing};
ghost use Rattle.uni_small.specs.Board.{buffer_in, current_word, version_in};
ghost use Rattle.uni_small.specs.Invariant.{most_calls};
ghost use Rattle.uni_small.specs.Plays.{Goes, IsLeft, stage_of, IsNamed, begun, looked, checked, checked_own};
ghost use Rattle.uni_small.specs.Plays.{IsGood, brought, brought_own};
ghost use Rattle.uni_small.specs.Plays.{begun_by, has_begun, restarted, rests};
ghost use Rattle.uni_small.specs.Standing.{HasWrittenAll, HasWrittenOwn, IsAnnounced, IsDirect, IsAsking};
ghost use Rattle.uni_small.specs.Standing.{IsCopying, IsLoading, IsLooking, IsOf};
ghost use Rattle.uni_small.specs.Standing.{IsStoring, IsWriting, local_of};
ghost use Rattle.uni_small.specs.Kept.{HasInvocation};

use crate::log::SmallShared;
use crate::object::SmallObject;
use crate::rule::{
    Announces, Asks, Begins, Brings, BringsOwn, Checks, ChecksOwn, Confirms, Copies, Follows,
    Loads, Looks, Recalls, Recounts, Replies, Rereads, Restarts, Starts, Stores, Turns, Writes,
};
use crate::seat::Seen;
use crate::view::View;
use atomic_table::Seat;

impl<O: SmallObject> SmallShared<O> {
    /// Stores word k of the invocation of the next call.
    pub(crate) fn store_word(&self, seat: &mut Seat<Seen, View<O>>, p: u64, k: u64, x: u64)
        requires table { seat.old.table_id ≡ self.now.table.shared.table_id }
        requires inside { (p < self.now.setup.sizes.processes) × (k < self.now.setup.sizes.invocation) }
        requires of { IsOf self.now.setup.object self.now.setup.sizes p seat.old.me }
        requires stage { IsStoring k seat.old.me }
        requires room { length (local_of seat.old.me).own + 1 ≤ most_calls }
        ensures same { (seat.new.table_id ≡ seat.old.table_id) × (seat.new.id ≡ seat.old.id) }
        ensures left { (stored : List ℕ) → stage_of seat.old.me ≡ Idle stored
            → Goes seat.old.me (Idle (stored ++ x ∷ [])) seat.new.me }
    {
        self.table
            .shared
            .store::<Stores>(seat, self.argument_word(p, k), x);
    }

    /// Announces the next call, whose invocation is stored, by its number, from 1 on: the call begins.
    pub(crate) fn announce(&self, seat: &mut Seat<Seen, View<O>>, p: u64, number: u64)
        requires table { seat.old.table_id ≡ self.now.table.shared.table_id }
        requires inside { p < self.now.setup.sizes.processes }
        requires of { IsOf self.now.setup.object self.now.setup.sizes p seat.old.me }
        requires stage { IsStoring self.now.setup.sizes.invocation seat.old.me }
        requires number { (number ≡ length (local_of seat.old.me).own + 1) × (number ≤ most_calls) }
        ensures same { (seat.new.table_id ≡ seat.old.table_id) × (seat.new.id ≡ seat.old.id) }
        ensures left { (inv : List ℕ) → stage_of seat.old.me ≡ Idle inv
            → IsLeft seat.old.me (announces (local_of seat.old.me) inv) seat.new.me }
    {
        self.table
            .shared
            .store::<Announces>(seat, self.announce_word(p), number);
    }

    /// Loads S, with which an attempt begins. Where S names a buffer of the process's own, the attempt has its words.
    pub(crate) fn start(&self, seat: &mut Seat<Seen, View<O>>, p: u64, tries: u64) -> u64
        requires table { seat.old.table_id ≡ self.now.table.shared.table_id }
        requires inside { p < self.now.setup.sizes.processes }
        requires of { IsOf self.now.setup.object self.now.setup.sizes p seat.old.me }
        requires few { tries < 2 }
        requires stage { stage_of seat.old.me ≡ Ready tries }
        ensures same { (seat.new.table_id ≡ seat.old.table_id) × (seat.new.id ≡ seat.old.id) }
        ensures left { Goes seat.old.me
            (Reading tries result (begun self.now.setup.sizes p (local_of seat.old.me).held result) []) seat.new.me }
        ensures named { IsNamed self.now.setup.sizes result }
    {
        self.table.shared.load::<Starts>(seat, 0)
    }

    /// Loads S, with which a direct attempt begins, at a call that isn't announced.
    pub(crate) fn begin(&self, seat: &mut Seat<Seen, View<O>>, p: u64) -> u64
        requires table { seat.old.table_id ≡ self.now.table.shared.table_id }
        requires inside { p < self.now.setup.sizes.processes }
        requires of { IsOf self.now.setup.object self.now.setup.sizes p seat.old.me }
        requires stage { stage_of seat.old.me ≡ Idle [] }
        requires untried { IsAnnounced seat.old.me }
        requires room { length (local_of seat.old.me).own + 1 ≤ most_calls }
        ensures same { (seat.new.table_id ≡ seat.old.table_id) × (seat.new.id ≡ seat.old.id) }
        ensures left { IsLeft seat.old.me (begins_directly (local_of seat.old.me) result
            (begun self.now.setup.sizes p (local_of seat.old.me).held result)) seat.new.me }
        ensures named { IsNamed self.now.setup.sizes result }
    {
        self.table.shared.load::<Begins>(seat, 0)
    }

    /// Loads the next word of the buffer that the attempt copies.
    pub(crate) fn copy_word(
        &self,
        seat: &mut Seat<Seen, View<O>>,
        p: u64,
        tries: u64,
        s: u64,
        i: u64,
    ) -> u64
        requires table { seat.old.table_id ≡ self.now.table.shared.table_id }
        requires inside { (p < self.now.setup.sizes.processes) × (i < buffer_words self.now.setup.sizes) }
        requires of { IsOf self.now.setup.object self.now.setup.sizes p seat.old.me }
        requires stage { IsCopying tries s i seat.old.me }
        requires named { buffer_in s < 2 * self.now.setup.sizes.processes }
        ensures same { (seat.new.table_id ≡ seat.old.table_id) × (seat.new.id ≡ seat.old.id) }
        ensures left { (copy : List ℕ) → stage_of seat.old.me ≡ Reading tries s copy []
            → Goes seat.old.me (Reading tries s (copy ++ result ∷ []) []) seat.new.me }
    {
        self.table
            .shared
            .load::<Copies>(seat, self.buffer_word(s % 128, i))
    }

    /// Loads the announcement of process r.
    pub(crate) fn look(
        &self,
        seat: &mut Seat<Seen, View<O>>,
        p: u64,
        tries: u64,
        s: u64,
        r: u64,
    ) -> u64
        requires table { seat.old.table_id ≡ self.now.table.shared.table_id }
        requires inside { (p < self.now.setup.sizes.processes) × (r < self.now.setup.sizes.processes) }
        requires of { IsOf self.now.setup.object self.now.setup.sizes p seat.old.me }
        requires stage { IsLooking self.now.setup.sizes tries s r seat.old.me }
        ensures same { (seat.new.table_id ≡ seat.old.table_id) × (seat.new.id ≡ seat.old.id) }
        ensures left { (copy : List ℕ) (seen : List (Option (List ℕ)))
            → stage_of seat.old.me ≡ Reading tries s copy seen
            → Goes seat.old.me (Reading tries s copy (seen ++ looked copy (length seen) result ∷ [])) seat.new.me }
    {
        self.table.shared.load::<Looks>(seat, self.announce_word(r))
    }

    /// Loads word k of the argument of process r, whose call isn't in.
    pub(crate) fn ask(
        &self,
        seat: &mut Seat<Seen, View<O>>,
        p: u64,
        tries: u64,
        s: u64,
        r: u64,
        k: u64,
    ) -> u64
        requires table { seat.old.table_id ≡ self.now.table.shared.table_id }
        requires inside { (p < self.now.setup.sizes.processes) × (r < self.now.setup.sizes.processes)
            × (k < self.now.setup.sizes.invocation) }
        requires of { IsOf self.now.setup.object self.now.setup.sizes p seat.old.me }
        requires stage { IsAsking tries s r k seat.old.me }
        ensures same { (seat.new.table_id ≡ seat.old.table_id) × (seat.new.id ≡ seat.old.id) }
        ensures left { (copy : List ℕ) (seen : List (Option (List ℕ))) (part : List ℕ)
            → stage_of seat.old.me ≡ Reading tries s copy (seen ++ Some part ∷ [])
            → Goes seat.old.me (Reading tries s copy (seen ++ Some (part ++ result ∷ []) ∷ [])) seat.new.me }
    {
        self.table
            .shared
            .load::<Asks>(seat, self.argument_word(r, k))
    }

    /// Loads S again: where it is as it was, the copy was good.
    pub(crate) fn check(&self, seat: &mut Seat<Seen, View<O>>, p: u64, tries: u64, s: u64) -> u64
        requires table { seat.old.table_id ≡ self.now.table.shared.table_id }
        requires inside { p < self.now.setup.sizes.processes }
        requires of { IsOf self.now.setup.object self.now.setup.sizes p seat.old.me }
        requires announced { IsAnnounced seat.old.me }
        requires stage { IsLooking self.now.setup.sizes tries s self.now.setup.sizes.processes seat.old.me }
        requires named { buffer_in s < 2 * self.now.setup.sizes.processes }
        ensures same { (seat.new.table_id ≡ seat.old.table_id) × (seat.new.id ≡ seat.old.id) }
        ensures left { (copy : List ℕ) (seen : List (Option (List ℕ)))
            → stage_of seat.old.me ≡ Reading tries s copy seen
            → Goes seat.old.me
            (checked self.now.setup.sizes p (length (local_of seat.old.me).own + 1) tries s copy seen result)
            seat.new.me × (result ≡ s → IsGood (O.meaning self.now.setup.object) self.now.setup.sizes
            (read_image self.now.setup.sizes copy)) }
    {
        self.table.shared.load::<Checks>(seat, 0)
    }

    /// Loads S again in a direct attempt: where it has changed, no call is pending.
    pub(crate) fn check_own(&self, seat: &mut Seat<Seen, View<O>>, p: u64, s: u64) -> u64
        requires table { seat.old.table_id ≡ self.now.table.shared.table_id }
        requires inside { p < self.now.setup.sizes.processes }
        requires of { IsOf self.now.setup.object self.now.setup.sizes p seat.old.me }
        requires direct { IsDirect seat.old.me }
        requires stage { IsLooking self.now.setup.sizes 0 s self.now.setup.sizes.processes seat.old.me }
        ensures same { (seat.new.table_id ≡ seat.old.table_id) × (seat.new.id ≡ seat.old.id) }
        ensures left { (copy : List ℕ) (seen : List (Option (List ℕ)))
            → stage_of seat.old.me ≡ Reading 0 s copy seen
            → Goes seat.old.me (checked_own self.now.setup.sizes s copy seen result) seat.new.me
            × (result ≡ s → IsGood (O.meaning self.now.setup.object) self.now.setup.sizes
            (read_image self.now.setup.sizes copy)) }
    {
        self.table.shared.load::<ChecksOwn>(seat, 0)
    }

    /// Loads S again, and gives the direct attempt up: where S is as it was, the copy has the state of the version that
    /// it names.
    pub(crate) fn confirm(&self, seat: &mut Seat<Seen, View<O>>, p: u64, s: u64) -> u64
        requires table { seat.old.table_id ≡ self.now.table.shared.table_id }
        requires inside { p < self.now.setup.sizes.processes }
        requires of { IsOf self.now.setup.object self.now.setup.sizes p seat.old.me }
        requires direct { IsDirect seat.old.me }
        requires stage { IsCopying 0 s (buffer_words self.now.setup.sizes) seat.old.me }
        ensures same { (seat.new.table_id ≡ seat.old.table_id) × (seat.new.id ≡ seat.old.id) }
        ensures left { (copy : List ℕ) → stage_of seat.old.me ≡ Reading 0 s copy [] → IsLeft seat.old.me (confirms
            (local_of seat.old.me) s (read_image self.now.setup.sizes copy).state result) seat.new.me }
        ensures later { result ≡ s → (local_of seat.old.me).after ≤ version_in s }
        ensures widths { result ≡ s → AreWidths (O.meaning self.now.setup.object) self.now.setup.sizes }
        ensures told { (copy : List ℕ) → stage_of seat.old.me ≡ Reading 0 s copy [] → result ≡ s
            → IsVersion (O.meaning self.now.setup.object).object self.now.setup.sizes.processes
            (record { process = p; calls = (local_of seat.old.me).own } ∷ []) (version_in s)
            (read_image self.now.setup.sizes copy).state }
    {
        self.table.shared.load::<Confirms>(seat, 0)
    }

    /// Stores a word of the spare buffer.
    pub(crate) fn write_word(
        &self,
        seat: &mut Seat<Seen, View<O>>,
        p: u64,
        spare: u64,
        i: u64,
        x: u64,
    )
        requires table { seat.old.table_id ≡ self.now.table.shared.table_id }
        requires inside { (p < self.now.setup.sizes.processes) × (i < buffer_words self.now.setup.sizes) }
        requires of { IsOf self.now.setup.object self.now.setup.sizes p seat.old.me }
        requires stage { IsWriting (O.meaning self.now.setup.object).object self.now.setup.sizes i x seat.old.me }
        requires spare { ((local_of seat.old.me).spare ≡ spare) × (spare ≤ 1) }
        ensures same { (seat.new.table_id ≡ seat.old.table_id) × (seat.new.id ≡ seat.old.id) }
        ensures left { IsLeft seat.old.me
            (wrote (local_of seat.old.me) i (held_place self.now.setup.sizes spare i) x) seat.new.me }
    {
        self.table
            .shared
            .store::<Writes>(seat, self.buffer_word(2 * p + spare, i), x);
    }

    /// The exchange that makes the spare buffer current, by the word `new`.
    pub(crate) fn bring_in(
        &self,
        seat: &mut Seat<Seen, View<O>>,
        p: u64,
        tries: u64,
        s: u64,
        spare: u64,
        new: u64,
    ) -> u64
        requires table { seat.old.table_id ≡ self.now.table.shared.table_id }
        requires inside { p < self.now.setup.sizes.processes }
        requires of { IsOf self.now.setup.object self.now.setup.sizes p seat.old.me }
        requires announced { IsAnnounced seat.old.me }
        requires stage { HasWrittenAll (O.meaning self.now.setup.object).object self.now.setup.sizes tries s
            seat.old.me }
        requires spare { ((local_of seat.old.me).spare ≡ spare) × (spare ≤ 1) }
        requires word { new ≡ current_word (version_in s + 1) (2 * p + spare) }
        ensures same { (seat.new.table_id ≡ seat.old.table_id) × (seat.new.id ≡ seat.old.id) }
        ensures left { IsLeft seat.old.me (brought (local_of seat.old.me) tries s new result) seat.new.me }
    {
        self.table
            .shared
            .compare_exchange::<Brings>(seat, 0, s, new)
    }

    /// The exchange of a direct attempt at this call, which makes the spare buffer current, by the word `new`.
    pub(crate) fn bring_in_own(
        &self,
        seat: &mut Seat<Seen, View<O>>,
        p: u64,
        s: u64,
        spare: u64,
        new: u64,
        own: &Seen,
    ) -> u64
        requires table { seat.old.table_id ≡ self.now.table.shared.table_id }
        requires inside { p < self.now.setup.sizes.processes }
        requires of { IsOf self.now.setup.object self.now.setup.sizes p seat.old.me }
        requires direct { IsDirect seat.old.me }
        requires room { length (local_of seat.old.me).own + 1 ≤ most_calls }
        requires whole { HasInvocation self.now.setup.sizes own.now }
        requires stage { HasWrittenOwn (O.meaning self.now.setup.object).object self.now.setup.sizes s
            own.now.invocation.items seat.old.me }
        requires spare { ((local_of seat.old.me).spare ≡ spare) × (spare ≤ 1) }
        requires word { new ≡ current_word (version_in s + 1) (2 * p + spare) }
        ensures same { (seat.new.table_id ≡ seat.old.table_id) × (seat.new.id ≡ seat.old.id) }
        ensures left { IsLeft seat.old.me
            (brought_own (local_of seat.old.me) s new own.now.invocation.items result) seat.new.me }
    {
        self.table
            .shared
            .compare_exchange_with::<BringsOwn>(seat, 0, s, new, own)
    }

    /// Loads S after two attempts that have failed: the call is in.
    pub(crate) fn turn(&self, seat: &mut Seat<Seen, View<O>>, p: u64, tries: u64) -> u64
        requires table { seat.old.table_id ≡ self.now.table.shared.table_id }
        requires inside { (p < self.now.setup.sizes.processes) × (2 ≤ tries) }
        requires of { IsOf self.now.setup.object self.now.setup.sizes p seat.old.me }
        requires announced { IsAnnounced seat.old.me }
        requires stage { stage_of seat.old.me ≡ Ready tries }
        ensures same { (seat.new.table_id ≡ seat.old.table_id) × (seat.new.id ≡ seat.old.id) }
        ensures left { Goes seat.old.me (Last result []) seat.new.me }
        ensures named { IsNamed self.now.setup.sizes result }
    {
        self.table.shared.load::<Turns>(seat, 0)
    }

    /// Loads word k of the reply, which isn't the last one.
    pub(crate) fn load_word(&self, seat: &mut Seat<Seen, View<O>>, p: u64, s: u64, k: u64) -> u64
        requires table { seat.old.table_id ≡ self.now.table.shared.table_id }
        requires inside { (p < self.now.setup.sizes.processes) × (k + 1 < self.now.setup.sizes.reply) }
        requires of { IsOf self.now.setup.object self.now.setup.sizes p seat.old.me }
        requires stage { IsLoading s k seat.old.me }
        requires named { buffer_in s < 2 * self.now.setup.sizes.processes }
        ensures same { (seat.new.table_id ≡ seat.old.table_id) × (seat.new.id ≡ seat.old.id) }
        ensures left { (loaded : List ℕ) → stage_of seat.old.me ≡ Last s loaded
            → Goes seat.old.me (Last s (loaded ++ result ∷ [])) seat.new.me }
    {
        self.table
            .shared
            .load::<Loads>(seat, self.reply_word(p, s, k))
    }

    /// Loads the last word of the reply: the call returns, and is in the version that s names.
    pub(crate) fn load_last(&self, seat: &mut Seat<Seen, View<O>>, p: u64, s: u64, k: u64) -> u64
        requires table { seat.old.table_id ≡ self.now.table.shared.table_id }
        requires inside { (p < self.now.setup.sizes.processes) × (k + 1 ≡ self.now.setup.sizes.reply) }
        requires of { IsOf self.now.setup.object self.now.setup.sizes p seat.old.me }
        requires stage { IsLoading s k seat.old.me }
        requires named { buffer_in s < 2 * self.now.setup.sizes.processes }
        ensures same { (seat.new.table_id ≡ seat.old.table_id) × (seat.new.id ≡ seat.old.id) }
        ensures left { (loaded : List ℕ) → stage_of seat.old.me ≡ Last s loaded
            → IsLeft seat.old.me (returns (local_of seat.old.me) s (loaded ++ result ∷ [])) seat.new.me }
        ensures later { (local_of seat.old.me).after < version_in s }
    {
        self.table
            .shared
            .load::<Replies>(seat, self.reply_word(p, s, k))
    }

    /// Loads S between calls: the present version.
    pub(crate) fn present(&self, seat: &mut Seat<Seen, View<O>>, p: u64) -> u64
        requires table { seat.old.table_id ≡ self.now.table.shared.table_id }
        requires inside { p < self.now.setup.sizes.processes }
        requires of { IsOf self.now.setup.object self.now.setup.sizes p seat.old.me }
        requires stage { stage_of seat.old.me ≡ Idle [] }
        ensures same { (seat.new.table_id ≡ seat.old.table_id) × (seat.new.id ≡ seat.old.id) }
        ensures left { IsLeft seat.old.me (knows (local_of seat.old.me) result) seat.new.me }
        ensures later { (local_of seat.old.me).after ≤ result }
    {
        self.table.shared.load::<Follows>(seat, 0) / 128
    }

    /// Loads S between calls, where the process has read this version: the present one. Where that is the same, it has
    /// the state that was read.
    pub(crate) fn recall(&self, seat: &mut Seat<Seen, View<O>>, p: u64, version: u64) -> u64
        requires table { seat.old.table_id ≡ self.now.table.shared.table_id }
        requires inside { p < self.now.setup.sizes.processes }
        requires of { IsOf self.now.setup.object self.now.setup.sizes p seat.old.me }
        requires stage { stage_of seat.old.me ≡ Idle [] }
        requires read { (state : List ℕ)
            × ((local_of seat.old.me).read ≡ Some (record { version = version; state = state })) }
        ensures same { (seat.new.table_id ≡ seat.old.table_id) × (seat.new.id ≡ seat.old.id) }
        ensures left { IsLeft seat.old.me (recalls (local_of seat.old.me) version result) seat.new.me }
        ensures later { result ≡ version → (local_of seat.old.me).after ≤ version }
        ensures widths { result ≡ version → AreWidths (O.meaning self.now.setup.object) self.now.setup.sizes }
        ensures told { (read : Read) → (local_of seat.old.me).read ≡ Some read → result ≡ version
            → IsVersion (O.meaning self.now.setup.object).object self.now.setup.sizes.processes
            (record { process = p; calls = (local_of seat.old.me).own } ∷ []) version read.state }
    {
        self.table.shared.load::<Recalls>(seat, 0) / 128
    }

    /// Loads the announcement of process p, whatever it is at.
    pub(crate) fn recount(&self, seat: &mut Seat<Seen, View<O>>, p: u64) -> u64
        requires table { seat.old.table_id ≡ self.now.table.shared.table_id }
        requires inside { p < self.now.setup.sizes.processes }
        requires of { IsOf self.now.setup.object self.now.setup.sizes p seat.old.me }
        ensures same { (seat.new.table_id ≡ seat.old.table_id) × (seat.new.id ≡ seat.old.id) }
        ensures left { IsLeft seat.old.me (rests (local_of seat.old.me)) seat.new.me }
        ensures is { result ≡ (local_of seat.old.me).told }
        ensures told { result ≤ begun_by (has_begun (stage_of seat.old.me) (local_of seat.old.me).direct)
            (length (local_of seat.old.me).own) }
        ensures long { length (local_of seat.old.me).held ≡ 2 * buffer_words self.now.setup.sizes }
        ensures most { begun_by (has_begun (stage_of seat.old.me) (local_of seat.old.me).direct)
            (length (local_of seat.old.me).own) ≤ most_calls }
    {
        self.table
            .shared
            .load::<Recounts>(seat, self.announce_word(p))
    }

    /// Loads word i of a buffer of process p, of the first or the second one, whatever it is at.
    pub(crate) fn reread(&self, seat: &mut Seat<Seen, View<O>>, p: u64, which: u64, i: u64) -> u64
        requires table { seat.old.table_id ≡ self.now.table.shared.table_id }
        requires inside { (p < self.now.setup.sizes.processes) × (which ≤ 1)
            × (i < buffer_words self.now.setup.sizes) }
        requires of { IsOf self.now.setup.object self.now.setup.sizes p seat.old.me }
        ensures same { (seat.new.table_id ≡ seat.old.table_id) × (seat.new.id ≡ seat.old.id) }
        ensures left { IsLeft seat.old.me (rests (local_of seat.old.me)) seat.new.me }
        ensures told { result ≡ slice_index (local_of seat.old.me).held (held_place self.now.setup.sizes which i) }
    {
        self.table
            .shared
            .load::<Rereads>(seat, self.buffer_word(2 * p + which, i))
    }

    /// Loads S: the call of process p, which has begun, begins again from its announcement, wherever it stood.
    pub(crate) fn restart(&self, seat: &mut Seat<Seen, View<O>>, p: u64) -> u64
        requires table { seat.old.table_id ≡ self.now.table.shared.table_id }
        requires inside { p < self.now.setup.sizes.processes }
        requires of { IsOf self.now.setup.object self.now.setup.sizes p seat.old.me }
        requires begun { has_begun (stage_of seat.old.me) (local_of seat.old.me).direct ≡ true }
        ensures same { (seat.new.table_id ≡ seat.old.table_id) × (seat.new.id ≡ seat.old.id) }
        ensures left { IsLeft seat.old.me (restarted (local_of seat.old.me) p result true) seat.new.me }
    {
        self.table.shared.load::<Restarts>(seat, 0)
    }

    /// Loads S: process p, of which no call has begun, stands before its next call, also where it was in a direct
    /// attempt.
    pub(crate) fn abandon(&self, seat: &mut Seat<Seen, View<O>>, p: u64) -> u64
        requires table { seat.old.table_id ≡ self.now.table.shared.table_id }
        requires inside { p < self.now.setup.sizes.processes }
        requires of { IsOf self.now.setup.object self.now.setup.sizes p seat.old.me }
        requires none { has_begun (stage_of seat.old.me) (local_of seat.old.me).direct ≡ false }
        ensures same { (seat.new.table_id ≡ seat.old.table_id) × (seat.new.id ≡ seat.old.id) }
        ensures left { IsLeft seat.old.me (restarted (local_of seat.old.me) p result false) seat.new.me }
    {
        self.table.shared.load::<Restarts>(seat, 0)
    }
}
