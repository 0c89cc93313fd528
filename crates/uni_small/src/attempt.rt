//! An attempt at a call: copy the current buffer, apply what was announced, and bring the copy in.
ghost use Rattle.std.specs.Prelude.{ℕ, ◌*◌, ◌+◌, ◌++◌, ◌<◌, ◌≡◌, ◌≢◌, ◌≤◌, ◌⊎◌};
ghost use Rattle.std.specs.Prelude.{All, List, Option, Some, [], ◌∷◌, false, length, map, slice_index};
ghost use Rattle.std.specs.Prelude.{slice_index_or, slice_set};
ghost use Rattle.uni_small.specs.Image.{AreWidths, IsReached, buffer_words, due_at, held_place, spell, with_row};
ghost use Rattle.uni_small.specs.Image.{with_seen};
ghost use Rattle.uni_small.specs.View.Stage.{Idle, Ready, Reading, Writing};
ghost use Rattle.uni_small.specs.Board.{buffer_in};
ghost use Rattle.uni_small.specs.Invariant.{most_calls};
ghost use Rattle.uni_small.specs.Plays.{stage_of, IsNamed, IsGood, begun, words_held};
ghost use Rattle.uni_small.specs.Standing.{GoesBy, GoesWithin, IsAsking, IsCopying, IsLooking, IsOf};
ghost use Rattle.uni_small.specs.Standing.{EndsWithin, HasCopy, HasRow, IsAnnounced, IsDirect, TriesWithin};
ghost use Rattle.uni_small.specs.Standing.{WritesWithin, attempt_steps, local_of};
ghost use Rattle.uni_small.specs.Kept.{AreBuffers, SpareHas, HasInvocation, HasRoom};
ghost use Rattle.uni_small.specs.Kept.{IsOutsideBoth, IsOutsideRows, IsKept, IsOutside, IsQuietOutside};
ghost use Rattle.uni_small.specs.Kept.{IsUntouchedByBoth};
ghost use Rattle.uni_small.specs.Touched.{AreSameOutside};
ghost use Rattle.uni_small.specs.declared.seat.Seen.{Seen};
ghost use Rattle.uni_small.specs.Kept.{all_seen, image_in, image_of_rows, seen_in};

use crate::log::SmallShared;
use crate::object::SmallObject;
use crate::seat::{Buffers, Room, Seen};
use crate::span::Span;
use crate::touched::{Changes, Touched};
use crate::view::View;
use atomic_table::Seat;

impl<O: SmallObject> SmallShared<O> {
    /// Copies a row of the buffer that the attempt copies, from its word `from` on.
    fn copy_row(
        &self,
        seat: &mut Seat<Seen, View<O>>,
        p: u64,
        tries: u64,
        s: u64,
        from: u64,
        row: &mut [u64],
    )
        requires table { seat.old.table_id ≡ self.now.table.shared.table_id }
        requires inside { (p < self.now.setup.sizes.processes)
            × (from + length row.old ≤ buffer_words self.now.setup.sizes) }
        requires of { IsOf self.now.setup.object self.now.setup.sizes p seat.old.me }
        requires stage { IsCopying tries s from seat.old.me }
        requires named { buffer_in s < 2 * self.now.setup.sizes.processes }
        ensures same { (seat.new.table_id ≡ seat.old.table_id) × (seat.new.id ≡ seat.old.id) }
        ensures goes { (copy : List ℕ) → stage_of seat.old.me ≡ Reading tries s copy []
            → GoesBy seat.old.me (length row.new) (Reading tries s (copy ++ row.new) []) seat.new.me }
    {
        for i in 0..row.len() {
            row[i] = self.copy_word(seat, p, tries, s, from + i as u64);
        }
    }

    /// Loads the invocation of process r, whose call isn't in.
    fn ask_all(
        &self,
        seat: &mut Seat<Seen, View<O>>,
        p: u64,
        tries: u64,
        s: u64,
        r: u64,
        invocation: &mut [u64],
    )
        requires table { seat.old.table_id ≡ self.now.table.shared.table_id }
        requires inside { (p < self.now.setup.sizes.processes) × (r < self.now.setup.sizes.processes)
            × (length invocation.old ≡ self.now.setup.sizes.invocation) }
        requires of { IsOf self.now.setup.object self.now.setup.sizes p seat.old.me }
        requires stage { IsAsking tries s r 0 seat.old.me }
        ensures same { (seat.new.table_id ≡ seat.old.table_id) × (seat.new.id ≡ seat.old.id) }
        ensures goes { (copy : List ℕ) (seen : List (Option (List ℕ)))
            → stage_of seat.old.me ≡ Reading tries s copy (seen ++ Some [] ∷ [])
            → GoesBy seat.old.me (length invocation.new)
            (Reading tries s copy (seen ++ Some invocation.new ∷ [])) seat.new.me }
    {
        for k in 0..invocation.len() {
            invocation[k] = self.ask(seat, p, tries, s, r, k as u64);
        }
    }

    /// Looks at process r, of which the copy has so many calls in: whether there is one that isn't in, and
    /// its invocation.
    fn see(
        &self,
        seat: &mut Seat<Seen, View<O>>,
        p: u64,
        tries: u64,
        s: u64,
        r: u64,
        known: u64,
        seen: &mut Seen,
    ) -> bool
        requires table { seat.old.table_id ≡ self.now.table.shared.table_id }
        requires inside { (p < self.now.setup.sizes.processes) × (r < self.now.setup.sizes.processes) }
        requires of { IsOf self.now.setup.object self.now.setup.sizes p seat.old.me }
        requires stage { IsLooking self.now.setup.sizes tries s r seat.old.me }
        requires known { (copy : List ℕ) (seen : List (Option (List ℕ)))
            → stage_of seat.old.me ≡ Reading tries s copy seen → slice_index copy r ≡ known }
        requires room { HasInvocation self.now.setup.sizes seen.old }
        requires none { seen.old.due ≡ false }
        ensures same { (seat.new.table_id ≡ seat.old.table_id) × (seat.new.id ≡ seat.old.id) }
        ensures goes { (copy : List ℕ) (before : List (Option (List ℕ)))
            → stage_of seat.old.me ≡ Reading tries s copy before
            → GoesWithin seat.old.me (1 + self.now.setup.sizes.invocation)
            (Reading tries s copy (before ++ seen_in seen.new ∷ [])) seat.new.me }
        ensures room { HasInvocation self.now.setup.sizes seen.new }
        ensures due { seen.new.due ≡ result }
    {
        let announced = self.look(seat, p, tries, s, r);
        if announced <= known {
            return false;
        }
        seen.due = true;
        self.ask_all(seat, p, tries, s, r, &mut seen.invocation);
        true
    }

    /// Forgets what was seen of these processes.
    fn forget(&self, seen: &mut [Seen], busy: Span)
        requires busy { (busy.from ≤ busy.to) × (busy.to ≤ length seen.old) }
        requires quiet { IsQuietOutside busy (map seen_in seen.old) }
        requires room { All (HasInvocation self.now.setup.sizes) seen.old }
        ensures none { (q : ℕ) → due_at (map seen_in seen.new) q ≡ 0 }
        ensures room { All (HasInvocation self.now.setup.sizes) seen.new }
    {
        for r in busy.from as usize..busy.to as usize {
            seen[r].due = false;
        }
    }

    /// Looks at all processes: a call that isn't in the copy is seen. The answer are processes beside which nobody has
    /// one.
    fn scan(
        &self,
        seat: &mut Seat<Seen, View<O>>,
        p: u64,
        tries: u64,
        s: u64,
        applied: &[u64],
        seen: &mut [Seen],
    ) -> Span
        requires table { seat.old.table_id ≡ self.now.table.shared.table_id }
        requires inside { (p < self.now.setup.sizes.processes)
            × (length applied.now ≡ self.now.setup.sizes.processes)
            × (length seen.old ≡ self.now.setup.sizes.processes) }
        requires of { IsOf self.now.setup.object self.now.setup.sizes p seat.old.me }
        requires stage { HasCopy self.now.setup.sizes tries s applied.now seat.old.me }
        requires room { All (HasInvocation self.now.setup.sizes) seen.old }
        requires none { (q : ℕ) → due_at (map seen_in seen.old) q ≡ 0 }
        ensures same { (seat.new.table_id ≡ seat.old.table_id) × (seat.new.id ≡ seat.old.id) }
        ensures goes { (copy : List ℕ) → stage_of seat.old.me ≡ Reading tries s copy []
            → GoesWithin seat.old.me
            (self.now.setup.sizes.processes + self.now.setup.sizes.processes * self.now.setup.sizes.invocation)
            (Reading tries s copy (map seen_in seen.new)) seat.new.me }
        ensures room { All (HasInvocation self.now.setup.sizes) seen.new }
        ensures busy { (result.from ≤ result.to) × (result.to ≤ self.now.setup.sizes.processes) }
        ensures quiet { IsQuietOutside result (map seen_in seen.new) }
    {
        let mut busy = Span::NONE;
        for r in 0..self.setup.sizes.processes {
            let due = self.see(
                seat,
                p,
                tries,
                s,
                r,
                applied[r as usize],
                &mut seen[r as usize],
            );
            if due {
                busy = busy.with(r);
            }
        }
        busy
    }

    /// Applies what was seen of process r to the copy, and adds the words that this may change to those before.
    fn apply_one(
        &self,
        applied: &mut [u64],
        reply: &mut [u64],
        state: &mut [u64],
        r: usize,
        seen: &Seen,
        touched: &mut Touched,
    )
        requires rows { (r < self.now.setup.sizes.processes) × (length applied.old ≡ self.now.setup.sizes.processes)
            × (length reply.old ≡ self.now.setup.sizes.processes * self.now.setup.sizes.reply) }
        requires widths { AreWidths (O.meaning self.now.setup.object) self.now.setup.sizes }
        requires room { HasInvocation self.now.setup.sizes seen.now }
        requires reached { IsReached (O.meaning self.now.setup.object).object state.old }
        requires few { slice_index applied.old r ≤ most_calls }
        ensures image { image_of_rows self.now.setup.sizes applied.new reply.new state.new
            ≡ with_seen (O.meaning self.now.setup.object).object
            (image_of_rows self.now.setup.sizes applied.old reply.old state.old) r (seen_in seen.now ∷ []) }
        ensures reached { IsReached (O.meaning self.now.setup.object).object state.new }
        ensures applied { (q : ℕ) → q ≢ r → slice_index applied.new q ≡ slice_index applied.old q }
        ensures reply { (i : ℕ) → IsOutside (r * self.now.setup.sizes.reply)
            (r * self.now.setup.sizes.reply + self.now.setup.sizes.reply) i
            → slice_index reply.new i ≡ slice_index reply.old i }
        ensures touched { (first : List ℕ) → length first ≡ length state.old
            → AreSameOutside touched.old first state.old → AreSameOutside touched.new first state.new }
    {
        if !seen.due {
            return;
        }
        applied[r] += 1;
        let words = self.setup.sizes.reply as usize;
        let from = r * words;
        let more = self.setup.object.touches(state, &seen.invocation);
        *touched = touched.with(more);
        self.setup
            .object
            .apply(state, &seen.invocation, &mut reply[from..from + words]);
    }

    /// Applies what was seen to the copy, of these processes and nobody beside them: which words of the state this may
    /// change.
    fn apply_seen(
        &self,
        applied: &mut [u64],
        reply: &mut [u64],
        state: &mut [u64],
        seen: &[Seen],
        busy: Span,
    ) -> Touched
        requires rows { (length applied.old ≡ self.now.setup.sizes.processes)
            × (length reply.old ≡ self.now.setup.sizes.processes * self.now.setup.sizes.reply)
            × (length seen.now ≡ self.now.setup.sizes.processes) }
        requires room { All (HasInvocation self.now.setup.sizes) seen.now }
        requires good { IsGood (O.meaning self.now.setup.object) self.now.setup.sizes
            (image_of_rows self.now.setup.sizes applied.old reply.old state.old) }
        requires busy { (busy.from ≤ busy.to) × (busy.to ≤ self.now.setup.sizes.processes) }
        requires quiet { IsQuietOutside busy (map seen_in seen.now) }
        ensures image { image_of_rows self.now.setup.sizes applied.new reply.new state.new
            ≡ with_seen (O.meaning self.now.setup.object).object
            (image_of_rows self.now.setup.sizes applied.old reply.old state.old) 0 (map seen_in seen.now) }
        ensures applied { (q : ℕ) → IsOutside busy.from busy.to q
            → slice_index applied.new q ≡ slice_index applied.old q }
        ensures reply { (i : ℕ) → IsOutsideRows busy self.now.setup.sizes.reply i
            → slice_index reply.new i ≡ slice_index reply.old i }
        ensures touched { AreSameOutside result state.old state.new }
    {
        let mut touched = Touched::NONE;
        for r in busy.from as usize..busy.to as usize {
            self.apply_one(applied, reply, state, r, &seen[r], &mut touched);
        }
        touched
    }

    /// Writes a row of the spare buffer, from its word `from` on: of its words from `first` on that are before `end` it
    /// stores those that differ.
    fn write_words(
        &self,
        seat: &mut Seat<Seen, View<O>>,
        p: u64,
        own: &mut Buffers,
        from: u64,
        row: &[u64],
        first: u64,
        end: u64,
    )
        requires table { seat.old.table_id ≡ self.now.table.shared.table_id }
        requires inside { (p < self.now.setup.sizes.processes)
            × (from + length row.now ≤ buffer_words self.now.setup.sizes) }
        requires words { (first ≤ end) × (end ≤ length row.now) }
        requires of { IsOf self.now.setup.object self.now.setup.sizes p seat.old.me }
        requires stage { HasRow (O.meaning self.now.setup.object).object self.now.setup.sizes from row.now seat.old.me }
        requires own { AreBuffers self.now.setup.sizes (local_of seat.old.me) own.old }
        requires alike { SpareHas self.now.setup.sizes own.old from row.now (IsOutside first end) }
        ensures same { (seat.new.table_id ≡ seat.old.table_id) × (seat.new.id ≡ seat.old.id) }
        ensures goes { WritesWithin seat.old.me from (length row.now) own.new.held.items seat.new.me }
        ensures spare { own.new.spare ≡ own.old.spare }
        ensures held { own.new.held.items
            ≡ with_row own.old.held.items (held_place self.now.setup.sizes own.old.spare from) row.now }
    {
        let spare = own.spare;
        let start = spare * self.buffer_words() + from;
        for i in first..end {
            let place = (start + i) as usize;
            let word = row[i as usize];
            if own.held[place] != word {
                self.write_word(seat, p, spare, from + i, word);
                own.held[place] = word;
            }
        }
    }

    /// Writes a row of the spare buffer, from its word `from` on: of those words that may differ it stores those that
    /// do.
    fn write_row(
        &self,
        seat: &mut Seat<Seen, View<O>>,
        p: u64,
        own: &mut Buffers,
        from: u64,
        row: &[u64],
        apart: Touched,
        touched: Touched,
    )
        requires table { seat.old.table_id ≡ self.now.table.shared.table_id }
        requires inside { (p < self.now.setup.sizes.processes)
            × (from + length row.now ≤ buffer_words self.now.setup.sizes) }
        requires of { IsOf self.now.setup.object self.now.setup.sizes p seat.old.me }
        requires stage { HasRow (O.meaning self.now.setup.object).object self.now.setup.sizes from row.now seat.old.me }
        requires own { AreBuffers self.now.setup.sizes (local_of seat.old.me) own.old }
        requires alike { SpareHas self.now.setup.sizes own.old from row.now (IsUntouchedByBoth apart touched) }
        ensures same { (seat.new.table_id ≡ seat.old.table_id) × (seat.new.id ≡ seat.old.id) }
        ensures goes { WritesWithin seat.old.me from (length row.now) own.new.held.items seat.new.me }
        ensures spare { own.new.spare ≡ own.old.spare }
        ensures held { own.new.held.items
            ≡ with_row own.old.held.items (held_place self.now.setup.sizes own.old.spare from) row.now }
    {
        let spare = own.spare;
        let first = spare * self.buffer_words() + from;
        let end = row.len() as u64;
        let mut i = apart.next_of(touched, 0);
        while i < end {
            let place = (first + i) as usize;
            let word = row[i as usize];
            if own.held[place] != word {
                self.write_word(seat, p, spare, from + i, word);
                own.held[place] = word;
            }
            i = apart.next_of(touched, i + 1);
        }
    }

    /// Loads all words of the buffer that s names.
    fn load_copy(&self, seat: &mut Seat<Seen, View<O>>, p: u64, tries: u64, s: u64, room: &mut Room)
        requires table { seat.old.table_id ≡ self.now.table.shared.table_id }
        requires inside { p < self.now.setup.sizes.processes }
        requires of { IsOf self.now.setup.object self.now.setup.sizes p seat.old.me }
        requires stage { stage_of seat.old.me ≡ Reading tries s [] [] }
        requires named { buffer_in s < 2 * self.now.setup.sizes.processes }
        requires room { HasRoom self.now.setup.sizes room.old }
        ensures same { (seat.new.table_id ≡ seat.old.table_id) × (seat.new.id ≡ seat.old.id) }
        ensures goes { GoesBy seat.old.me (buffer_words self.now.setup.sizes)
            (Reading tries s (spell (image_in self.now.setup.sizes room.new)) []) seat.new.me }
        ensures room { HasRoom self.now.setup.sizes room.new }
        ensures of { room.new.of ≡ room.old.of }
    {
        let sizes = &self.setup.sizes;
        let n = sizes.processes;
        self.copy_row(seat, p, tries, s, 0, &mut room.applied);
        self.copy_row(seat, p, tries, s, n, &mut room.reply);
        self.copy_row(seat, p, tries, s, n + n * sizes.reply, &mut room.state);
    }

    /// Takes the words of the first or second one of the process's own buffers, which it keeps.
    fn take_copy(&self, own: &Buffers, which: u64, room: &mut Room)
        requires which { which ≤ 1 }
        requires held { length own.now.held.items ≡ 2 * buffer_words self.now.setup.sizes }
        requires room { HasRoom self.now.setup.sizes room.old }
        ensures copy { spell (image_in self.now.setup.sizes room.new)
            ≡ words_held self.now.setup.sizes own.now.held.items which }
        ensures room { HasRoom self.now.setup.sizes room.new }
    {
        let sizes = &self.setup.sizes;
        let n = sizes.processes as usize;
        let replies = (sizes.processes * sizes.reply) as usize;
        let state = sizes.state as usize;
        let first = (which * self.buffer_words()) as usize;
        let second = first + n;
        let third = second + replies;
        room.applied.copy_from_slice(&own.held[first..second]);
        room.reply.copy_from_slice(&own.held[second..third]);
        room.state.copy_from_slice(&own.held[third..third + state]);
    }

    /// Copies the buffer that s names: where it is one of the process's own, no word of it is loaded, and where the
    /// process has the copy of it, nothing is to do.
    pub(crate) fn copy(
        &self,
        seat: &mut Seat<Seen, View<O>>,
        p: u64,
        tries: u64,
        s: u64,
        own: &Buffers,
        room: &mut Room,
    )
        requires table { seat.old.table_id ≡ self.now.table.shared.table_id }
        requires inside { p < self.now.setup.sizes.processes }
        requires of { IsOf self.now.setup.object self.now.setup.sizes p seat.old.me }
        requires stage { stage_of seat.old.me
            ≡ Reading tries s (begun self.now.setup.sizes p own.now.held.items s) [] }
        requires named { buffer_in s < 2 * self.now.setup.sizes.processes }
        requires held { length own.now.held.items ≡ 2 * buffer_words self.now.setup.sizes }
        requires room { HasRoom self.now.setup.sizes room.old }
        requires kept { IsKept self.now.setup.sizes own.now room.old }
        ensures same { (seat.new.table_id ≡ seat.old.table_id) × (seat.new.id ≡ seat.old.id) }
        ensures goes { GoesWithin seat.old.me (buffer_words self.now.setup.sizes)
            (Reading tries s (spell (image_in self.now.setup.sizes room.new)) []) seat.new.me }
        ensures room { HasRoom self.now.setup.sizes room.new }
        ensures kept { IsKept self.now.setup.sizes own.now room.new }
    {
        let b = s % 128;
        if b / 2 != p {
            room.of = 2;
            self.load_copy(seat, p, tries, s, room);
        } else if room.of != b % 2 {
            self.take_copy(own, b % 2, room);
            room.of = b % 2;
        }
    }

    /// Copies the buffer that s names, and looks at all processes.
    fn survey(
        &self,
        seat: &mut Seat<Seen, View<O>>,
        p: u64,
        tries: u64,
        s: u64,
        own: &Buffers,
        room: &mut Room,
    )
        requires table { seat.old.table_id ≡ self.now.table.shared.table_id }
        requires inside { p < self.now.setup.sizes.processes }
        requires of { IsOf self.now.setup.object self.now.setup.sizes p seat.old.me }
        requires stage { stage_of seat.old.me
            ≡ Reading tries s (begun self.now.setup.sizes p own.now.held.items s) [] }
        requires named { buffer_in s < 2 * self.now.setup.sizes.processes }
        requires held { length own.now.held.items ≡ 2 * buffer_words self.now.setup.sizes }
        requires room { HasRoom self.now.setup.sizes room.old }
        requires kept { IsKept self.now.setup.sizes own.now room.old }
        ensures same { (seat.new.table_id ≡ seat.old.table_id) × (seat.new.id ≡ seat.old.id) }
        ensures goes { GoesWithin seat.old.me
            (buffer_words self.now.setup.sizes
            + (self.now.setup.sizes.processes + self.now.setup.sizes.processes * self.now.setup.sizes.invocation))
            (Reading tries s (spell (image_in self.now.setup.sizes room.new)) (all_seen room.new)) seat.new.me }
        ensures room { HasRoom self.now.setup.sizes room.new }
        ensures kept { IsKept self.now.setup.sizes own.now room.new }
    {
        self.copy(seat, p, tries, s, own, room);
        self.forget(&mut room.seen, room.busy);
        room.busy = self.scan(seat, p, tries, s, &room.applied, &mut room.seen);
    }

    /// Begins an attempt: loads S, copies the buffer that it names, and looks at all processes.
    fn gather(
        &self,
        seat: &mut Seat<Seen, View<O>>,
        p: u64,
        tries: u64,
        own: &Buffers,
        room: &mut Room,
    ) -> u64
        requires table { seat.old.table_id ≡ self.now.table.shared.table_id }
        requires inside { p < self.now.setup.sizes.processes }
        requires of { IsOf self.now.setup.object self.now.setup.sizes p seat.old.me }
        requires few { tries < 2 }
        requires stage { stage_of seat.old.me ≡ Ready tries }
        requires own { AreBuffers self.now.setup.sizes (local_of seat.old.me) own.now }
        requires room { HasRoom self.now.setup.sizes room.old }
        requires kept { IsKept self.now.setup.sizes own.now room.old }
        ensures same { (seat.new.table_id ≡ seat.old.table_id) × (seat.new.id ≡ seat.old.id) }
        ensures goes { GoesWithin seat.old.me
            (1 + buffer_words self.now.setup.sizes
            + (self.now.setup.sizes.processes + self.now.setup.sizes.processes * self.now.setup.sizes.invocation))
            (Reading tries result (spell (image_in self.now.setup.sizes room.new)) (all_seen room.new)) seat.new.me }
        ensures named { IsNamed self.now.setup.sizes result }
        ensures room { HasRoom self.now.setup.sizes room.new }
        ensures kept { IsKept self.now.setup.sizes own.now room.new }
    {
        let s = self.start(seat, p, tries);
        self.survey(seat, p, tries, s, own, room);
        s
    }

    /// Writes an image to the spare buffer, which differs from it in these changes, or where both buffers may differ.
    fn write(
        &self,
        seat: &mut Seat<Seen, View<O>>,
        p: u64,
        own: &mut Buffers,
        room: &Room,
        touched: Changes,
    )
        requires table { seat.old.table_id ≡ self.now.table.shared.table_id }
        requires inside { p < self.now.setup.sizes.processes }
        requires of { IsOf self.now.setup.object self.now.setup.sizes p seat.old.me }
        requires stage { HasRow (O.meaning self.now.setup.object).object self.now.setup.sizes 0
            (spell (image_in self.now.setup.sizes room.now)) seat.old.me }
        requires own { AreBuffers self.now.setup.sizes (local_of seat.old.me) own.old }
        requires room { HasRoom self.now.setup.sizes room.now }
        requires calls { (touched.calls.from ≤ touched.calls.to)
            × (touched.calls.to ≤ self.now.setup.sizes.processes) }
        requires apart { (own.old.apart.calls.from ≤ own.old.apart.calls.to)
            × (own.old.apart.calls.to ≤ self.now.setup.sizes.processes) }
        requires applied { SpareHas self.now.setup.sizes own.old 0 room.now.applied.items
            (IsOutsideBoth own.old.apart.calls touched.calls 1) }
        requires reply { SpareHas self.now.setup.sizes own.old self.now.setup.sizes.processes room.now.reply.items
            (IsOutsideBoth own.old.apart.calls touched.calls self.now.setup.sizes.reply) }
        requires state { SpareHas self.now.setup.sizes own.old
            (self.now.setup.sizes.processes + self.now.setup.sizes.processes * self.now.setup.sizes.reply)
            room.now.state.items (IsUntouchedByBoth own.old.apart.state touched.state) }
        ensures same { (seat.new.table_id ≡ seat.old.table_id) × (seat.new.id ≡ seat.old.id) }
        ensures goes { WritesWithin seat.old.me 0 (buffer_words self.now.setup.sizes) own.new.held.items seat.new.me }
        ensures spare { own.new.spare ≡ own.old.spare }
        ensures written { own.new.held.items ≡ with_row own.old.held.items
            (held_place self.now.setup.sizes own.old.spare 0) (spell (image_in self.now.setup.sizes room.now)) }
    {
        let sizes = &self.setup.sizes;
        let n = sizes.processes;
        let at_state = n + n * sizes.reply;
        let apart = own.apart;
        let calls = apart.calls.join(touched.calls);
        let (first, end) = (calls.from * sizes.reply, calls.to * sizes.reply);
        self.write_words(seat, p, own, 0, &room.applied, calls.from, calls.to);
        self.write_words(seat, p, own, n, &room.reply, first, end);
        self.write_row(
            seat,
            p,
            own,
            at_state,
            &room.state,
            apart.state,
            touched.state,
        );
    }

    /// Applies what was seen to the copy, and writes it to the spare buffer.
    fn fill(&self, seat: &mut Seat<Seen, View<O>>, p: u64, own: &mut Buffers, room: &mut Room)
        requires table { seat.old.table_id ≡ self.now.table.shared.table_id }
        requires inside { p < self.now.setup.sizes.processes }
        requires of { IsOf self.now.setup.object self.now.setup.sizes p seat.old.me }
        requires stage { HasRow (O.meaning self.now.setup.object).object self.now.setup.sizes 0
            (spell (with_seen (O.meaning self.now.setup.object).object (image_in self.now.setup.sizes room.old) 0
            (all_seen room.old))) seat.old.me }
        requires good { IsGood (O.meaning self.now.setup.object) self.now.setup.sizes
            (image_in self.now.setup.sizes room.old) }
        requires own { AreBuffers self.now.setup.sizes (local_of seat.old.me) own.old }
        requires room { HasRoom self.now.setup.sizes room.old }
        requires kept { IsKept self.now.setup.sizes own.old room.old }
        ensures same { (seat.new.table_id ≡ seat.old.table_id) × (seat.new.id ≡ seat.old.id) }
        ensures goes { WritesWithin seat.old.me 0 (buffer_words self.now.setup.sizes) own.new.held.items seat.new.me }
        ensures spare { own.new.spare ≡ own.old.spare }
        ensures long { length own.new.held.items ≡ length own.old.held.items }
        ensures held { (i : ℕ) → i < buffer_words self.now.setup.sizes
            → slice_index own.new.held.items (held_place self.now.setup.sizes own.old.spare i)
            ≡ slice_index (spell (with_seen (O.meaning self.now.setup.object).object
            (image_in self.now.setup.sizes room.old) 0 (all_seen room.old))) i }
        ensures room { HasRoom self.now.setup.sizes room.new }
        ensures seen { room.new.seen ≡ room.old.seen }
        ensures kept { IsKept self.now.setup.sizes own.new room.new }
    {
        let is_from_other = room.of == 1 - own.spare;
        let busy = room.busy;
        let state = self.apply_seen(
            &mut room.applied,
            &mut room.reply,
            &mut room.state,
            &room.seen,
            busy,
        );
        let touched = if is_from_other {
            Changes { calls: busy, state }
        } else {
            Changes::all(self.setup.sizes.processes)
        };
        self.write(seat, p, own, room, touched);
        own.apart = touched;
        room.of = own.spare;
    }

    /// Ends an attempt whose copy was good: applies what was seen to the copy, writes it to the spare
    /// buffer and brings that in. The answer is the word that names it, or `None` where S has changed.
    fn bring(
        &self,
        seat: &mut Seat<Seen, View<O>>,
        p: u64,
        tries: u64,
        s: u64,
        own: &mut Buffers,
        room: &mut Room,
    ) -> Option<u64>
        requires table { seat.old.table_id ≡ self.now.table.shared.table_id }
        requires inside { p < self.now.setup.sizes.processes }
        requires of { IsOf self.now.setup.object self.now.setup.sizes p seat.old.me }
        requires announced { IsAnnounced seat.old.me }
        requires stage { stage_of seat.old.me
            ≡ Writing tries s (image_in self.now.setup.sizes room.old) (all_seen room.old) 0 }
        requires named { IsNamed self.now.setup.sizes s }
        requires good { IsGood (O.meaning self.now.setup.object) self.now.setup.sizes
            (image_in self.now.setup.sizes room.old) }
        requires own { AreBuffers self.now.setup.sizes (local_of seat.old.me) own.old }
        requires room { HasRoom self.now.setup.sizes room.old }
        requires kept { IsKept self.now.setup.sizes own.old room.old }
        ensures same { (seat.new.table_id ≡ seat.old.table_id) × (seat.new.id ≡ seat.old.id) }
        ensures ends { EndsWithin self.now.setup.sizes (buffer_words self.now.setup.sizes + 1) tries
            seat.old.me result own.new seat.new.me }
        ensures own { AreBuffers self.now.setup.sizes (local_of seat.new.me) own.new }
        ensures room { HasRoom self.now.setup.sizes room.new }
        ensures kept { IsKept self.now.setup.sizes own.new room.new }
    {
        self.fill(seat, p, own, room);
        let new = 128 * (s / 128 + 1) + (2 * p + own.spare);
        let found = self.bring_in(seat, p, tries, s, own.spare, new);
        if found != s {
            return None;
        }
        own.spare = 1 - own.spare;
        Some(new)
    }

    /// An attempt at the call of this number: the word that names a buffer in which the call is, or
    /// `None` where the attempt has failed.
    pub(crate) fn attempt(
        &self,
        seat: &mut Seat<Seen, View<O>>,
        p: u64,
        number: u64,
        tries: u64,
        own: &mut Buffers,
        room: &mut Room,
    ) -> Option<u64>
        requires table { seat.old.table_id ≡ self.now.table.shared.table_id }
        requires inside { p < self.now.setup.sizes.processes }
        requires of { IsOf self.now.setup.object self.now.setup.sizes p seat.old.me }
        requires announced { IsAnnounced seat.old.me }
        requires few { tries < 2 }
        requires stage { stage_of seat.old.me ≡ Ready tries }
        requires number { number ≡ length (local_of seat.old.me).own + 1 }
        requires own { AreBuffers self.now.setup.sizes (local_of seat.old.me) own.old }
        requires room { HasRoom self.now.setup.sizes room.old }
        requires kept { IsKept self.now.setup.sizes own.old room.old }
        ensures same { (seat.new.table_id ≡ seat.old.table_id) × (seat.new.id ≡ seat.old.id) }
        ensures ends { EndsWithin self.now.setup.sizes (attempt_steps self.now.setup.sizes) tries
            seat.old.me result own.new seat.new.me }
        ensures own { AreBuffers self.now.setup.sizes (local_of seat.new.me) own.new }
        ensures room { HasRoom self.now.setup.sizes room.new }
        ensures kept { IsKept self.now.setup.sizes own.new room.new }
    {
        let s = self.gather(seat, p, tries, own, room);
        let again = self.check(seat, p, tries, s);
        if again != s {
            return None;
        }
        if room.applied[p as usize] == number {
            return Some(s);
        }
        self.bring(seat, p, tries, s, own, room)
    }

    /// Has seen a call of process p's own.
    fn see_own(&self, seen: &mut [Seen], p: u64, invocation: &[u64])
        requires inside { p < length seen.old }
        requires wide { length invocation.now ≡ self.now.setup.sizes.invocation }
        requires room { All (HasInvocation self.now.setup.sizes) seen.old }
        ensures seen { map seen_in seen.new ≡ slice_set (map seen_in seen.old) p (Some invocation.now) }
        ensures room { All (HasInvocation self.now.setup.sizes) seen.new }
        ensures own { (x : Seen) → (slice_index_or seen.new p x).invocation.items ≡ invocation.now }
    {
        let own = &mut seen[p as usize];
        own.due = true;
        own.invocation.copy_from_slice(invocation);
    }

    /// Ends a direct attempt whose copy was good: applies what was seen to the copy, with this call,
    /// writes it to the spare buffer and brings that in. The answer is the word that names it, or `None` where S
    /// has changed.
    fn bring_own(
        &self,
        seat: &mut Seat<Seen, View<O>>,
        p: u64,
        s: u64,
        own: &mut Buffers,
        room: &mut Room,
        invocation: &[u64],
    ) -> Option<u64>
        requires table { seat.old.table_id ≡ self.now.table.shared.table_id }
        requires inside { p < self.now.setup.sizes.processes }
        requires wide { length invocation.now ≡ self.now.setup.sizes.invocation }
        requires of { IsOf self.now.setup.object self.now.setup.sizes p seat.old.me }
        requires direct { IsDirect seat.old.me }
        requires calls { length (local_of seat.old.me).own + 1 ≤ most_calls }
        requires stage { stage_of seat.old.me
            ≡ Writing 0 s (image_in self.now.setup.sizes room.old) (all_seen room.old) 0 }
        requires named { IsNamed self.now.setup.sizes s }
        requires good { IsGood (O.meaning self.now.setup.object) self.now.setup.sizes
            (image_in self.now.setup.sizes room.old) }
        requires own { AreBuffers self.now.setup.sizes (local_of seat.old.me) own.old }
        requires room { HasRoom self.now.setup.sizes room.old }
        requires kept { IsKept self.now.setup.sizes own.old room.old }
        ensures same { (seat.new.table_id ≡ seat.old.table_id) × (seat.new.id ≡ seat.old.id) }
        ensures ends { TriesWithin self.now.setup.sizes (buffer_words self.now.setup.sizes + 1)
            seat.old.me invocation.now result own.new seat.new.me }
        ensures own { AreBuffers self.now.setup.sizes (local_of seat.new.me) own.new }
        ensures room { HasRoom self.now.setup.sizes room.new }
        ensures kept { IsKept self.now.setup.sizes own.new room.new }
    {
        self.see_own(&mut room.seen, p, invocation);
        room.busy = room.busy.with(p);
        self.fill(seat, p, own, room);
        let new = 128 * (s / 128 + 1) + (2 * p + own.spare);
        let found = self.bring_in_own(seat, p, s, own.spare, new, &room.seen[p as usize]);
        if found != s {
            return None;
        }
        own.spare = 1 - own.spare;
        Some(new)
    }

    /// A direct attempt at this call, which isn't announced: the word that names a buffer in which the call
    /// is, or `None` where the attempt has failed and no call is pending.
    pub(crate) fn attempt_directly(
        &self,
        seat: &mut Seat<Seen, View<O>>,
        p: u64,
        own: &mut Buffers,
        room: &mut Room,
        invocation: &[u64],
    ) -> Option<u64>
        requires table { seat.old.table_id ≡ self.now.table.shared.table_id }
        requires inside { p < self.now.setup.sizes.processes }
        requires wide { length invocation.now ≡ self.now.setup.sizes.invocation }
        requires of { IsOf self.now.setup.object self.now.setup.sizes p seat.old.me }
        requires stage { stage_of seat.old.me ≡ Idle [] }
        requires untried { IsAnnounced seat.old.me }
        requires calls { length (local_of seat.old.me).own + 1 ≤ most_calls }
        requires own { AreBuffers self.now.setup.sizes (local_of seat.old.me) own.old }
        requires room { HasRoom self.now.setup.sizes room.old }
        requires kept { IsKept self.now.setup.sizes own.old room.old }
        ensures same { (seat.new.table_id ≡ seat.old.table_id) × (seat.new.id ≡ seat.old.id) }
        ensures ends { TriesWithin self.now.setup.sizes (attempt_steps self.now.setup.sizes)
            seat.old.me invocation.now result own.new seat.new.me }
        ensures own { AreBuffers self.now.setup.sizes (local_of seat.new.me) own.new }
        ensures room { HasRoom self.now.setup.sizes room.new }
        ensures kept { IsKept self.now.setup.sizes own.new room.new }
    {
        let s = self.begin(seat, p);
        self.survey(seat, p, 0, s, own, room);
        let again = self.check_own(seat, p, s);
        if again != s {
            return None;
        }
        self.bring_own(seat, p, s, own, room, invocation)
    }
}
