//! The lines of a script, taken one after the other from a reader.

ghost use Rattle.std.specs.Prelude.{◌≡◌, ◌==◌, ◌+◌, ◌-◌, ◌<◌, ◌≤◌, ◌++◌, [], ◌↔◌};
ghost use Rattle.std.specs.Prelude.{true, false, List, ℕ, Option, IfOk, IfErr, IsErrOf, OnOk, is_some, take};
ghost use Rattle.std.specs.List.{position};
ghost use Rattle.uni_script.specs.Lines.{IsHeld, HasBounds, line_of, rest_of, HasTaken, TakesOn, StopsWith};

use crate::ends::TextIn;
use crate::fault::BenchFault;
use memchr::memchr;

/// How many bytes a line may have.
const MOST_BYTES: usize = 200;

/// How many lines a script may have.
const MOST_LINES: u64 = 100_000;

/// What was found of a further line.
#[derive(Clone, Copy)]
pub enum Taken {
    /// A line was taken.
    Line,
    /// The text has ended.
    End,
}

/// Whether a reader has told the end of its text.
#[derive(Clone, Copy)]
pub enum Source {
    /// It hasn't.
    Open,
    /// It has.
    Ended,
}

/// Where the line that was taken last stands.
#[derive(Clone, Copy)]
pub enum Place {
    /// In the piece, from this byte on.
    Piece(usize),
    /// Apart, since a piece ended within it.
    Apart,
}

/// The line of a script that was taken last, and a piece of the text after it.
#[derive(Drop)]
pub struct Lines {
    /// The bytes of a line that stands apart, which are the first ones.
    pub line: [u8; 200],
    /// Where the line stands.
    pub place: Place,
    /// How many bytes the line has.
    pub width: usize,
    /// The piece that was read last.
    pub piece: [u8; 32768],
    /// Where the bytes of the piece begin that no line has taken.
    pub start: usize,
    /// Where they end.
    pub end: usize,
    /// How many of them come before the first line end, where they have one.
    pub next: Option<usize>,
    /// How many lines were taken.
    pub count: u64,
    /// Whether there may be more to read.
    pub source: Source,
}

impl Lines {
    /// Nothing was read.
    pub fn new() -> Lines
        ensures held { IsHeld result }
        ensures taken { (left : Option (List ℕ)) → HasTaken left left result [] }
    {
        Lines {
            line: [0; 200],
            place: Place::Apart,
            width: 0,
            piece: [0; 32768],
            start: 0,
            end: 0,
            next: None,
            count: 0,
            source: Source::Open,
        }
    }

    /// The line that was taken last, without its end.
    pub fn line(&self) -> &[u8]
        requires { IsHeld self.now }
        ensures { result.now ≡ line_of self.now }
    {
        match self.place {
            Place::Piece(from) => &self.piece[from..from + self.width],
            Place::Apart => &self.line[..self.width],
        }
    }

    /// Whether the piece has the end of a further line, so that the next one is taken without the reader.
    pub fn has_line(&self) -> bool
        requires { IsHeld self.now }
        ensures { result ≡ is_some (position (λ b. b == 10) (rest_of self.now)) }
    {
        self.next.is_some()
    }

    /// Takes the next line, where there is one. The reader is asked only where the piece has no end of the line.
    ///
    /// An `Err` is `TooMany` where 100,000 lines were taken and a byte is left; `TooLong` where the line has more
    /// than 200 bytes; or `Read` where the reader failed.
    pub fn take<I: TextIn>(&mut self, reader: &mut I) -> Result<Taken, BenchFault>
        requires held { IsHeld self.old }
        requires reader { I.has_failed reader.old ≡ false }
        ensures held { IsHeld self.new }
        ensures line { IfOk result (λ taken. TakesOn (I.remaining reader.old)
            (I.remaining reader.new) self.old self.new taken) }
        ensures fault { IfErr result (λ e. StopsWith (I.remaining reader.old) (I.remaining reader.new) self.old e) }
        ensures failed { IsErrOf result BenchFault.Read ↔ (I.has_failed reader.new ≡ true) }
    {
        if self.source == Source::Ended {
            return Ok(Taken::End);
        }
        self.place = Place::Apart;
        self.width = 0;
        loop {
            if self.count >= MOST_LINES && self.start < self.end {
                return Err(BenchFault::TooMany);
            }
            if let Some(at) = self.next {
                self.add_end(at)?;
                self.start += 1;
                self.count += 1;
                self.next = self.end_of_line();
                return Ok(Taken::Line);
            }
            self.copy_part(self.end - self.start)?;
            match reader.read(&mut self.piece) {
                Err(_) => return Err(BenchFault::Read),
                Ok(0) => return Ok(self.take_last()),
                Ok(count) => {
                    self.start = 0;
                    self.end = count;
                    self.next = self.end_of_line();
                }
            }
        }
    }

    /// Takes the last line, which lacks its end, where there is one.
    fn take_last(&mut self) -> Taken
        requires { self.old.count ≤ 100000 }
        ensures ended { self.new ≡ record self.old { source = Source.Ended; count = self.new.count } }
        ensures line { result ≡ Taken.Line → (0 < self.old.width) × (self.new.count ≡ self.old.count + 1) }
        ensures none { result ≡ Taken.End → (self.old.width ≡ 0) × (self.new.count ≡ self.old.count) }
    {
        self.source = Source::Ended;
        if self.width == 0 {
            return Taken::End;
        }
        self.count += 1;
        Taken::Line
    }

    /// Where the first line of the bytes that are left ends.
    fn end_of_line(&self) -> Option<usize>
        requires { HasBounds self.now }
        ensures { result ≡ position (λ b. b == 10) (rest_of self.now) }
    {
        memchr(b'\n', &self.piece[self.start..self.end])
    }

    /// Moves so many bytes of those that are left to the line, as its last ones. They are copied only where it has
    /// others.
    ///
    /// An `Err` says that the line, whose number is one more than those that were taken, would be too long; nothing
    /// is changed then.
    fn add_end(&mut self, count: usize) -> Result<(), BenchFault>
        requires held { HasBounds self.old }
        requires apart { self.old.place ≡ Place.Apart }
        requires inside { count ≤ self.old.end - self.old.start }
        ensures held { HasBounds self.new }
        ensures line { OnOk result (line_of self.new ≡ line_of self.old ++ take count (rest_of self.old)) }
        ensures moved { OnOk result ((self.new.width ≡ self.old.width + count)
            × (self.new.start ≡ self.old.start + count)) }
        ensures kept { (self.new.piece ≡ self.old.piece) × (self.new.end ≡ self.old.end)
            × (self.new.count ≡ self.old.count) × (self.new.source ≡ self.old.source) }
        ensures long { IfErr result (λ e. (e ≡ BenchFault.TooLong (self.old.count + 1))
            × (200 < self.old.width + count) × (self.new ≡ self.old)) }
    {
        if self.width > 0 {
            return self.copy_part(count);
        }
        if count > MOST_BYTES {
            return Err(BenchFault::TooLong(self.count + 1));
        }
        self.place = Place::Piece(self.start);
        self.width = count;
        self.start += count;
        Ok(())
    }

    /// Moves so many bytes of those that are left to the line.
    ///
    /// An `Err` says that the line, whose number is one more than those that were taken, would be too long; nothing
    /// is changed then.
    fn copy_part(&mut self, count: usize) -> Result<(), BenchFault>
        requires held { HasBounds self.old }
        requires apart { self.old.place ≡ Place.Apart }
        requires inside { count ≤ self.old.end - self.old.start }
        ensures held { HasBounds self.new }
        ensures line { OnOk result (line_of self.new ≡ line_of self.old ++ take count (rest_of self.old)) }
        ensures moved { OnOk result ((self.new.width ≡ self.old.width + count)
            × (self.new.start ≡ self.old.start + count)) }
        ensures apart { self.new.place ≡ Place.Apart }
        ensures kept { (self.new.piece ≡ self.old.piece) × (self.new.end ≡ self.old.end)
            × (self.new.next ≡ self.old.next) × (self.new.count ≡ self.old.count)
            × (self.new.source ≡ self.old.source) }
        ensures long { IfErr result (λ e. (e ≡ BenchFault.TooLong (self.old.count + 1))
            × (200 < self.old.width + count) × (self.new ≡ self.old)) }
    {
        if count > MOST_BYTES - self.width {
            return Err(BenchFault::TooLong(self.count + 1));
        }
        let from = self.start;
        let to = self.width;
        let Lines {
            ref mut line,
            ref piece,
            ..
        } = *self;
        line[to..to + count].copy_from_slice(&piece[from..from + count]);
        self.width += count;
        self.start += count;
        Ok(())
    }
}
