//! Closing a log.
ghost use Rattle.std.specs.Prelude.{◌≡◌, ◌≤◌, All, flat_map, map, vec_len};
ghost use Rattle.seq_object.specs.History.{IsLegal};
ghost use Rattle.uni_model.specs.History.{logged_call};
ghost use Rattle.uni_words.specs.Belongs.{AreAllSeats, IsSeatOf, object_of, processes_of, row_of, own_calls};
ghost use Rattle.uni_words.specs.Belongs.{calls_of, known_calls, latest_number, seen_by};
ghost use Rattle.uni_words.specs.Belongs.{count_in, row_in, words_in, log_in};
ghost use Rattle.uni_words.specs.Compare.{Agrees};
ghost use Rattle.uni_words.specs.Ran.{IsLogOfExecution};
ghost use Rattle.uni_words.specs.Run.{IsLogOfRun, IsLogOfSeenRun};
ghost use Rattle.uni_words.specs.Log.{AreAnswered, AreCallsOf, LastHasNumber, IsChained, IsInOrder, IsLogged};

use crate::log::WordLog;
use crate::object::WordObject;
use crate::rule::Setup;
use crate::seat::WordSeat;
use crate::words::Words;

impl<O: WordObject> WordLog<O> {
    /// Closes the log, with the seat of one of its processes, which is one of this log's: the words as they are then.
    /// Other seats may be dropped; what they have begun stays as it is. That these are the words is in no clause, but
    /// for what follows.
    ///
    /// The words show one chain, which is legal from the start state, and of which only the last
    /// entry can lack its reply; each entry is a call of one of the processes. The calls of the seat's
    /// process in it are the seat's own calls, in their order, with the replies that it was given.
    ///
    /// The log is that of a run of the construction: of accepted events, from the opening on, with
    /// what holds of every run. In its history the seat's process begins the seat's own calls, one
    /// after another, and each responds with the reply that the seat was given; so does each process
    /// whose seat was taken in, whose calls in the log are its own too.
    ///
    /// All that the seat has seen, itself or by seats that it took in, was so in that run. So each call
    /// that a seat made after it had asked about another one, and was answered yes, stands in the log
    /// after that one. Of a seat that asked and was dropped no clause says so: the rule of the table
    /// keeps what it saw, but closing hands out the view of one seat alone.
    ///
    /// The entry of the seat's latest call has the number that the call was answered.
    ///
    /// Its events are those of an execution: of steps on words that the seats took one after another, from the opening
    /// on (`execution`). So what the laws say of every execution holds of it.
    ///
    /// `known` has all that `own` says, and `execution` all that `seen` does, which has all that `run` says. The
    /// execution is chosen by the clause: that it is the one that was made isn't said, nor that it leads to these
    /// words, which the rule of the table keeps of one.
    pub fn close_with(self, seat: WordSeat) -> Words
        requires seat { IsSeatOf self seat }
        ensures counts { (count_in result ≡ processes_of self) × (row_in result ≡ row_of self) }
        ensures chain { IsChained (count_in result) (row_in result) (words_in result) }
        ensures legal { let object = O.sequential (object_of self) in
            IsLegal object object.initial (map logged_call (log_in result)) }
        ensures answered { AreAnswered (log_in result) }
        ensures inside { AreCallsOf (processes_of self) (log_in result) }
        ensures own { IsLogged (log_in result) (calls_of seat) }
        ensures known { All (IsLogged (log_in result)) (known_calls seat) }
        ensures run { let object = O.sequential (object_of self) in
            IsLogOfRun object (processes_of self) (log_in result) (known_calls seat) }
        ensures seen { let object = O.sequential (object_of self) in
            IsLogOfSeenRun object (processes_of self) (log_in result) (known_calls seat) (seen_by seat) }
        ensures execution { let object = O.sequential (object_of self) in
            IsLogOfExecution object (processes_of self) (row_of self) (log_in result) (known_calls seat)
            (seen_by seat) }
        ensures order { All (IsInOrder (log_in result)) (seen_by seat) }
        ensures number { LastHasNumber (log_in result) (calls_of seat) (latest_number seat) }
    {
        let WordLog { setup, table } = self;
        let Setup { object, n, k } = setup;
        drop(object);
        let WordSeat { seat, .. } = seat;
        Words {
            n,
            k,
            closed: table.close_with(seat),
        }
    }

    /// Closes the log with these seats, of which there is one at least: what `close_with` tells of its seat's own calls
    /// is told of each one's; but not the number of its latest call, nor the calls of seats that it took in earlier. It
    /// costs one load for each seat but one (in no clause).
    ///
    /// What these seats saw was so in the run, and orders their calls in the log. The run is chosen by the clause: that
    /// a call which returned before another seat's call began stands before it is said only where that seat had asked
    /// about it or taken it in, or both are calls of one process.
    ///
    /// With the seats of all processes, in order, the log and what their callers were told agree, so
    /// that `differs` finds nothing.
    pub fn close_all(self, seats: Vec<WordSeat>) -> Words
        requires some { 1 ≤ vec_len seats }
        requires seats { All (IsSeatOf self) seats.items }
        ensures counts { (count_in result ≡ processes_of self) × (row_in result ≡ row_of self) }
        ensures chain { IsChained (count_in result) (row_in result) (words_in result) }
        ensures legal { let object = O.sequential (object_of self) in
            IsLegal object object.initial (map logged_call (log_in result)) }
        ensures answered { AreAnswered (log_in result) }
        ensures inside { AreCallsOf (processes_of self) (log_in result) }
        ensures known { All (λ seat. IsLogged (log_in result) (calls_of seat)) seats.items }
        ensures run { let object = O.sequential (object_of self) in
            IsLogOfRun object (processes_of self) (log_in result) (map calls_of seats.items) }
        ensures seen { let object = O.sequential (object_of self) in
            IsLogOfSeenRun object (processes_of self) (log_in result) (map calls_of seats.items)
            (flat_map seen_by seats.items) }
        ensures execution { let object = O.sequential (object_of self) in
            IsLogOfExecution object (processes_of self) (row_of self) (log_in result) (map calls_of seats.items)
            (flat_map seen_by seats.items) }
        ensures order { All (IsInOrder (log_in result)) (flat_map seen_by seats.items) }
        ensures agrees { let object = O.sequential (object_of self) in
            AreAllSeats self seats.items → Agrees object (log_in result) (map own_calls seats.items) }
    {
        let mut seats = seats;
        let Some(mut first) = seats.pop() else {
            unreachable!()
        };
        for seat in seats {
            first.take_in(&self, seat);
        }
        self.close_with(first)
    }
}
