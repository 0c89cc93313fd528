//! The flaws.

ghost use Rattle.std.specs.Prelude.{◌≡◌};
ghost use Rattle.course_run.specs.Flaws.{flaw_of_word, text_of_flaw};

/// What is wrong with a world. Lines are those of the page of pseudo-code in `docs/course.md`.
#[derive(Clone, Copy, Debug, PartialEq, Eq)]
pub enum Flaw {
    /// Nothing: it answers what the construction does.
    Nothing,
    /// It never helps: line 9 is `prefer = mine`.
    NeverHelps,
    /// It helps without looking at the helped number: line 9 is `prefer = help`.
    HelpsBlindly,
    /// It writes the number before the state is settled: line 13 comes before line 11.
    NumberFirst,
    /// It lets the last proposal win: lines 10 and 11 write what is proposed, in place of deciding it.
    LastWins,
    /// It takes the reply from the newest state: line 15 returns the reply in the cell that the process came to last.
    NewestReply,
    /// It trims with a call pending.
    TrimsPending,
}

impl Flaw {
    /// The flaw that a word names; `None` where it names none.
    pub fn named(word: &str) -> Option<Flaw>
        ensures { result ≡ flaw_of_word word.now }
    {
        match word {
            "nothing" => Some(Flaw::Nothing),
            "never-helps" => Some(Flaw::NeverHelps),
            "helps-blindly" => Some(Flaw::HelpsBlindly),
            "number-first" => Some(Flaw::NumberFirst),
            "last-wins" => Some(Flaw::LastWins),
            "newest-reply" => Some(Flaw::NewestReply),
            "trims-pending" => Some(Flaw::TrimsPending),
            _ => None,
        }
    }

    /// What is said of a world with the flaw.
    pub(crate) fn text(self) -> &'static str
        ensures { result.now ≡ text_of_flaw self }
    {
        match self {
            Flaw::Nothing => "a plain world that has no flaw",
            Flaw::NeverHelps => "it never helps",
            Flaw::HelpsBlindly => "it helps without looking at the helped number",
            Flaw::NumberFirst => "it writes the number before the state is settled",
            Flaw::LastWins => "it lets the last proposal win",
            Flaw::NewestReply => "it takes the reply from the newest state",
            Flaw::TrimsPending => "it trims with a call pending",
        }
    }
}
