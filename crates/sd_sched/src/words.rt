//! The words of the schedule, and the fields that each has.
ghost use Rattle.std.specs.Prelude.{◌≡◌, ◌≤◌, length, IfSome, IfNone, false};
ghost use Rattle.sd_sched.specs.Spelled.{is_word};
ghost use Rattle.sd_sched.specs.Reading.{row_of};

/// The words that a line may begin with.
#[derive(Clone, Copy)]
pub enum Word {
    Start,
    Tick,
    Recv,
    Lose,
    Fail,
    Fix,
    Ask,
    Stage,
    Give,
    Commit,
    Seal,
    Join,
    Mend,
    End,
}

/// What a field after a word is.
#[derive(Clone, Copy)]
pub enum Field {
    /// A time or a counter, an uncertainty or the number of a message: at most 2^60.
    Amount,
    /// The number of a device or a link: at most 2^32 - 1.
    Which,
    /// Which of the two follows: `device`, which counts as 0, or `link`, which counts as 1.
    Kind,
}

/// How many fields may stand after a word.
pub const MOST_FIELDS: usize = 5;

impl Word {
    /// The word that a field spells.
    #[tactic(auto, unfolding(crate::specs::Spelled::is_word))]
    pub fn of(field: &[u8]) -> Option<Word>
        ensures known { IfSome result (λ word. field.now ≡ (row_of word).spelled) }
        ensures unknown { IfNone result (is_word field.now ≡ false) }
    {
        match field {
            b"start" => Some(Word::Start),
            b"tick" => Some(Word::Tick),
            b"recv" => Some(Word::Recv),
            b"lose" => Some(Word::Lose),
            b"fail" => Some(Word::Fail),
            b"fix" => Some(Word::Fix),
            b"ask" => Some(Word::Ask),
            b"stage" => Some(Word::Stage),
            b"give" => Some(Word::Give),
            b"commit" => Some(Word::Commit),
            b"seal" => Some(Word::Seal),
            b"join" => Some(Word::Join),
            b"mend" => Some(Word::Mend),
            b"end" => Some(Word::End),
            _ => None,
        }
    }

    /// The fields after the word.
    pub fn shape(self) -> &'static [Field]
        ensures shape { result.now ≡ (row_of self).shape }
        ensures few { length result.now ≤ MOST_FIELDS }
    {
        use Field::{Amount, Kind, Which};
        match self {
            Word::Start | Word::Fix | Word::Join => &[Amount, Which, Amount, Amount, Amount],
            Word::Recv => &[Amount, Which, Amount, Amount],
            Word::Tick | Word::Ask | Word::Commit => &[Amount, Which, Amount],
            Word::Fail | Word::Mend => &[Amount, Kind, Which],
            Word::Give | Word::Seal => &[Amount, Which],
            Word::Lose => &[Amount, Amount],
            Word::Stage | Word::End => &[Amount],
        }
    }
}
