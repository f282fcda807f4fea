//! What is due next.
ghost use Rattle.std.specs.Prelude.{◌≡◌, ◌↔◌, ℕ, IsTrue, IfSome, IfNone, reverse};
ghost use Rattle.std.specs.List.{AllByRecursion};
ghost use Rattle.ent_history.specs.Draft.{AnswerRows, Ended, Free, Heading, OpeningRows, TableRows};
ghost use Rattle.ent_history.specs.Draft.{members_due, rows_due};
ghost use Rattle.ent_report_reader.specs.Members.{AreNumbers};
ghost use Rattle.ent_report_reader.specs.View.{HasRoom, IsMemberAt, NoMember, due_of, members_behind};

use ent_value::Sequence;

/// What has to stand next below the lines that stand. `more` says how many rows are due behind the next one.
#[derive(Drop)]
pub(crate) enum Due {
    /// The first line.
    Heading,
    /// Nothing of what stands above: the next thing.
    Free,
    /// A row of the last table of the opening.
    OpeningRows {
        more: u64,
    },
    /// A row of the last answer.
    AnswerRows {
        more: u64,
    },
    /// The line of a member of the last joint answer, by transaction and place, and then those of these, from the last
    /// to the first.
    Members {
        tx: u64,
        place: u64,
        more: Vec<(u64, u64)>,
    },
    /// A row of the last table at the end.
    TableRows {
        more: u64,
    },
    /// Nothing: the last line stands.
    Ended,
}

impl Due {
    pub(crate) fn is_heading(&self) -> bool
        ensures { IsTrue result ↔ (due_of self.now ≡ Heading) }
    {
        matches!(self, Due::Heading)
    }

    pub(crate) fn is_free(&self) -> bool
        ensures { IsTrue result ↔ (due_of self.now ≡ Free) }
    {
        matches!(self, Due::Free)
    }

    pub(crate) fn is_ended(&self) -> bool
        ensures { IsTrue result ↔ (due_of self.now ≡ Ended) }
    {
        matches!(self, Due::Ended)
    }

    /// Where a row of the opening is due, how many behind it.
    pub(crate) fn opening_rows(&self) -> Option<u64>
        ensures some { IfSome result (λ more. due_of self.now ≡ OpeningRows more) }
        ensures none { IfNone result ((more : ℕ) → due_of self.now ≡ OpeningRows more → ⊥) }
    {
        match self {
            Due::OpeningRows { more } => Some(*more),
            _ => None,
        }
    }

    /// Where a row of an answer is due, how many behind it.
    pub(crate) fn answer_rows(&self) -> Option<u64>
        ensures some { IfSome result (λ more. due_of self.now ≡ AnswerRows more) }
        ensures none { IfNone result ((more : ℕ) → due_of self.now ≡ AnswerRows more → ⊥) }
    {
        match self {
            Due::AnswerRows { more } => Some(*more),
            _ => None,
        }
    }

    /// Where a row of a table at the end is due, how many behind it.
    pub(crate) fn table_rows(&self) -> Option<u64>
        ensures some { IfSome result (λ more. due_of self.now ≡ TableRows more) }
        ensures none { IfNone result ((more : ℕ) → due_of self.now ≡ TableRows more → ⊥) }
    {
        match self {
            Due::TableRows { more } => Some(*more),
            _ => None,
        }
    }

    /// The members at these places, from the last to the first.
    fn of_members_behind(mut more: Vec<(u64, u64)>) -> Due
        requires { AllByRecursion AreNumbers (reverse more.items) }
        ensures room { (rows : ℕ) → HasRoom (due_of result) rows }
        ensures due { due_of result ≡ members_due (reverse more.items) }
    {
        match more.pop() {
            Some((tx, place)) => Due::Members { tx, place, more },
            None => Due::Free,
        }
    }

    /// The members at these places.
    pub(crate) fn of_members(places: Sequence<(u64, u64)>) -> Due
        requires { AllByRecursion AreNumbers places }
        ensures room { (rows : ℕ) → HasRoom (due_of result) rows }
        ensures due { due_of result ≡ members_due places }
    {
        let mut more = places.into_vec();
        more.reverse();
        Due::of_members_behind(more)
    }

    /// The member whose line is due: its transaction and its place.
    pub(crate) fn member(&self) -> Option<(u64, u64)>
        ensures some { IfSome result (λ place. IsMemberAt (due_of self.now) place) }
        ensures none { IfNone result (NoMember (due_of self.now)) }
    {
        match self {
            Due::Members { tx, place, more: _ } => Some((*tx, *place)),
            _ => None,
        }
    }

    /// What is due behind the line of a member.
    pub(crate) fn behind_member(self) -> Due
        requires { AllByRecursion AreNumbers (members_behind (due_of self)) }
        ensures room { (rows : ℕ) → HasRoom (due_of result) rows }
        ensures due { due_of result ≡ members_due (members_behind (due_of self)) }
    {
        match self {
            Due::Members {
                tx: _,
                place: _,
                more,
            } => Due::of_members_behind(more),
            _ => Due::Free,
        }
    }

    /// So many rows of the opening.
    pub(crate) fn of_opening_rows(count: u64) -> Due
        ensures { due_of result ≡ rows_due OpeningRows count }
    {
        if count == 0 {
            Due::Free
        } else {
            Due::OpeningRows { more: count - 1 }
        }
    }

    /// So many rows of an answer.
    pub(crate) fn of_answer_rows(count: u64) -> Due
        ensures room { (rows : ℕ) → HasRoom (due_of result) rows }
        ensures due { due_of result ≡ rows_due AnswerRows count }
    {
        if count == 0 {
            Due::Free
        } else {
            Due::AnswerRows { more: count - 1 }
        }
    }

    /// So many rows of a table at the end.
    pub(crate) fn of_table_rows(count: u64) -> Due
        ensures room { (rows : ℕ) → HasRoom (due_of result) rows }
        ensures due { due_of result ≡ rows_due TableRows count }
    {
        if count == 0 {
            Due::Free
        } else {
            Due::TableRows { more: count - 1 }
        }
    }
}
