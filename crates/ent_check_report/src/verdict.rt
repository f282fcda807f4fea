//! What a check answers.
ghost use Rattle.std.specs.Prelude.{◌≡◌, Some};
ghost use Rattle.ent_check_report.specs.Fault.{rule_word, verdict_text};

use ent_history::Rule;
use std::fmt;

/// What a check of a report answers.
#[derive(Clone, Copy, Debug, PartialEq, Eq)]
pub enum Verdict {
    /// The text tells of a legal book.
    Yes,
    /// The rule that is broken first, and the line that it names, counted from 1.
    No { line: u64, rule: Rule },
}

/// The word for a rule.
fn word_of(rule: Rule) -> &'static str
    ensures { result.now ≡ rule_word rule }
{
    match rule {
        Rule::Form => "form",
        Rule::Journal => "journal",
        Rule::Joint => "joint",
        Rule::Ground => "ground",
        Rule::Answer => "answer",
        Rule::Post => "post",
        Rule::Table => "table",
    }
}

impl fmt::Display for Verdict {
    ghost output = { λ verdict. Some (verdict_text verdict) };

    fn fmt<W: fmt::Write>(&self, f: &mut fmt::Formatter<W>) -> fmt::Result {
        match *self {
            Verdict::Yes => write!(f, "yes"),
            Verdict::No { line, rule } => {
                let word = word_of(rule);
                write!(f, "no {line} {word}")
            }
        }
    }
}
