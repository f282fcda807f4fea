//! What was expected, and what was found.
use crate::evidence_told::{tell_answer, tell_ground, tell_post, tell_table};
use crate::form_told::tell_form;
use crate::joint_told::{tell_joint, tell_left_out};
use crate::journal_told::tell_journal;
use crate::page::Page;
use ent_check::Evidence;
use ent_history::{Finding, History, Rule, Thing};
use std::alloc::{AllocError, Global};
use std::{fmt, str};

/// What is said of a report that breaks a rule: what was expected where it does, and what was found there. Printed it
/// is lines, each with its end. Where there was no memory for them, this is what is said.
#[derive(Drop)]
pub struct Explanation {
    /// The lines, if there was memory for them.
    text: Option<Vec<u8>>,
}

impl Explanation {
    /// What is said of a text that isn't a report from this line on.
    pub(crate) fn of_form(alloc: Global, text: &[u8], line: u64) -> Self {
        let mut page = Page::new(alloc);
        let done = tell_form(&mut page, text, line);
        Explanation::of_page(page, done)
    }

    /// What is said of what is found of a history.
    pub(crate) fn of_finding(
        alloc: Global,
        history: &History,
        finding: Finding,
        evidence: Option<Evidence>,
    ) -> Self {
        let mut page = Page::new(alloc);
        let done = match evidence {
            Some(evidence) => tell_run(&mut page, history, finding, &evidence),
            None => tell_rule(alloc, &mut page, history, finding),
        };
        Explanation::of_page(page, done)
    }

    /// What was put on a page, if there was memory for all of it.
    fn of_page(page: Page, done: Result<(), AllocError>) -> Self {
        let text = page.into_text();
        match done {
            Ok(()) => Explanation { text: Some(text) },
            Err(AllocError) => Explanation { text: None },
        }
    }
}

/// Tells of a rule for which no script runs. Of another one there was no memory for what stands behind the finding.
fn tell_rule(
    alloc: Global,
    page: &mut Page,
    history: &History,
    finding: Finding,
) -> Result<(), AllocError> {
    match (finding.rule, finding.thing) {
        (Rule::Journal, Thing::Transaction(tx)) => tell_journal(page, history, tx),
        (Rule::Joint, Thing::Joint(joint)) => tell_joint(alloc, page, history, joint),
        (Rule::Joint, Thing::Transaction(tx)) => tell_left_out(alloc, page, history, tx),
        _ => Err(AllocError),
    }
}

/// Tells of a rule for which the scripts run.
fn tell_run(
    page: &mut Page,
    history: &History,
    finding: Finding,
    evidence: &Evidence,
) -> Result<(), AllocError> {
    match (finding.rule, finding.thing) {
        (Rule::Ground, Thing::Member { joint, member }) => {
            tell_ground(page, history, joint, member, evidence)
        }
        (Rule::Answer, Thing::Answer { tx, place }) => {
            tell_answer(page, history, tx, place, evidence)
        }
        (Rule::Post, Thing::Joint(joint)) => tell_post(page, history, joint, evidence),
        (Rule::Table, Thing::Table(table)) => tell_table(page, history, table, evidence),
        _ => Ok(()),
    }
}

impl fmt::Display for Explanation {
    fn fmt<W: fmt::Write>(&self, f: &mut fmt::Formatter<W>) -> fmt::Result {
        match &self.text {
            Some(text) => {
                let lines = str::from_utf8(text.as_slice()).unwrap_or("");
                write!(f, "{lines}")
            }
            None => write!(f, "memory ran out for what was expected\n"),
        }
    }
}
