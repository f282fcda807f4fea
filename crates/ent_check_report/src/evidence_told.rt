//! What the scripts come to, and what a report tells of that.
use crate::page::{MOST_SHOWN, Page};
use ent_check::Evidence;
use ent_history::{History, Shown, ToldMember};
use ent_semantics::{Answer, Fact, Failure, element};
use ent_value::Row;
use std::alloc::AllocError;

/// The members of the joint answer of a number.
fn members_of(history: &History, joint: u64) -> &[ToldMember] {
    match element(history.joint_answers.as_slice(), joint) {
        Some(told) => told.members.as_slice(),
        None => &[],
    }
}

/// The answer that is told of a statement.
fn answer_in(history: &History, tx: u64, place: u64) -> Option<&Answer> {
    let told = element(history.transactions.as_slice(), tx)?;
    element(told.answers.as_slice(), place)
}

/// Tells what isn't true under the values of a member.
fn tell_condition(page: &mut Page, words: &str, number: u64) -> Result<(), AllocError> {
    page.words(", with which ")?;
    page.words(words)?;
    page.words(" number ")?;
    page.number(number)?;
    page.words(" isn't true\n")
}

/// Tells why the values of a member are no grounding.
pub(crate) fn tell_ground(
    page: &mut Page,
    history: &History,
    joint: u64,
    member: u64,
    evidence: &Evidence,
) -> Result<(), AllocError> {
    let Some(told) = element(members_of(history, joint), member) else {
        return Ok(());
    };
    page.words("expected: values with which each condition of ")?;
    page.place(told.member.tx, told.member.place)?;
    page.words(" is true, over the tables that it sees\nfound: ")?;
    page.member(&told.member, told.variables.as_slice())?;
    match evidence {
        Evidence::Membership(number) => tell_condition(page, "IN (SELECT ..)", *number),
        Evidence::Comparison(number) => tell_condition(page, "comparison", *number),
        Evidence::Values { wanted, told } => {
            page.words(", which is ")?;
            page.number(*told)?;
            page.words(" values for ")?;
            page.number(*wanted)?;
            page.words(" variables\n")
        }
        _ => page.words("\n"),
    }
}

/// Tells that a statement fails.
fn tell_failure(page: &mut Page, tx: u64, place: u64, failure: Failure) -> Result<(), AllocError> {
    page.words("tx ")?;
    page.number(tx)?;
    page.words(" failed ")?;
    page.words(failure.name())?;
    page.words(", since in statement ")?;
    page.number(place)?;
    match failure {
        Failure::Overflow => page.words(" a sum or a difference goes beyond 64 bits\n"),
        Failure::TableFull => page.words(" more than 65,536 rows would stand in a table\n"),
    }
}

/// Tells what a statement comes to, and the answer that is told.
pub(crate) fn tell_answer(
    page: &mut Page,
    history: &History,
    tx: u64,
    place: u64,
    evidence: &Evidence,
) -> Result<(), AllocError> {
    page.words("expected: ")?;
    match evidence {
        Evidence::Answer(answer) => page.answer(place, answer)?,
        Evidence::Fails(failure) => tell_failure(page, tx, place, *failure)?,
        _ => page.words("\n")?,
    }
    page.words("found: ")?;
    match answer_in(history, tx, place) {
        Some(answer) => page.answer(place, answer),
        None => page.words("no answer\n"),
    }
}

/// Puts what a member offers behind so many offers; of many offers some. Answers how many there are then.
fn put_offers(
    page: &mut Page,
    told: &ToldMember,
    facts: &[Fact],
    before: usize,
) -> Result<usize, AllocError> {
    let mut many = before;
    for fact in facts {
        if many < MOST_SHOWN {
            if many > 0 {
                page.words(", ")?;
            }
            page.fact(fact)?;
            page.words(" of ")?;
            page.place(told.member.tx, told.member.place)?;
        }
        many = many.saturating_add(1);
    }
    Ok(many)
}

/// Tells what the members of a joint answer offer: their answers.
fn tell_offers(page: &mut Page, history: &History, joint: u64) -> Result<(), AllocError> {
    let mut many = 0usize;
    for told in members_of(history, joint) {
        if let Some(Answer::Heads(facts)) = answer_in(history, told.member.tx, told.member.place) {
            many = put_offers(page, told, facts.as_slice(), many)?;
        }
    }
    if many > MOST_SHOWN {
        page.words(", and ")?;
        page.number((many - MOST_SHOWN) as u64)?;
        page.words(" more")?;
    }
    page.words("\n")
}

/// Tells of the demand of a member that no member of its joint answer offers.
pub(crate) fn tell_post(
    page: &mut Page,
    history: &History,
    joint: u64,
    evidence: &Evidence,
) -> Result<(), AllocError> {
    let Evidence::Unmet { tx, place, demand } = evidence else {
        return Ok(());
    };
    page.words("expected: in joint ")?;
    page.number(joint)?;
    page.words(" an offer of ")?;
    page.fact(demand)?;
    page.words(", the demand of ")?;
    page.place(*tx, *place)?;
    page.words("\nfound: ")?;
    tell_offers(page, history, joint)
}

/// Puts the rows that aren't among others, a line each behind a word; of many rows some. All ascend.
fn put_lacking(
    page: &mut Page,
    word: &str,
    rows: &[Row],
    others: &[Row],
) -> Result<(), AllocError> {
    let mut many = 0usize;
    for row in rows {
        if others.binary_search(row).is_err() {
            if many < MOST_SHOWN {
                page.words(word)?;
                page.row(row)?;
                page.words("\n")?;
            }
            many = many.saturating_add(1);
        }
    }
    if many > MOST_SHOWN {
        page.words(word)?;
        page.number((many - MOST_SHOWN) as u64)?;
        page.words(" more\n")?;
    }
    Ok(())
}

/// Puts the first line of a table that has so many rows.
fn put_table(page: &mut Page, shown: &Shown, count: usize) -> Result<(), AllocError> {
    page.words("table ")?;
    page.name(&shown.name)?;
    page.words(" ")?;
    page.number(count as u64)?;
    page.words("\n")
}

/// Tells how a table differs from what the scripts leave.
pub(crate) fn tell_table(
    page: &mut Page,
    history: &History,
    table: u64,
    evidence: &Evidence,
) -> Result<(), AllocError> {
    let Some(shown) = element(history.tables.as_slice(), table) else {
        return Ok(());
    };
    let Evidence::Rows(right) = evidence else {
        return Ok(());
    };
    page.words("expected: ")?;
    put_table(page, shown, right.len())?;
    page.words("found: ")?;
    put_table(page, shown, shown.rows.len())?;
    put_lacking(page, "missing: ", right.as_slice(), shown.rows.as_slice())?;
    put_lacking(page, "too many: ", shown.rows.as_slice(), right.as_slice())
}
