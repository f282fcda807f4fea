//! One statement, run and compared.
ghost use Rattle.std.specs.Prelude.{◌≡◌, ◌<◌, ◌++◌, [], Some, None, IfOk, IfSome, length, map};
ghost use Rattle.std.specs.Prelude.{false, slice_index_or};
ghost use Rattle.std.specs.Arc.{arc_value};
ghost use Rattle.std.specs.List.{AllByRecursion};
ghost use Rattle.std.specs.Option.{option_map};
ghost use Rattle.ent_check.specs.Closed.{HasSeat, Leaves, answer_in, closed_findings, closed_offers};
ghost use Rattle.ent_check.specs.Closed.{grounding_in, is_told};
ghost use Rattle.ent_check.specs.Evidence.{outcome_of};
ghost use Rattle.ent_check.specs.declared.evidence.Evidence.TheVariants as evidences;
ghost use Rattle.ent_check.specs.Sorts.{CanRun};
ghost use Rattle.ent_semantics.specs.Form.{closed_worth, form_meaning};
ghost use Rattle.ent_semantics.specs.FormKinds.{tables_named};
ghost use Rattle.ent_closing.specs.Environment.{environment_of};
ghost use Rattle.ent_history.specs.Journal.{unless};
ghost use Rattle.ent_history.specs.Placed.{member_at};
ghost use Rattle.ent_history.specs.Verdict.{first_of};
ghost use Rattle.ent_history.specs.declared.finding.Rule.TheVariants as rules;
ghost use Rattle.ent_history.specs.declared.finding.Thing.TheVariants as things;
ghost use Rattle.ent_ordinary.specs.Tables.{kinds_in, rows_in};

use crate::ground::failing;
use crate::replay_offer::offer_under;
use crate::statement::carry_out;
use crate::{Evidence, Groundings, Seat, StatementOffer, same_answer};
use ent_closing::Environment;
use ent_history::{Finding, Rule, Thing};
use ent_rel::Table;
use ent_semantics::{Answer, Statement};
use ent_value::{Refusal, Value};
use std::alloc::{AllocError, Global};
use std::sync::Arc;

/// What scripts have made so far: the tables as they stand, in the order of their declaration, and what their entangled
/// statements offered and demanded; and what stands behind what is found.
#[derive(Drop)]
pub(crate) struct Stage {
    pub tables: Vec<Arc<Table>>,
    pub offers: Vec<StatementOffer>,
    pub evidence: Option<Evidence>,
}

/// A statement's place: the number of its transaction and its own number in the script, both counted from 1.
#[derive(Clone, Copy)]
pub(crate) struct StatementPlace {
    pub tx: u64,
    pub place: u64,
}

/// Whether an answer is what is told.
fn is_told(answer: &Answer, told: Option<&Answer>) -> bool
    ensures { result ≡ is_told (Some answer.now) (option_map (λ told. told.now) told.entry) }
{
    match told {
        Some(told) => same_answer(answer, told),
        None => false,
    }
}

/// Whether an answer is what is told. Where it isn't, it is noted.
fn is_right(answer: Answer, told: Option<&Answer>, evidence: &mut Option<Evidence>) -> bool
    ensures right { result ≡ is_told (Some answer) (option_map (λ told. told.now) told.entry) }
    ensures noted { result ≡ false → evidence.new ≡ Some (evidences.Answer answer) }
{
    let right = is_told(&answer, told);
    if !right {
        *evidence = Some(Evidence::Answer(answer));
    }
    right
}

/// What is found of an answer: nothing where it is right.
fn unless_right(right: bool, place: StatementPlace) -> Option<Finding>
    ensures { result ≡ first_of (unless right rules.Answer (things.Answer place.tx place.place)) }
{
    if right {
        return None;
    }
    Some(Finding {
        rule: Rule::Answer,
        thing: Thing::Answer {
            tx: place.tx,
            place: place.place,
        },
    })
}

/// Runs a closed statement under a grounding, and compares its answer with what is told. Where that is right, the
/// tables and the environment are as the statement leaves them; else what the statement comes to is noted.
fn answer_finding(
    alloc: Global,
    place: StatementPlace,
    statement: &Statement<Value>,
    grounding: &[Value],
    told: Option<&Answer>,
    tables: &mut Vec<Arc<Table>>,
    environment: &mut Environment,
    evidence: &mut Option<Evidence>,
) -> Result<Option<Finding>, AllocError>
    requires within { AllByRecursion (λ number. number < length tables.old.items) (tables_named statement.now) }
    requires fits { let kinds = kinds_in (map arc_value tables.old.items) in
        CanRun (map (λ number. slice_index_or kinds number []) (tables_named statement.now)) statement.now }
    ensures finding { let meaning = form_meaning closed_worth statement.now grounding.now
        (rows_in (map arc_value tables.old.items)) (environment_of environment.old) in
        IfOk result (λ finding. finding ≡ first_of
        (unless (is_told (answer_in meaning) (option_map (λ told. told.now) told.entry)) rules.Answer
        (things.Answer place.tx place.place))) }
    ensures left { let meaning = form_meaning closed_worth statement.now grounding.now
        (rows_in (map arc_value tables.old.items)) (environment_of environment.old) in
        IfOk result (λ finding. finding ≡ None
        → Leaves meaning (rows_in (map arc_value tables.new.items)) (environment_of environment.new)) }
    ensures kinds { IfOk result (λ finding. finding ≡ None
        → kinds_in (map arc_value tables.new.items) ≡ kinds_in (map arc_value tables.old.items)) }
    ensures evidence { let meaning = form_meaning closed_worth statement.now grounding.now
        (rows_in (map arc_value tables.old.items)) (environment_of environment.old) in
        IfOk result (λ finding. IfSome finding (λ wrong. evidence.new ≡ outcome_of meaning)) }
{
    match carry_out(alloc, statement, grounding, tables, environment) {
        Ok(answer) => Ok(unless_right(is_right(answer, told, evidence), place)),
        Err(Refusal::Fault(failure)) => {
            *evidence = Some(Evidence::Fails(failure));
            Ok(unless_right(false, place))
        }
        Err(Refusal::Memory) => Err(AllocError),
    }
}

/// Runs a closed statement, an entangled one under the grounding of its seat, and finds what is wrong with it first:
/// its grounding or its answer. Where nothing is, the tables and the environment are as it leaves them, and what it
/// offers and demands stands behind the offers; else what stands behind that is noted.
pub(crate) fn operation_finding(
    alloc: Global,
    groundings: &Groundings<'_>,
    place: StatementPlace,
    statement: &Statement<Value>,
    told: Option<&Answer>,
    environment: &mut Environment,
    stage: &mut Stage,
) -> Result<Option<Finding>, AllocError>
    requires within { AllByRecursion (λ number. number < length stage.old.tables.items) (tables_named statement.now) }
    requires fits { let kinds = kinds_in (map arc_value stage.old.tables.items) in
        CanRun (map (λ number. slice_index_or kinds number []) (tables_named statement.now)) statement.now }
    requires seat { HasSeat (member_at groundings.now place.tx place.place) statement.now }
    ensures finding { let seat = member_at groundings.now place.tx place.place in
        IfOk result (λ finding. finding ≡ first_of
        (closed_findings place.tx place.place seat statement.now (option_map (λ told. told.now) told.entry)
        (rows_in (map arc_value stage.old.tables.items)) (environment_of environment.old))) }
    ensures left { let seat = member_at groundings.now place.tx place.place in
        let meaning = form_meaning closed_worth statement.now (grounding_in seat statement.now)
        (rows_in (map arc_value stage.old.tables.items)) (environment_of environment.old) in
        IfOk result (λ finding. finding ≡ None
        → Leaves meaning (rows_in (map arc_value stage.new.tables.items)) (environment_of environment.new)) }
    ensures offers { let seat = member_at groundings.now place.tx place.place in
        IfOk result (λ finding. finding ≡ None → stage.new.offers.items
        ≡ stage.old.offers.items ++ closed_offers place.tx place.place seat statement.now) }
    ensures kinds { IfOk result (λ finding. finding ≡ None
        → kinds_in (map arc_value stage.new.tables.items) ≡ kinds_in (map arc_value stage.old.tables.items)) }
{
    let Statement::Entangled(entangled) = statement else {
        return answer_finding(
            alloc,
            place,
            statement,
            &[],
            told,
            &mut stage.tables,
            environment,
            &mut stage.evidence,
        );
    };
    let Some(seat) = groundings.seat(place.tx, place.place) else {
        // Each has a seat.
        unreachable!()
    };
    let wrong = failing(alloc, entangled, stage.tables.as_slice(), seat.grounding)?;
    if wrong.is_some() {
        stage.evidence = wrong;
        return Ok(Some(ungrounded(&seat)));
    }
    let offer = offer_under(alloc, place.tx, place.place, entangled, seat.grounding)?;
    stage.offers.push(offer)?;
    answer_finding(
        alloc,
        place,
        statement,
        seat.grounding,
        told,
        &mut stage.tables,
        environment,
        &mut stage.evidence,
    )
}

/// That the grounding of a member isn't one.
fn ungrounded(seat: &Seat<'_>) -> Finding
    ensures { result ≡ record { rule = rules.Ground; thing = things.Member seat.now.joint seat.now.number } }
{
    Finding {
        rule: Rule::Ground,
        thing: Thing::Member {
            joint: seat.joint,
            member: seat.number,
        },
    }
}
