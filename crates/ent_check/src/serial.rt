//! Transactions, run one after the other.
ghost use Rattle.std.specs.Prelude.{◌≡◌, ◌<◌, ◌++◌, ◌∷◌, [], None, Some, IfOk, length, map, min};
ghost use Rattle.std.specs.Arc.{arc_value};
ghost use Rattle.std.specs.List.{AllByRecursion};
ghost use Rattle.ent_check.specs.Offers.{offer_of};
ghost use Rattle.ent_check.specs.Order.{accounts_at};
ghost use Rattle.ent_check.specs.Seats.{AreSeatsOf};
ghost use Rattle.ent_check.specs.Alone.{AreReplayed, IsResolved, IsSeatedWhole, StandAsDeclared};
ghost use Rattle.ent_form.specs.OpeningFault.{opening_fault};
ghost use Rattle.ent_history.specs.Told.{joint_answer_of};
ghost use Rattle.ent_form.specs.Tables.{database_of};
ghost use Rattle.ent_history.specs.Account.{accounts, accounts_from, in_commit_order};
ghost use Rattle.ent_history.specs.Joint.{left_out_findings, members_findings};
ghost use Rattle.ent_history.specs.Journal.{journal_findings};
ghost use Rattle.ent_history.specs.Placed.{placed};
ghost use Rattle.ent_history.specs.Replay.{replay_findings, told_end, told_read_views};
ghost use Rattle.ent_history.specs.Verdict.{first_of};
ghost use Rattle.ent_ordinary.specs.Tables.{rows_in};
ghost use Rattle.ent_semantics.specs.Book.{all_members};
ghost use Rattle.ent_semantics.specs.Database.{opening_database};

use crate::declared::Declared;
use crate::operation::Stage;
use crate::transaction::transaction_finding;
use crate::{Evidence, Groundings, Seats, StatementOffer, commit_order};
use ent_form::opening_tables_are_kinded;
use ent_history::{Finding, History, Told};
use ent_loading::load_tables;
use ent_rel::Table;
use ent_tree::{Opening, Script};
use std::alloc::{AllocError, Global};
use std::sync::Arc;

/// What is found first of transactions that are run alone, and what stands behind it; and what they leave where nothing
/// is: the tables, in the order of their declaration, and what their entangled statements offer and demand, in order.
#[derive(Drop)]
pub struct Replayed {
    pub finding: Option<Finding>,
    pub evidence: Option<Evidence>,
    pub tables: Vec<Arc<Table>>,
    pub offers: Vec<StatementOffer>,
}

/// The tables of an opening without a fault, and no offer yet.
fn opened(alloc: Global, declared: &Declared<'_>, opening: &Opening) -> Result<Stage, AllocError>
    requires formed { opening_fault opening.now ≡ None }
    requires declared { declared.now ≡ opening.now.tables }
    ensures stand { IfOk result (λ stage. StandAsDeclared declared.now (map arc_value stage.tables.items)) }
    ensures database { IfOk result (λ stage.
        database_of declared.now (rows_in (map arc_value stage.tables.items)) ≡ opening_database opening.now) }
    ensures offers { IfOk result (λ stage. stage.offers.items ≡ []) }
{
    // A law: the tables of an opening have the kinds of their columns, and are its database.
    opening_tables_are_kinded();
    let tables = load_tables(alloc, declared.catalogue(), opening)?;
    Ok(Stage {
        tables,
        offers: Vec::new(alloc),
        evidence: None,
    })
}

/// Runs the transaction of an index, counted from 0.
fn turn_finding(
    alloc: Global,
    declared: &Declared<'_>,
    groundings: &Groundings<'_>,
    scripts: &[Script],
    transactions: &[Told],
    index: usize,
    stage: &mut Stage,
) -> Result<Option<Finding>, AllocError>
    requires within { index < min (length scripts.now) (length transactions.now) }
    requires resolved { AllByRecursion (IsResolved declared.now) scripts.now }
    requires seated { AllByRecursion (IsSeatedWhole groundings.now)
        (accounts_at (accounts_from 1 scripts.now transactions.now) (index ∷ [])) }
    requires declared { StandAsDeclared declared.now (map arc_value stage.old.tables.items) }
    ensures replayed { let before = database_of declared.now (rows_in (map arc_value stage.old.tables.items)) in
        let after = database_of declared.now (rows_in (map arc_value stage.new.tables.items)) in
        let turn = accounts_at (accounts_from 1 scripts.now transactions.now) (index ∷ []) in
        IfOk result (λ finding. AreReplayed declared.now groundings.now turn before finding after
        stage.old.offers.items stage.new.offers.items) }
    ensures declared { IfOk result (λ finding. finding ≡ None
        → StandAsDeclared declared.now (map arc_value stage.new.tables.items)) }
{
    let script = &scripts[index];
    let told = &transactions[index];
    transaction_finding(
        alloc,
        declared,
        groundings,
        index as u64 + 1,
        script,
        told,
        stage,
    )
}

/// Runs the transactions of these indices, counted from 0, alone, one after the other, each from what the one before
/// left, and finds what is wrong first.
fn turns_finding(
    alloc: Global,
    declared: &Declared<'_>,
    groundings: &Groundings<'_>,
    scripts: &[Script],
    transactions: &[Told],
    order: &[usize],
    stage: &mut Stage,
) -> Result<Option<Finding>, AllocError>
    requires within { AllByRecursion (λ index. index < min (length scripts.now) (length transactions.now)) order.now }
    requires resolved { AllByRecursion (IsResolved declared.now) scripts.now }
    requires seated { AllByRecursion (IsSeatedWhole groundings.now)
        (accounts_at (accounts_from 1 scripts.now transactions.now) order.now) }
    requires declared { StandAsDeclared declared.now (map arc_value stage.old.tables.items) }
    ensures replayed { let before = database_of declared.now (rows_in (map arc_value stage.old.tables.items)) in
        let after = database_of declared.now (rows_in (map arc_value stage.new.tables.items)) in
        let turns = accounts_at (accounts_from 1 scripts.now transactions.now) order.now in
        IfOk result (λ finding. AreReplayed declared.now groundings.now turns before finding after
        stage.old.offers.items stage.new.offers.items) }
    ensures declared { IfOk result (λ finding. finding ≡ None
        → StandAsDeclared declared.now (map arc_value stage.new.tables.items)) }
{
    for place in 0..order.len() {
        let finding = turn_finding(
            alloc,
            declared,
            groundings,
            scripts,
            transactions,
            order[place],
            stage,
        )?;
        if finding.is_some() {
            return Ok(finding);
        }
    }
    Ok(None)
}

/// Runs the transactions of a history that have committed alone, in the order of their commits, each entangled
/// statement with the grounding that is told, and finds the first grounding that isn't one or the first answer that
/// isn't the statement's, whichever comes first. Neither the opening nor a script has a fault of form, nothing breaks
/// the rules of the journal and of joint answers, and `seats` are those of the joint answers.
pub fn replay(alloc: Global, history: &History, seats: &Seats) -> Result<Replayed, AllocError>
    requires formed { opening_fault history.now.opening ≡ None }
    requires resolved { AllByRecursion (IsResolved history.now.opening.tables) history.now.scripts }
    requires numbered { first_of (journal_findings (accounts history.now)) ≡ None }
    requires joined { let joints = map joint_answer_of history.now.joint_answers in
        first_of (members_findings (accounts history.now) 1 [] joints
        ++ left_out_findings (all_members joints) (accounts history.now)) ≡ None }
    requires seats { AreSeatsOf (placed (map joint_answer_of history.now.joint_answers)) seats.now }
    ensures finding { let declared = history.now.opening.tables in
        let members = placed (map joint_answer_of history.now.joint_answers) in
        let first = opening_database history.now.opening in
        IfOk result (λ replayed. replayed.finding
        ≡ first_of (replay_findings declared members (in_commit_order (accounts history.now)) first)) }
    ensures tables { let declared = history.now.opening.tables in
        let members = placed (map joint_answer_of history.now.joint_answers) in
        let first = opening_database history.now.opening in
        IfOk result (λ replayed. replayed.finding ≡ None
        → told_end declared members (in_commit_order (accounts history.now)) first
        ≡ Some (database_of declared (rows_in (map arc_value replayed.tables.items)))) }
    ensures offers { let declared = history.now.opening.tables in
        let members = placed (map joint_answer_of history.now.joint_answers) in
        let first = opening_database history.now.opening in
        IfOk result (λ replayed. replayed.finding ≡ None → replayed.offers.items
        ≡ map offer_of (told_read_views declared members (in_commit_order (accounts history.now)) first)) }
    ensures each { IfOk result (λ replayed. replayed.finding ≡ None
        → length replayed.tables.items ≡ length history.now.opening.tables) }
{
    let scripts = history.scripts.as_slice();
    let transactions = history.transactions.as_slice();
    let order = commit_order(alloc, scripts, transactions)?;
    let declared = Declared::of(alloc, &history.opening)?;
    let groundings = Groundings::new(history.joint_answers.as_slice(), seats);
    let mut stage = opened(alloc, &declared, &history.opening)?;
    let finding = turns_finding(
        alloc,
        &declared,
        &groundings,
        scripts,
        transactions,
        order.as_slice(),
        &mut stage,
    )?;
    let Stage {
        tables,
        offers,
        evidence,
    } = stage;
    Ok(Replayed {
        finding,
        evidence,
        tables,
        offers,
    })
}
