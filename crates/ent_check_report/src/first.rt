//! All rules, in their order.
ghost use Rattle.std.specs.Prelude.{◌≡◌, ◌++◌, [], None, IfOk, map};
ghost use Rattle.std.specs.List.{AllByRecursion};
ghost use Rattle.ent_check.specs.Seats.{AreSeatsOf};
ghost use Rattle.ent_check.specs.Alone.{IsResolved};
ghost use Rattle.ent_form.specs.OpeningFault.{opening_fault};
ghost use Rattle.ent_history.specs.Told.{joint_answer_of};
ghost use Rattle.ent_history.specs.Account.{accounts, in_commit_order};
ghost use Rattle.ent_history.specs.Joint.{left_out_findings, members_findings};
ghost use Rattle.ent_history.specs.Journal.{journal_findings};
ghost use Rattle.ent_history.specs.Placed.{placed};
ghost use Rattle.ent_history.specs.Post.{post_findings};
ghost use Rattle.ent_history.specs.Replay.{replay_findings, told_end, told_read_views};
ghost use Rattle.ent_history.specs.Table.{end_findings};
ghost use Rattle.ent_history.specs.Verdict.{first_finding, first_of};
ghost use Rattle.ent_semantics.specs.Book.{all_members};
ghost use Rattle.ent_semantics.specs.Database.{opening_database};

use ent_check::{
    Evidence, Replayed, Seats, joint_finding, journal_finding, post_finding, replay, seats_of,
    tables_finding,
};
use ent_history::{Finding, History};
use std::alloc::{AllocError, Global};

/// What breaks the rules of groundings and answers, of postconditions and of tables first, where nothing breaks those
/// of the journal and of joint answers, and `seats` are those of the joint answers. What stands behind it is noted.
fn run_finding(
    alloc: Global,
    history: &History,
    seats: &Seats,
    evidence: &mut Option<Evidence>,
) -> Result<Option<Finding>, AllocError>
    requires formed { opening_fault history.now.opening ≡ None }
    requires resolved { AllByRecursion (IsResolved history.now.opening.tables) history.now.scripts }
    requires numbered { first_of (journal_findings (accounts history.now)) ≡ None }
    requires joined { let joints = map joint_answer_of history.now.joint_answers in
        first_of (members_findings (accounts history.now) 1 [] joints
        ++ left_out_findings (all_members joints) (accounts history.now)) ≡ None }
    requires seats { AreSeatsOf (placed (map joint_answer_of history.now.joint_answers)) seats.now }
    ensures { let declared = history.now.opening.tables in
        let all = accounts history.now in
        let joints = map joint_answer_of history.now.joint_answers in
        let first = opening_database history.now.opening in
        IfOk result (λ finding. finding ≡ first_of
        (replay_findings declared (placed joints) (in_commit_order all) first
        ++ (post_findings (told_read_views declared (placed joints) (in_commit_order all) first) 1 joints
        ++ end_findings (told_end declared (placed joints) (in_commit_order all) first) history.now.tables))) }
{
    let Replayed {
        finding,
        evidence: behind,
        tables,
        offers,
    } = replay(alloc, history, seats)?;
    *evidence = behind;
    if finding.is_some() {
        return Ok(finding);
    }
    let joints = history.joint_answers.as_slice();
    let post = post_finding(alloc, seats, joints, offers, evidence)?;
    if post.is_some() {
        return Ok(post);
    }
    tables_finding(
        alloc,
        history.opening.tables.as_slice(),
        tables.as_slice(),
        history.tables.as_slice(),
        evidence,
    )
}

/// The finding of [`first_finding`]. What stands behind it is noted, where the rule is that of groundings, of answers,
/// of postconditions or of tables.
pub(crate) fn first_noted(
    alloc: Global,
    history: &History,
    evidence: &mut Option<Evidence>,
) -> Result<Option<Finding>, AllocError>
    requires formed { opening_fault history.now.opening ≡ None }
    requires resolved { AllByRecursion (IsResolved history.now.opening.tables) history.now.scripts }
    ensures { IfOk result (λ finding. finding ≡ first_finding history.now) }
{
    let scripts = history.scripts.as_slice();
    let transactions = history.transactions.as_slice();
    let joints = history.joint_answers.as_slice();
    let journal = journal_finding(alloc, scripts, transactions)?;
    if journal.is_some() {
        return Ok(journal);
    }
    let seats = seats_of(alloc, joints)?;
    let joint = joint_finding(scripts, transactions, joints, &seats);
    if joint.is_some() {
        return Ok(joint);
    }
    run_finding(alloc, history, &seats, evidence)
}

/// What breaks the rules of a report first: of the rules in their order, and of each rule from the top; none where the
/// history keeps them all. Neither the opening nor a script has a fault of form, as the text of a history tells. Each
/// script runs once, alone, and no grounding is searched for.
pub fn first_finding(alloc: Global, history: &History) -> Result<Option<Finding>, AllocError>
    requires formed { opening_fault history.now.opening ≡ None }
    requires resolved { AllByRecursion (IsResolved history.now.opening.tables) history.now.scripts }
    ensures { IfOk result (λ finding. finding ≡ first_finding history.now) }
{
    let mut evidence = None;
    first_noted(alloc, history, &mut evidence)
}
