//! The rule of joint answers.
ghost use Rattle.std.specs.Prelude.{◌≡◌, ◌++◌, ◌&&◌, ◌||◌, not, [], List, is_some, map};
ghost use Rattle.std.specs.BTreeMap.{get};
ghost use Rattle.std.specs.List.{list_all, list_any};
ghost use Rattle.ent_check.specs.Above.{is_above};
ghost use Rattle.ent_check.specs.Seats.{AreSeatsOf, place_cmp};
ghost use Rattle.ent_history.specs.Told.{joint_answer_of};
ghost use Rattle.ent_history.specs.Account.{accounts_from};
ghost use Rattle.ent_history.specs.Joint.{all_stand, is_statement_of, left_out, left_out_findings, members_findings};
ghost use Rattle.ent_history.specs.Placed.{Placed, placed};
ghost use Rattle.ent_history.specs.Verdict.{first_of};
ghost use Rattle.ent_semantics.specs.Book.{all_members};
ghost use Rattle.ent_semantics.specs.Serial.{is_entangled};

use crate::journal::commit_number;
use crate::member::{is_entangled, is_entangled_statement};
use crate::seat::Seats;
use crate::seating::seat_at;
use ent_history::{Finding, Rule, Thing, Told, ToldJoint, ToldMember};
use ent_semantics::Member;
use ent_tree::{Script, Statement};

/// Whether the statement of a member is one of a joint answer further up than the one of this number.
fn stands_above(seats: &Seats, joint: u64, member: &Member) -> bool
    ensures { result ≡ is_above joint (get place_cmp seats.now (member.now.tx, member.now.place)) }
{
    match seat_at(seats, member.tx, member.place) {
        Some((first, _number)) => first < joint,
        None => false,
    }
}

/// Whether a member of the joint answer of this number is an entangled statement of what has committed, and of no joint
/// answer further up.
fn is_right(
    scripts: &[Script],
    transactions: &[Told],
    seats: &Seats,
    joint: u64,
    member: &Member,
) -> bool
    ensures { result ≡ (list_any (is_statement_of member.now) (accounts_from 1 scripts.now transactions.now)
        && not (is_above joint (get place_cmp seats.now (member.now.tx, member.now.place)))) }
{
    is_entangled_statement(scripts, transactions, member) && !stands_above(seats, joint, member)
}

/// Whether each member of the joint answer of this number is right.
fn are_right(
    scripts: &[Script],
    transactions: &[Told],
    seats: &Seats,
    joint: u64,
    members: &[ToldMember],
) -> bool
    ensures { result ≡ list_all
        (λ told. list_any (is_statement_of told.member) (accounts_from 1 scripts.now transactions.now)
        && not (is_above joint (get place_cmp seats.now (told.member.tx, told.member.place)))) members.now }
{
    members.iter().all(|told| is_right(scripts, transactions, seats, joint, &told.member))
}

/// The first joint answer that has a member that isn't right.
fn members_finding(
    scripts: &[Script],
    transactions: &[Told],
    joints: &[ToldJoint],
    seats: &Seats,
) -> Option<Finding>
    requires { AreSeatsOf (placed (map joint_answer_of joints.now)) seats.now }
    ensures { result ≡ first_of (members_findings (accounts_from 1 scripts.now transactions.now) 1 []
        (map joint_answer_of joints.now)) }
{
    for (index, joint) in joints.iter().enumerate() {
        let number = index as u64 + 1;
        let members = joint.members.as_slice();
        let right = are_right(scripts, transactions, seats, number, members);
        if !right {
            return Some(Finding {
                rule: Rule::Joint,
                thing: Thing::Joint(number),
            });
        }
    }
    None
}

/// Whether a statement of this place isn't entangled, or is a member of a joint answer.
fn stands(seats: &Seats, tx: u64, place: u64, statement: &Statement) -> bool
    ensures { result ≡ (not (is_entangled statement.now) || is_some (get place_cmp seats.now (tx, place))) }
{
    !is_entangled(statement) || seat_at(seats, tx, place).is_some()
}

/// Whether each entangled statement of a transaction is a member of a joint answer.
fn all_stand(seats: &Seats, tx: u64, statements: &[Statement]) -> bool
    ensures { (members : List Placed) → AreSeatsOf members seats.now
        → result ≡ all_stand (map (λ one. one.member) members) tx 1 statements.now }
{
    for (index, statement) in statements.iter().enumerate() {
        let standing = stands(seats, tx, index as u64 + 1, statement);
        if !standing {
            return false;
        }
    }
    true
}

/// What is found of a transaction of this number: it has committed, and left an entangled statement out.
fn left_out(seats: &Seats, tx: u64, script: &Script, told: &Told) -> Option<Finding>
    ensures { (members : List Placed) → AreSeatsOf members seats.now
        → result ≡ first_of (left_out (map (λ one. one.member) members)
        (record { tx = tx; script = script.now; fate = told.now.fate; answers = told.now.answers })) }
{
    let committed = commit_number(told).is_some();
    if !committed {
        return None;
    }
    let complete = all_stand(seats, tx, script.statements.as_slice());
    if complete {
        return None;
    }
    Some(Finding {
        rule: Rule::Joint,
        thing: Thing::Transaction(tx),
    })
}

/// The first committed transaction that has an entangled statement which stands in no joint answer.
fn left_out_finding(seats: &Seats, scripts: &[Script], transactions: &[Told]) -> Option<Finding>
    ensures { (members : List Placed) → AreSeatsOf members seats.now
        → result ≡ first_of (left_out_findings (map (λ one. one.member) members)
        (accounts_from 1 scripts.now transactions.now)) }
{
    let all = scripts.len().min(transactions.len());
    for index in 0..all {
        let finding = left_out(
            seats,
            index as u64 + 1,
            &scripts[index],
            &transactions[index],
        );
        if finding.is_some() {
            return finding;
        }
    }
    None
}

/// What breaks the rule of joint answers first, where `seats` are those of `joints`: a joint answer, or else a
/// transaction. It takes a look into `seats` for each member and each entangled statement.
pub fn joint_finding(
    scripts: &[Script],
    transactions: &[Told],
    joints: &[ToldJoint],
    seats: &Seats,
) -> Option<Finding>
    requires { AreSeatsOf (placed (map joint_answer_of joints.now)) seats.now }
    ensures { let all = accounts_from 1 scripts.now transactions.now in
        let joint_answers = map joint_answer_of joints.now in
        result ≡ first_of (members_findings all 1 [] joint_answers
        ++ left_out_findings (all_members joint_answers) all) }
{
    let finding = members_finding(scripts, transactions, joints, seats);
    if finding.is_some() {
        return finding;
    }
    left_out_finding(seats, scripts, transactions)
}
