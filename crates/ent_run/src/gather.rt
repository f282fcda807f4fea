//! Members that are to leave the run, gathered by number.
ghost use Rattle.std.specs.Prelude.{◌≡◌, ◌+◌, ◌≤◌, length, map};
ghost use Rattle.ent_lock.specs.Use.{Uses};
ghost use Rattle.ent_members.specs.InRun.{in_run};
ghost use Rattle.ent_members.specs.Order.{IsAscending, tx_of};
ghost use Rattle.ent_members.specs.RunAttempts.{gathered, is_within, run_attempt_of, run_attempts_in};

use crate::member_list::MemberList;
use crate::moves::is_labelled;
use ent_group::{Groups, MOST_MEMBERS, Tx};
use ent_members::{Progress, RunAttempt, RunAttempts};

/// Whether a member is of the group with a label, where one is named.
fn is_within(member: &Progress, groups: &Groups, group: Option<Tx>) -> bool
    ensures { (locks : Uses) → result ≡ is_within group (in_run locks groups.now member.now) }
{
    match group {
        Some(label) => is_labelled(groups, label, member),
        None => true,
    }
}

fn run_attempt_of(member: &Progress) -> RunAttempt
    ensures { result ≡ run_attempt_of member.now }
{
    RunAttempt {
        tx: member.tx(),
        attempt: member.attempt(),
    }
}

/// The members of the group with a label, where one is named, else all, of a list by number.
pub(crate) fn gather_by_number(
    members: &MemberList,
    groups: &Groups,
    group: Option<Tx>,
) -> RunAttempts
    requires ascending { IsAscending (map tx_of members.now) }
    requires bound { length members.now ≤ MOST_MEMBERS }
    ensures list { (locks : Uses) → result ≡ run_attempts_in group (map (in_run locks groups.now) members.now) }
    ensures room { length result ≤ length members.now }
{
    let mut run_attempts = RunAttempts::new();
    for place in 0..members.len() {
        let member = members.at(place);
        if is_within(member, groups, group) {
            run_attempts.push(run_attempt_of(member));
        }
    }
    run_attempts
}

/// Puts in the members of the group with a label, where one is named, else all of a list.
pub(crate) fn gather(
    members: &MemberList,
    groups: &Groups,
    group: Option<Tx>,
    run_attempts: &mut RunAttempts,
)
    requires { length members.now + length run_attempts.old ≤ MOST_MEMBERS }
    ensures list { (locks : Uses) → run_attempts.new
        ≡ gathered group (map (in_run locks groups.now) members.now) run_attempts.old }
    ensures room { length run_attempts.new ≤ length members.now + length run_attempts.old }
{
    let Some((first, rest)) = members.split_first() else {
        return;
    };
    gather(&rest, groups, group, run_attempts);
    if is_within(first, groups, group) {
        run_attempts.insert(run_attempt_of(first));
    }
}
