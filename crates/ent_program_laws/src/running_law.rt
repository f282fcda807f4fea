//! Laws of texts and of what the members of a run do. Nothing here does anything; what holds is in the contracts.
ghost use Rattle.std.specs.Prelude.{◌≡◌, ℕ, None, Some, Contains, map};
ghost use Rattle.ent_tree.specs.declared.script.Script.{Script};
ghost use Rattle.ent_semantics.specs.declared.book.JointAnswer.{JointAnswer};
ghost use Rattle.ent_semantics.specs.declared.book.Member.{Member as JointMember};
ghost use Rattle.ent_semantics.specs.Serial.{numbered};
ghost use Rattle.ent_form.specs.OpeningFault.{opening_fault};
ghost use Rattle.ent_meetings.specs.PartyMeeting.{IsClosed};
ghost use Rattle.ent_meetings.specs.Party.{party_of};
ghost use Rattle.ent_meetings.specs.declared.pattern.Pattern.{Pattern};
ghost use Rattle.ent_protocol.specs.Reached.{IsReached, scripts_of};
ghost use Rattle.ent_protocol.specs.State.{State, Member};
ghost use Rattle.ent_headline.specs.Resolved.{resolved_forms};
ghost use Rattle.ent_program_laws.specs.MeetingAnswered.{IsMetAmong};
ghost use Rattle.ent_program_laws.specs.Known.{demands_at};
ghost use Rattle.ent_program_laws.specs.Running.{HasPassed, HaveAllPassed, IsMetInGroup, group_scripts};

use ent_headline::{
    resolved_answers_are_good, resolved_answers_are_good_in_groups,
    resolved_entangled_statements_are_answered_once,
};

/// In every state that is reached each demand of a statement in a joint answer, made and not rolled back, may be met,
/// by the text, by a statement of the same joint answer.
pub fn joint_demands_may_be_met()
    ensures { (s : State) (joint : JointAnswer) (member : JointMember) (script : Script) (demand : Pattern)
        → opening_fault s.opening ≡ None
        → IsReached resolved_forms s
        → Contains s.joints joint
        → Contains joint.members member
        → numbered (scripts_of s) member.tx ≡ Some script
        → Contains (demands_at script member.place) demand
        → IsMetAmong (scripts_of s) joint.members demand }
{
    resolved_answers_are_good();
}

/// In every state that is reached each demand of a statement that a member of the run has passed may be met, by the
/// text, by the script of a member of its group. So it is in a run that is rolled back later.
pub fn passed_demands_may_be_met()
    ensures { (s : State) (member : Member) (script : Script) (place : ℕ) (demand : Pattern)
        → opening_fault s.opening ≡ None
        → IsReached resolved_forms s
        → HasPassed s member place
        → numbered (scripts_of s) member.tx ≡ Some script
        → Contains (demands_at script place) demand
        → IsMetInGroup s member.group demand }
{
    resolved_answers_are_good();
    resolved_answers_are_good_in_groups();
    resolved_entangled_statements_are_answered_once();
}

/// In every state that is reached the scripts of a group are closed, where each member has passed all statements of its
/// script.
pub fn whole_groups_are_closed()
    ensures { (s : State) (group : ℕ)
        → opening_fault s.opening ≡ None
        → IsReached resolved_forms s
        → HaveAllPassed s group
        → IsClosed (map party_of (group_scripts s group)) }
{
    resolved_answers_are_good();
    resolved_answers_are_good_in_groups();
    resolved_entangled_statements_are_answered_once();
}
