//! The lines of members of joint answers.
ghost use Rattle.std.specs.Prelude.{◌≡◌, ◌↔◌, IfOk, IsTrue, None, Some};
ghost use Rattle.std.specs.List.{AllByRecursion};
ghost use Rattle.std.specs.Option.{option_copied};
ghost use Rattle.ent_value.specs.Name.{IsWord};
ghost use Rattle.ent_value.specs.Value.{kinds_of};
ghost use Rattle.ent_semantics.specs.Entangled.{written_variables};
ghost use Rattle.ent_book.specs.Report.{line};
ghost use Rattle.ent_history.specs.Draft.{on_last};
ghost use Rattle.ent_history.specs.Joints.{MemberStands, binds_of, member_binds, member_told, with_member};
ghost use Rattle.ent_report_reader.specs.Judging.{Finds, Judges, Unless};
ghost use Rattle.ent_report_reader.specs.Members.{AreNumbers, BindsWords, IsMemberLine, MemberHasWords};
ghost use Rattle.ent_report_reader.specs.Members.{entangled_of, form_of};

use crate::bindings::{any_member, parted};
use crate::draft::Draft;
use crate::due::Due;
use crate::kinds::are_of_kinds;
use crate::lists::take_last;
use crate::reading::{any_member_line, known_member_line};
use ent_book::written_variables;
use ent_form::resolve;
use ent_history::{ToldJoint, ToldMember};
use ent_semantics::{
    Entangled as ResolvedEntangled, Known, Member, Statement as Resolved, element,
};
use ent_text::LineFault;
use ent_tree::{Entangled, Statement};
use ent_value::{Kind, Name, Refusal, Sequence, Value};
use std::alloc::{AllocError, Global};
use std::mem::replace;

/// Each name is one word.
fn are_words(names: &[Name])
    ensures { AllByRecursion IsWord names.now }
{
    for name in names {
        name.as_bytes();
    }
}

/// Whether these are a transaction and a place.
fn is_at(place: (u64, u64), tx: u64, own: u64) -> bool
    ensures { IsTrue result ↔ ((tx ≡ place.0) × (own ≡ place.1)) }
{
    tx == place.0 && own == place.1
}

fn told_member(place: (u64, u64), variables: Sequence<Name>, values: Sequence<Value>) -> ToldMember
    ensures { result ≡ member_told place.0 place.1 variables values }
{
    ToldMember {
        member: Member {
            tx: place.0,
            place: place.1,
            grounding: values,
        },
        variables,
    }
}

/// The line of a member at this place that isn't an entangled statement: any variables may stand there.
fn unbound_member(
    alloc: Global,
    place: (u64, u64),
    text: &[u8],
) -> Result<ToldMember, Refusal<LineFault>>
    requires { AreNumbers place }
    ensures { Finds (IsMemberLine None place.0 place.1 text.now) result }
{
    let (tx, own, all) = any_member_line(alloc, text)?;
    if !is_at(place, tx, own) {
        drop(all);
        return Err(Refusal::Fault(LineFault::Misfit));
    }
    let (variables, values) = parted(alloc, all)?;
    Ok(told_member(place, variables, values))
}

/// The line of a member at this place, which binds just these variables, with values of these kinds.
fn bound_member(
    alloc: Global,
    place: (u64, u64),
    variables: Vec<Name>,
    kinds: &[Kind],
    text: &[u8],
) -> Result<ToldMember, Refusal<LineFault>>
    requires { AreNumbers place }
    ensures { Finds (IsMemberLine (Some (variables.items, kinds.now)) place.0 place.1 text.now) result }
{
    let (tx, own, values) = known_member_line(alloc, &variables, text)?;
    if !is_at(place, tx, own) {
        drop(values);
        return Err(Refusal::Fault(LineFault::Misfit));
    }
    if !are_of_kinds(values.as_slice(), kinds) {
        drop(values);
        return Err(Refusal::Fault(LineFault::Misfit));
    }
    Ok(told_member(place, Sequence::from_vec(variables), values))
}

/// The line of a member at this place, which is an entangled statement whose variables are of these kinds.
fn entangled_member(
    alloc: Global,
    place: (u64, u64),
    entangled: &Entangled,
    kinds: &[Kind],
    text: &[u8],
) -> Result<ToldMember, Refusal<LineFault>>
    requires { AreNumbers place }
    ensures found { Finds (IsMemberLine (Some (written_variables entangled.now, kinds.now)) place.0 place.1 text.now)
        result }
    ensures words { Unless (AllByRecursion IsWord (written_variables entangled.now)) result }
{
    let variables = written_variables(alloc, entangled)?;
    are_words(&variables);
    bound_member(alloc, place, variables, kinds, text)
}

fn entangled_of(statement: Option<&Statement>) -> Option<&Entangled>
    ensures { option_copied result ≡ entangled_of (option_copied statement.entry) }
{
    match statement {
        Some(Statement::Entangled(entangled)) => Some(entangled),
        _ => None,
    }
}

fn form_of(statement: Option<&Resolved<Known>>) -> Option<&ResolvedEntangled<Known>>
    ensures { option_copied result ≡ form_of (option_copied statement.entry) }
{
    match statement {
        Some(Resolved::Entangled(form)) => Some(form),
        _ => None,
    }
}

/// The line of a member at this place, which is this statement of this form, where it is an entangled one.
fn statement_member(
    alloc: Global,
    place: (u64, u64),
    statement: Option<&Statement>,
    form: Option<&Resolved<Known>>,
    text: &[u8],
) -> Result<ToldMember, Refusal<LineFault>>
    requires { AreNumbers place }
    ensures found { Finds (IsMemberLine (binds_of (option_copied statement.entry) (option_copied form.entry))
        place.0 place.1 text.now) result }
    ensures words { Unless (BindsWords (binds_of (option_copied statement.entry) (option_copied form.entry))) result }
{
    let Some(entangled) = entangled_of(statement) else {
        return unbound_member(alloc, place, text);
    };
    let Some(form) = form_of(form) else {
        return unbound_member(alloc, place, text);
    };
    entangled_member(alloc, place, entangled, form.variables.as_slice(), text)
}

/// Puts a member behind those of the last joint answer.
fn put_member(
    alloc: Global,
    joint_answers: &mut Sequence<ToldJoint>,
    member: ToldMember,
) -> Result<(), AllocError>
    ensures { IfOk result (λ _. joint_answers.new ≡ on_last (with_member member) joint_answers.old) }
{
    if let Some(mut joint) = take_last(alloc, joint_answers) {
        joint.members.push(member)?;
        joint_answers.push(joint)?;
    }
    Ok(())
}

impl Draft {
    /// The line of the member at this place.
    fn member_at(
        &self,
        alloc: Global,
        place: (u64, u64),
        text: &[u8],
    ) -> Result<ToldMember, Refusal<LineFault>>
        requires { AreNumbers place }
        ensures found { Finds (IsMemberLine (member_binds self.now.told place.0 place.1) place.0 place.1 text.now)
            result }
        ensures words { Unless (BindsWords (member_binds self.now.told place.0 place.1)) result }
    {
        let Some(script) = element(self.scripts.as_slice(), place.0) else {
            return unbound_member(alloc, place, text);
        };
        match resolve(alloc, self.opening.catalogue(), script) {
            Ok(plain) => statement_member(
                alloc,
                place,
                element(script.statements.as_slice(), place.1),
                element(plain.statements.as_slice(), place.1),
                text,
            ),
            Err(Refusal::Memory) => Err(Refusal::Memory),
            Err(Refusal::Fault(_)) => unbound_member(alloc, place, text),
        }
    }

    /// The line of a member of the last joint answer: its place, and the values of its written variables.
    pub fn member(&mut self, alloc: Global, text: &[u8]) -> Result<(), Refusal<LineFault>>
        ensures judged { Judges (MemberStands self.old (line text.now)) self.old result self.new }
        ensures words { Unless (MemberHasWords self.old) result }
    {
        let Some(place) = self.due.member() else {
            return Err(Refusal::Fault(LineFault::Misfit));
        };
        let told = self.member_at(alloc, place, text)?;
        put_member(alloc, &mut self.joint_answers, told)?;
        self.due = replace(&mut self.due, Due::Free).behind_member();
        Ok(())
    }
}
