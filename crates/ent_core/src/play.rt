//! An input is submitted whole, and played: events are made after it.
ghost use Rattle.std.specs.Prelude.{◌≡◌, IfErr, IfOk, None, OnErr, OnOk, Some, map};
ghost use Rattle.ent_core.specs.Event.{event_seen};
ghost use Rattle.ent_core.specs.Play.{AreMade, AreSubmitted, fault_in};
ghost use Rattle.ent_core.specs.Reply.{reply_seen};
ghost use Rattle.ent_form.specs.InputFault.{input_fault, scripts_fault};
ghost use Rattle.ent_form.specs.declared.fault.FormFault.{FormFault};
ghost use Rattle.ent_protocol.specs.Play.{IsPlayed};
ghost use Rattle.ent_protocol.specs.Reached.{book_of, opened};
ghost use Rattle.ent_headline.specs.Resolved.{resolved_forms};
ghost use Rattle.ent_semantics.specs.Book.{IsLegal};
ghost use Rattle.ent_value.specs.declared.refusal.Refusal.TheVariants.{Fault};

use crate::event::Event;
use crate::reached::Core;
use crate::reply::Reply;
use ent_form::FormFault;
use ent_headline::resolved_runs_are_legal;
use ent_tree::{Input, MOST_SCRIPTS, Script};
use ent_value::{Limited, Refusal, Sequence};
use std::alloc::{AllocError, Global};

/// Why an input isn't played, nor a manager opened over it: its first fault of form, or want of memory.
pub type PlayFault = Refusal<FormFault>;

/// A core, and what it replied to the events that it was given.
#[derive(Drop)]
pub struct Played {
    pub core: Core,
    pub replies: Sequence<Reply>,
}

/// The fault of form for which a script was refused.
fn fault_of(reply: Reply) -> Option<FormFault>
    ensures { result ≡ fault_in (reply_seen reply) }
{
    match reply {
        Reply::Faulty(_, fault) => Some(fault),
        other => {
            drop(other);
            None
        }
    }
}

/// Submits scripts to a core that has none; or answers the first fault of form of one of them.
fn submit_all(
    core: &mut Core,
    scripts: Limited<Script, MOST_SCRIPTS>,
) -> Result<(), Refusal<FormFault>>
    requires fresh { core.old ≡ opened core.old.opening }
    requires legal { IsLegal (book_of core.old) }
    ensures ok { OnOk result (AreSubmitted core.old.opening scripts core.new) }
    ensures fault { IfErr result (λ refusal. (fault : FormFault)
        → refusal ≡ Fault fault
        → scripts_fault core.old.opening scripts ≡ Some fault) }
    ensures clean { OnOk result (scripts_fault core.old.opening scripts ≡ None) }
    ensures legal { OnOk result (IsLegal (book_of core.new)) }
{
    for script in scripts.into_vec() {
        if let Some(fault) = fault_of(core.submit(script)?) {
            return Err(Refusal::Fault(fault));
        }
    }
    Ok(())
}

/// Makes events, in order, up to the first for which there is no memory.
fn step_all(
    alloc: Global,
    core: &mut Core,
    events: Sequence<Event>,
) -> Result<Sequence<Reply>, AllocError>
    requires legal { IsLegal (book_of core.old) }
    ensures made { IfOk result (λ replies. AreMade core.old (map event_seen events) (map reply_seen replies) core.new) }
    ensures legal { OnOk result (IsLegal (book_of core.new)) }
{
    let mut replies = Sequence::new(alloc);
    for event in events.into_vec() {
        replies.push(core.step(event)?)?;
    }
    Ok(replies)
}

impl Core {
    /// Opens a core over an input's opening and submits its scripts, in order; nothing else is done. Else the input's
    /// first fault of form.
    pub fn over(alloc: Global, input: Input) -> Result<Self, PlayFault>
        ensures submitted { IfOk result (λ core. AreSubmitted input.opening input.scripts core) }
        ensures formed { OnOk result (input_fault input.opening input.scripts ≡ None) }
        ensures fault { IfErr result (λ refusal. (fault : FormFault)
            → refusal ≡ Fault fault
            → input_fault input.opening input.scripts ≡ Some fault) }
        ensures legal { IfOk result (λ core. IsLegal (book_of core)) }
    {
        resolved_runs_are_legal();
        let Input { opening, scripts } = input;
        let mut core = Core::open(alloc, opening)?;
        submit_all(&mut core, scripts)?;
        Ok(core)
    }

    /// Submits an input whole, as [`Core::over`] does, and makes these events, in order: the core that they lead to,
    /// and the replies to the events. Else the input's first fault of form. An event that is refused has its reply too;
    /// memory that runs out ends the play, and everything is dropped.
    pub fn play(alloc: Global, input: Input, events: Sequence<Event>) -> Result<Played, PlayFault>
        ensures played { IfOk result (λ played. IsPlayed resolved_forms input.opening input.scripts
            (map event_seen events) (map reply_seen played.replies) played.core) }
        ensures fault { IfErr result (λ refusal. (fault : FormFault)
            → refusal ≡ Fault fault
            → input_fault input.opening input.scripts ≡ Some fault) }
        ensures legal { IfOk result (λ played. IsLegal (book_of played.core)) }
    {
        let mut core = Core::over(alloc, input)?;
        let replies = step_all(alloc, &mut core, events)?;
        Ok(Played { core, replies })
    }
}
