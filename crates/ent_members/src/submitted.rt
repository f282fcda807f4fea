//! Scripts that were submitted.
ghost use Rattle.std.specs.Prelude.{◌≡◌, ◌≤◌, IfOk, IfErr};
ghost use Rattle.ent_tree.specs.declared.limits.TheConstants.{MOST_RUNS};

use ent_semantics::{Known, Statement};
use ent_tree::{End, MOST_STATEMENTS, Script};
use ent_value::Limited;
use std::alloc::{AllocFailed, Global};
use std::marker::Model;

/// A script that was submitted, with its statements resolved.
pub struct SubmittedScript {
    script: Script,
    form: Limited<Statement<Known>, MOST_STATEMENTS>,
}

impl Drop for SubmittedScript {
    fn drop(self) {
        let SubmittedScript {
            script: _script,
            form: _form,
        } = self;
    }
}

impl Model for SubmittedScript {
    ghost use Rattle.ent_protocol.specs.State.{Submitted};

    ghost Value = { Submitted };

    ghost view = { λ own. record { script = own.script; form = own.form } };
}

impl SubmittedScript {
    /// The script with these statements, both moved. It takes no memory, so that it is never refused.
    pub fn new(
        _alloc: Global,
        script: Script,
        form: Limited<Statement<Known>, MOST_STATEMENTS>,
    ) -> Result<Self, AllocFailed<Script>>
        ensures ok { IfOk result (λ own. own ≡ record { script = script; form = form }) }
        ensures returned { IfErr result (λ refused. refused.value ≡ script) }
    {
        Ok(SubmittedScript { script, form })
    }

    /// The script as it was submitted.
    pub fn script(&self) -> &Script
        ensures { result.now ≡ self.now.script }
    {
        &self.script
    }

    /// Its statements, resolved.
    pub fn form(&self) -> &[Statement<Known>]
        ensures { result.now ≡ self.now.form }
    {
        self.form.as_slice()
    }

    /// How it ends.
    pub fn end(&self) -> End
        ensures { result ≡ self.now.script.end }
    {
        self.script.end
    }

    /// In how many runs its transaction may take part.
    pub fn within(&self) -> u64
        ensures number { result ≡ self.now.script.within }
        ensures least { 1 ≤ self.now.script.within }
        ensures limit { self.now.script.within ≤ MOST_RUNS }
    {
        self.script.within.get()
    }

    /// The script, moved and not copied.
    pub fn into_script(self) -> Script
        ensures { result ≡ self.script }
    {
        let SubmittedScript { script, form: _ } = self;
        script
    }
}
