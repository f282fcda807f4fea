//! Postconditions, as they are written.
ghost use Rattle.std.specs.Prelude.{◌≡◌, ◌++◌, IfOk, OnOk, map};
ghost use Rattle.std.specs.List.{flat_map};
ghost use Rattle.ent_meetings.specs.Party.{party_of};

use ent_tree::{Condition, Entangled, Identifier, Script, Statement, Tuple};
use std::alloc::{AllocError, Global};

/// A postcondition, as it is written: the tuple, and the relation that it has to be in.
#[derive(Clone, Copy)]
pub struct Postcondition<'a> {
    pub tuple: &'a Tuple,
    pub relation: &'a Identifier,
}

impl<'a> Postcondition<'a> {
    ghost use Rattle.ent_warnings.specs.Offered.{condition_written, postconditions};
    ghost use Rattle.ent_warnings.specs.Seen.{written};

    /// Those of a script, in order of its text: each is the demand of the same number.
    pub fn all_of(alloc: Global, script: &'a Script) -> Result<Vec<Postcondition<'a>>, AllocError>
        ensures exact { IfOk result (λ all. map written all.items ≡ postconditions script.now) }
        ensures relations { IfOk result (λ all. map (λ held. held.relation.now.name) all.items
            ≡ map (λ demand. demand.relation) (party_of script.now).demands) }
    {
        let mut all = Vec::new(alloc);
        for statement in script.statements.as_slice() {
            if let Statement::Entangled(asked) = statement {
                Postcondition::add(&mut all, asked)?;
            }
        }
        Ok(all)
    }

    /// Those of an entangled statement more.
    fn add(all: &mut Vec<Postcondition<'a>>, asked: &'a Entangled) -> Result<(), AllocError>
        ensures { OnOk result (map written all.new.items
            ≡ map written all.old.items ++ flat_map condition_written asked.now.conditions) }
    {
        for condition in asked.conditions.as_slice() {
            if let Condition::InAnswer(tuple, relation) = condition {
                all.push(Postcondition { tuple, relation })?;
            }
        }
        Ok(())
    }
}
