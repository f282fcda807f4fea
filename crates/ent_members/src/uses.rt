//! The uses that a statement asks for, in a fixed array.
ghost use Rattle.std.specs.Prelude.{◌≡◌, ◌+◌, ◌≤◌, ◌<◌, List, [], ◌∷◌, ◌++◌, length, map, IfSome, option_to_list};
ghost use Rattle.ent_semantics.specs.declared.operand.Known.{Known};
ghost use Rattle.ent_semantics.specs.declared.statement.Statement.{Statement as Form};
ghost use Rattle.ent_semantics.specs.Closing.{closed};
ghost use Rattle.ent_semantics.specs.FormKinds.{changed_tables};
ghost use Rattle.ent_semantics.specs.Database.{Environment};
ghost use Rattle.ent_protocol.specs.State.{Use as Seen};
ghost use Rattle.ent_protocol.specs.Uses.{shared, exclusive, entangled_uses, statement_uses};

use crate::table_use::Use;
use ent_semantics::{Entangled, Statement};
use std::marker::Model;

/// The most uses that a statement asks for: a sub-select has up to 4 sources, and an entangled statement 16 of them.
pub const MOST_USES: usize = 64;

/// A list of up to [`MOST_USES`] uses. It takes no memory.
#[derive(Debug, Drop)]
pub struct Uses {
    uses: [Use; MOST_USES],
    len: usize,
}

impl Model for Uses {
    ghost use Rattle.std.specs.Prelude.{List, take, ◌≤◌};
    ghost use Rattle.ent_protocol.specs.State.{Use as Asked};
    ghost use Rattle.ent_members.specs.declared.uses.TheConstants.{MOST_USES};

    ghost Value = { List Asked };

    ghost view = { λ u. take u.len u.uses };

    ghost invariant = { λ u. u.len ≤ MOST_USES };
}

impl Uses {
    /// No use.
    pub fn new() -> Self
        ensures { result ≡ [] }
    {
        Uses {
            uses: [Use::shared(0); MOST_USES],
            len: 0,
        }
    }

    pub fn as_slice(&self) -> &[Use]
        ensures list { result.now ≡ self.now }
        ensures bound { length self.now ≤ MOST_USES }
    {
        &self.uses[..self.len]
    }

    fn push(&mut self, asked: Use)
        requires { length self.old < MOST_USES }
        ensures { self.new ≡ self.old ++ asked ∷ [] }
    {
        self.uses[self.len] = asked;
        self.len += 1;
    }
}

/// Puts in the shared uses of tables.
fn extend_shared(uses: &mut Uses, tables: &[usize])
    requires { length uses.old + length tables.now ≤ MOST_USES }
    ensures { uses.new ≡ uses.old ++ map shared tables.now }
{
    for table in tables {
        uses.push(Use::shared(*table));
    }
}

/// The uses that an entangled statement asks for: those of the sources of its sub-selects.
pub fn entangled_uses<K>(entangled: &Entangled<K>) -> Uses
    ensures { result ≡ entangled_uses entangled.now }
{
    let mut uses = Uses::new();
    let _limit = entangled.atoms.len();
    for membership in entangled.atoms.as_slice() {
        let _most = membership.select.sources.len();
        extend_shared(&mut uses, membership.select.sources.as_slice());
    }
    uses
}

/// The uses that a statement asks for.
pub fn statement_uses<K>(statement: &Statement<K>) -> Uses
    ensures { result ≡ statement_uses statement.now }
{
    let mut uses = Uses::new();
    match statement {
        Statement::Select(select) => {
            let _limit = select.sources.len();
            extend_shared(&mut uses, select.sources.as_slice());
        }
        Statement::Entangled(entangled) => uses = entangled_uses(entangled),
        Statement::Insert { table, .. }
        | Statement::Delete { table, .. }
        | Statement::Update { table, .. } => uses.push(Use::exclusive(*table)),
        Statement::Set { .. } => {}
    }
    uses
}

/// The table that a statement changes, whose exclusive use is then all that the statement asks for; none for one that
/// changes no table.
pub fn exclusive_table<K>(statement: &Statement<K>) -> Option<usize>
    ensures table { option_to_list result ≡ changed_tables statement.now }
    ensures uses { IfSome result (λ table. statement_uses statement.now ≡ exclusive table ∷ []) }
{
    statement.changed_table()
}

/// Closing a statement changes none of the uses that it asks for.
pub fn uses_are_kept_by_closing()
    ensures { (environment : Environment) (statement : Form Known)
        → statement_uses (closed environment statement) ≡ statement_uses statement }
{}
