//! The law of declared tables. Nothing here has a body; what holds is in the contracts.
ghost use Rattle.std.specs.Prelude.{◌≡◌, Contains, List, None, Ok, false, true};
ghost use Rattle.ent_form.specs.Catalogue.{schemas_of};
ghost use Rattle.ent_form.specs.Form.{script_in};
ghost use Rattle.ent_form.specs.OpeningFault.{opening_fault};
ghost use Rattle.ent_form.specs.declared.script.Plain.{Plain};
ghost use Rattle.ent_history.specs.Formed.{is_declared};
ghost use Rattle.ent_semantics.specs.Database.{Name, opening_database};
ghost use Rattle.ent_semantics.specs.Uses.{changes};
ghost use Rattle.ent_lists.specs.Sets as set;
ghost use Rattle.ent_tree.specs.declared.declaration.Create.{Create};
ghost use Rattle.ent_tree.specs.declared.declaration.Opening.{Opening};
ghost use Rattle.ent_tree.specs.declared.script.Script.{Script};
ghost use Rattle.ent_tree.specs.declared.script.Statement.{Statement};

/// Scripts that resolve over an opening without a fault change its declared tables alone, and its rows stand in them.
pub fn resolved_scripts_keep_to_declared_tables()
    ensures opens { (opening : Opening) → opening_fault opening ≡ None
        → (name : Name) → is_declared opening.tables name ≡ false
        → opening_database opening name ≡ set.empty }
    ensures within { (creates : List Create) (script : Script) (plain : Plain)
        → script_in (schemas_of creates) script ≡ Ok plain
        → (statement : Statement) → Contains script.statements statement
        → (name : Name) → changes statement name ≡ true → is_declared creates name ≡ true }
{}
