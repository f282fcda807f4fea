//! Laws of declarations.
ghost use Rattle.std.specs.Prelude.{◌≡◌, List, [], None};
ghost use Rattle.ent_tree.specs.declared.declaration.Create.{Create};
ghost use Rattle.ent_form.specs.OpeningFault.{declarations_fault};
ghost use Rattle.ent_form.specs.Tables.{HaveDistinctColumns};

/// Tables that are declared without a fault have no two columns of one name.
pub fn declared_columns_are_distinct()
    ensures { (creates : List Create) → declarations_fault [] creates ≡ None → HaveDistinctColumns creates }
{}
