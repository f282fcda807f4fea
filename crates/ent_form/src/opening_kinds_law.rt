//! Laws of tables.
ghost use Rattle.std.specs.Prelude.{◌≡◌, List, None};
ghost use Rattle.ent_tree.specs.declared.declaration.Create.{Create};
ghost use Rattle.ent_tree.specs.declared.declaration.Opening.{Opening};
ghost use Rattle.ent_semantics.specs.Form.{Tables};
ghost use Rattle.ent_semantics.specs.Database.{opening_database};
ghost use Rattle.ent_form.specs.Catalogue.{schemas_of};
ghost use Rattle.ent_form.specs.OpeningFault.{opening_fault};
ghost use Rattle.ent_form.specs.Tables.{database_of, AreWide};
ghost use Rattle.ent_form.specs.TableKinds.{AreKinded};
ghost use Rattle.ent_form.specs.Opened.{opening_tables};

/// In an opening without a fault the rows of each table have the kinds of its columns, and the tables under their names
/// are the opening database.
pub fn opening_tables_are_kinded()
    ensures kinds { (opening : Opening)
        → opening_fault opening ≡ None
        → AreKinded (schemas_of opening.tables) (opening_tables opening) }
    ensures database { (opening : Opening)
        → opening_fault opening ≡ None
        → database_of opening.tables (opening_tables opening) ≡ opening_database opening }
{}

/// A row of the kinds of its table's columns has a value for each of them.
pub fn kinded_tables_are_wide()
    ensures { (creates : List Create) (tables : Tables)
        → AreKinded (schemas_of creates) tables
        → AreWide creates tables }
{}
