//! Laws of rows that are given. Nothing here has a body; what holds is in the contracts.
ghost use Rattle.std.specs.Prelude.{◌≡◌, List, Some};
ghost use Rattle.ent_tree.specs.declared.declaration.Opening.{Opening};
ghost use Rattle.ent_form.specs.Catalogue.{schemas_of};
ghost use Rattle.ent_form.specs.OpeningFault.{◌before◌, opening_fault};
ghost use Rattle.ent_form.specs.declared.catalogue.TableSchema.{TableSchema};
ghost use Rattle.ent_form.specs.declared.fault.FormFault.{FormFault};
ghost use Rattle.ent_prepare.specs.Given.{IsOfFirst, rows_fault, with_rows};
ghost use Rattle.ent_prepare.specs.declared.row.GivenRow.{GivenRow};

/// The first fault of an opening with rows behind its own is the opening's own first fault; else the first of these
/// rows.
pub fn given_rows_come_last()
    ensures { (opening : Opening) (rows : List GivenRow)
        → opening_fault (with_rows rows opening)
        ≡ (opening_fault opening before rows_fault (schemas_of opening.tables) rows) }
{}

/// The first fault of rows is that of the first row that has one, and its place is the number of that row.
pub fn first_fault_tells_its_row()
    ensures { (tables : List TableSchema) (rows : List GivenRow) (fault : FormFault)
        → rows_fault tables rows ≡ Some fault
        → IsOfFirst tables rows fault }
{}
