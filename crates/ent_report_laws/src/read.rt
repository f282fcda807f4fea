//! Which openings can be told. Nothing here has a body; what holds is in the contracts.
ghost use Rattle.std.specs.Prelude.{◌≡◌, None};
ghost use Rattle.ent_form.specs.OpeningFault.{opening_fault};
ghost use Rattle.ent_history.specs.Told.{told_opening};
ghost use Rattle.ent_report_laws.specs.Read.{AreUnplaced, IsOpeningRead};
ghost use Rattle.ent_report_laws.specs.Tellable.{IsOpeningTold};
ghost use Rattle.ent_tree.specs.declared.declaration.Opening.{Opening};

use ent_form::opening_tables_are_kinded;

/// An opening such as an input has, whose tables are without places, can be told as a report shows it, where it has no
/// fault of form. The places of its rows are of no account, since none of them is shown.
pub fn read_openings_can_be_told()
    ensures { (opening : Opening) → IsOpeningRead opening → AreUnplaced opening.tables
        → opening_fault opening ≡ None → IsOpeningTold (told_opening opening) }
{
    opening_tables_are_kinded();
}
