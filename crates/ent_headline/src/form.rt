//! The law of resolved forms.
ghost use Rattle.std.specs.Prelude.{◌≡◌, None};
ghost use Rattle.ent_tree.specs.declared.declaration.Opening.{Opening};
ghost use Rattle.ent_form.specs.OpeningFault.{opening_fault};
ghost use Rattle.ent_protocol_laws.specs.Faithful.{AreFaithful};
ghost use Rattle.ent_headline.specs.Resolved.{resolved_forms};

use ent_form::{
    declared_columns_are_distinct, kinded_tables_are_wide, opening_tables_are_kinded,
    resolved_grounds_the_same, resolved_means_the_same, resolved_offers_and_demands_the_same,
    variables_are_the_written_ones,
};

/// Over an opening without a fault the forms of scripts are faithful: each means what its statement means, leaves
/// tables of their widths, and uses the tables that its statement uses, all of them declared; and the opening rows have
/// a value for each column of their declared table.
pub fn resolved_forms_are_faithful()
    ensures { (opening : Opening) → opening_fault opening ≡ None → AreFaithful resolved_forms opening }
{
    variables_are_the_written_ones();
    resolved_offers_and_demands_the_same();
    resolved_grounds_the_same();
    resolved_means_the_same();
    declared_columns_are_distinct();
    opening_tables_are_kinded();
    kinded_tables_are_wide();
}
