//! Declared tables, and statements in which each name is resolved to a number, with the laws of resolving.
//!
//! Unless memory runs out, [`Catalogue::of`] and [`resolve`] answer if there is no fault, and else refuse with the
//! first one: the head of the list of all faults, which `AllFaults`, `EntangledFaults` and `ScriptFaults` give in the
//! order in which they count. `Ordinary`, `Entangled` and `Form` say what is answered: they go through a statement part
//! by part, and look each part up once.
//!
//! The laws say that a resolved statement means what the statement means and fits its tables, and that tables and host
//! variables hold values of the kinds that the input's text tells. `Standing`, `EntangledStanding` and `ScriptStanding`
//! say of each fault of form when it stands, with no order; laws tie them to the lists of faults. Each law is the
//! contract of a public function whose body does nothing but call laws.
#![tactic(auto)]

mod binding;
mod catalogue;
mod change;
mod declaration;
mod declaration_law;
mod entangled;
mod entangled_kinds_law;
mod entangled_law;
mod fault;
mod fault_law;
mod lookup;
mod membership;
mod opening_kinds_law;
mod row;
mod scope;
mod script;
mod select;
mod select_law;
mod statement_kinds_law;
mod statement_law;
mod variable;

pub use catalogue::{Catalogue, ColumnSchema, TableSchema, table_schema};
pub use declaration_law::declared_columns_are_distinct;
pub use entangled_kinds_law::groundings_are_of_their_kinds;
pub use entangled_law::{
    resolved_grounds_the_same, resolved_offers_and_demands_the_same, variables_are_the_written_ones,
};
pub use fault::FormFault;
pub use fault_law::{
    faults_are_those_that_stand, first_fault_is_first, unbound_is_unset,
    variables_are_demanded_first,
};
pub use opening_kinds_law::{kinded_tables_are_wide, opening_tables_are_kinded};
pub use row::opening_rows;
pub use script::{Plain, resolve};
pub use select_law::resolved_selects_the_same;
pub use statement_kinds_law::{effects_keep_kinds, resolved_statements_fit};
pub use statement_law::resolved_means_the_same;
