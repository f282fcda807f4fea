//! Laws of the faults of form.
ghost use Rattle.std.specs.Prelude.{◌≡◌, ◌↔◌, List, None, Some};
ghost use Rattle.std.specs.List.{Any, Contains, flat_map};
ghost use Rattle.ent_value.specs.declared.value.Kind.{Kind};
ghost use Rattle.ent_tree.specs.declared.declaration.Opening.{Opening};
ghost use Rattle.ent_tree.specs.declared.entangled.Condition.{Condition};
ghost use Rattle.ent_tree.specs.declared.script.Script.{Script};
ghost use Rattle.ent_tree.specs.declared.script.Statement.{Statement};
ghost use Rattle.ent_semantics.specs.Database.{Name};
ghost use Rattle.ent_form.specs.declared.catalogue.TableSchema.{TableSchema};
ghost use Rattle.ent_form.specs.declared.fault.FormFault.{FormFault};
ghost use Rattle.ent_form.specs.Form.{statement_in, script_in};
ghost use Rattle.ent_form.specs.Kinds.{Bound, none_bound};
ghost use Rattle.ent_form.specs.OpeningFault.{opening_fault};
ghost use Rattle.ent_form.specs.AllFaults.{fault_of, head_of, opening_faults};
ghost use Rattle.ent_form.specs.Demanded.{condition_sides, IsDemandedFirst};
ghost use Rattle.ent_form.specs.EntangledFaults.{demanded_from};
ghost use Rattle.ent_form.specs.ScriptFaults.{bound_by, statement_faults, script_faults};
ghost use Rattle.ent_form.specs.ScriptStanding.{IsStatementFault, IsScriptFault, Binds};
ghost use Rattle.ent_form.specs.Standing.{IsOpeningFault};

/// The fault that ends the resolving of an opening, of a statement or of a script is the first in its list.
pub fn first_fault_is_first()
    ensures opening { (opening : Opening) → opening_fault opening ≡ head_of (opening_faults opening) }
    ensures statement { (tables : List TableSchema) (bound : Bound) (statement : Statement)
        → fault_of (statement_in tables bound statement) ≡ head_of (statement_faults tables bound statement) }
    ensures script { (tables : List TableSchema) (script : Script)
        → fault_of (script_in tables script) ≡ head_of (script_faults tables script) }
{}

/// The faults that are counted are those that stand, each where it stands: a table or a column that is declared a
/// second time; a name that two sources go by; a table, a column or a host variable that isn't there; a column that is
/// meant of two sources; another number of values than the table has columns, or of terms than the sub-select has
/// items; a value of another kind than its column, or a variable that is demanded in two kinds; a variable in no
/// sub-select's tuple, where it appears first; a test of two kinds; a column that is assigned a second time, or a value
/// of another kind; a host variable that is bound, or an answer relation that is named, a second time in a statement; a
/// text beside `+` or `-`. What is said of a table or a column that isn't there, of sources one of which has a fault,
/// of the tuple of a sub-select that has one, and a value beyond the last column, counts no fault of its own.
pub fn faults_are_those_that_stand()
    ensures opening { (opening : Opening) (fault : FormFault)
        → (Contains (opening_faults opening) fault ↔ IsOpeningFault opening fault) }
    ensures statement { (tables : List TableSchema) (bound : Bound) (statement : Statement) (fault : FormFault)
        → (Contains (statement_faults tables bound statement) fault ↔ IsStatementFault tables bound statement fault) }
    ensures script { (tables : List TableSchema) (script : Script) (fault : FormFault)
        → (Contains (script_faults tables script) fault ↔ IsScriptFault tables script fault) }
{}

/// A host variable isn't bound exactly where no earlier statement of the script binds it.
pub fn unbound_is_unset()
    ensures { (tables : List TableSchema) (before : List Statement) (name : Name)
        → ((bound_by tables none_bound before name ≡ None) ↔ ¬ (Any (Binds name) before)) }
{}

/// A written variable is demanded in the kind of the first item of a sub-select that it stands beside.
pub fn variables_are_demanded_first()
    ensures { (tables : List TableSchema) (bound : Bound) (conditions : List Condition) (name : Name) (kind : Kind)
        → ((demanded_from tables bound none_bound conditions name ≡ Some kind)
        ↔ IsDemandedFirst name kind (flat_map (condition_sides tables bound) conditions)) }
{}
