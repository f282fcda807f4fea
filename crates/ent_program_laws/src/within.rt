//! What each type holds at most, as numbers. A call does nothing but read, or check: what holds is in its contract.
ghost use Rattle.std.specs.Prelude.{◌≡◌, ◌≤◌, ◌<◌, IfErr, List, OnOk, length};
ghost use Rattle.ent_check_report.specs.declared.fault.CheckFault.TheVariants.{TooLong};
ghost use Rattle.ent_lists.specs.Sets as set;
ghost use Rattle.ent_tree.specs.declared.operand.Operand.{Operand};
ghost use Rattle.ent_tree.specs.declared.select.Items.TheVariants.{Listed};

use ent_check_report::{CheckFault, Verdict, check_text};
use ent_group::Members;
use ent_rel::Table;
use ent_tree::{
    Create, Delete, Entangled, Input, Insert, Items, OpeningRow, Script, Select, Tuple, Update,
};
use ent_value::{Name, Text};
use std::alloc::Global;

/// A text has 255 bytes at most.
pub fn text_is_within(text: &Text)
    ensures { length text.now ≤ 255 }
{
    let _bytes = text.as_bytes();
}

/// A name has 63 bytes at most.
pub fn name_is_within(name: &Name)
    ensures { length name.now ≤ 63 }
{
    let _bytes = name.as_bytes();
}

/// A table holds 65,536 rows at most.
pub fn table_is_within(table: &Table)
    ensures { set.len table.now.rows ≤ 65536 }
{
    let _row_count = table.len();
}

/// A list of members holds 64 at most.
pub fn members_are_within(members: &Members)
    ensures { length members.now ≤ 64 }
{
    let _count = members.len();
}

/// An input has 64 tables, 65,536 opening rows and 10,000 scripts at most.
pub fn input_is_within(input: &Input)
    ensures tables { length input.now.opening.tables ≤ 64 }
    ensures rows { length input.now.opening.rows ≤ 65536 }
    ensures scripts { length input.now.scripts ≤ 10000 }
{
    let _table_count = input.opening.tables.len();
    let _row_count = input.opening.rows.len();
    let _script_count = input.scripts.len();
}

/// A table has 16 columns at most.
pub fn create_is_within(create: &Create)
    ensures { length create.now.columns ≤ 16 }
{
    let _column_count = create.columns.len();
}

/// An opening row has 16 values at most.
pub fn opening_row_is_within(row: &OpeningRow)
    ensures { length row.now.values ≤ 16 }
{
    let _value_count = row.values.len();
}

/// A script has 64 statements at most, and asks for 1 to 1,000 runs.
pub fn script_is_within(script: &Script)
    ensures statements { length script.now.statements ≤ 64 }
    ensures least_runs { 1 ≤ script.now.within }
    ensures most_runs { script.now.within ≤ 1000 }
{
    let _statement_count = script.statements.len();
    let _run_count = script.within.get();
}

/// A SELECT has 4 sources and 16 conditions at most.
pub fn select_is_within(select: &Select)
    ensures sources { length select.now.sources ≤ 4 }
    ensures conditions { length select.now.tests ≤ 16 }
{
    let _source_count = select.sources.len();
    let _test_count = select.tests.len();
}

/// The list of a SELECT has 16 items at most.
pub fn items_are_within(items: &Items)
    ensures { (listed : List Operand) → items.now ≡ Listed listed → length listed ≤ 16 }
{
    if let Items::Listed(listed) = items {
        let _item_count = listed.len();
    }
}

/// An entangled statement has 16 items, 16 answer relations and 16 conditions at most.
pub fn entangled_is_within(entangled: &Entangled)
    ensures items { length entangled.now.items ≤ 16 }
    ensures relations { length entangled.now.relations ≤ 16 }
    ensures conditions { length entangled.now.conditions ≤ 16 }
{
    let _item_count = entangled.items.len();
    let _relation_count = entangled.relations.len();
    let _condition_count = entangled.conditions.len();
}

/// Terms side by side are 16 at most.
pub fn tuple_is_within(tuple: &Tuple)
    ensures { length tuple.now.terms ≤ 16 }
{
    let _term_count = tuple.terms.len();
}

/// An INSERT has 16 values at most.
pub fn insert_is_within(insert: &Insert)
    ensures { length insert.now.values ≤ 16 }
{
    let _value_count = insert.values.len();
}

/// A DELETE has 16 conditions at most.
pub fn delete_is_within(delete: &Delete)
    ensures { length delete.now.tests ≤ 16 }
{
    let _test_count = delete.tests.len();
}

/// An UPDATE has 16 assignments and 16 conditions at most.
pub fn update_is_within(update: &Update)
    ensures assignments { length update.now.assignments ≤ 16 }
    ensures conditions { length update.now.tests ≤ 16 }
{
    let _assignment_count = update.assignments.len();
    let _test_count = update.tests.len();
}

/// A report that is checked has 1,099,511,627,776 bytes at most; one that is refused as too long has more.
pub fn report_is_within(alloc: Global, report: &[u8]) -> Result<Verdict, CheckFault>
    ensures checked { OnOk result (length report.now ≤ 1099511627776) }
    ensures refused { IfErr result (λ fault. fault ≡ TooLong → 1099511627776 < length report.now) }
{
    check_text(alloc, report)
}
