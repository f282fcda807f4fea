//! The productions of the grammar, and what they spell: functions without a body, whose contracts say it of every list
//! of tokens.
ghost use Rattle.std.specs.Prelude.{◌≡◌, ◌↔◌, ℕ, List, Ok};
ghost use Rattle.ent_tree.specs.declared.script.Input.{Input};
ghost use Rattle.ent_sql.specs.Reading.{reading};
ghost use Rattle.ent_sql.specs.Operands as operands;
ghost use Rattle.ent_sql.specs.Tables as tables;
ghost use Rattle.ent_sql.specs.Selects as selects;
ghost use Rattle.ent_sql.specs.Entangling as entangling;
ghost use Rattle.ent_sql.specs.Statements as statements;
ghost use Rattle.ent_sql.specs.Scripts as scripts;
ghost use Rattle.ent_sql_laws.specs.Phrases.{IsSpelledAs};
ghost use Rattle.ent_sql_laws.specs.Operands as says_operands;
ghost use Rattle.ent_sql_laws.specs.Tables as says_tables;
ghost use Rattle.ent_sql_laws.specs.Selects as says_selects;
ghost use Rattle.ent_sql_laws.specs.Changes as says_changes;
ghost use Rattle.ent_sql_laws.specs.Entangling as says_entangling;
ghost use Rattle.ent_sql_laws.specs.Scripts as says_scripts;
ghost use Rattle.ent_sql_laws.specs.Says.{SaysInput};

use ent_sql::reading_is_exact;
use ent_text::reader_is_exact;

/// Names, values, operands, terms, tests and expressions: the tokens that the grammar spells of each are just those
/// that its phrase says, places included.
pub fn operands_are_spelled()
    ensures identifier { IsSpelledAs operands.identifier says_operands.identifier }
    ensures host_variable { IsSpelledAs operands.host_variable says_operands.host_variable }
    ensures literal { IsSpelledAs operands.literal says_operands.literal }
    ensures value { IsSpelledAs operands.value says_operands.value }
    ensures column { IsSpelledAs operands.column_reference says_operands.column_reference }
    ensures operand { IsSpelledAs operands.operand says_operands.operand }
    ensures term { IsSpelledAs operands.term says_operands.term }
    ensures comparison { IsSpelledAs operands.comparison says_operands.comparison }
    ensures operands { IsSpelledAs (operands.compared operands.operand) (says_operands.compared says_operands.operand) }
    ensures terms { IsSpelledAs (operands.compared operands.term) (says_operands.compared says_operands.term) }
    ensures expression { IsSpelledAs (operands.expression operands.operand)
        (says_operands.expression says_operands.operand) }
    ensures sum { IsSpelledAs (operands.expression operands.value) (says_operands.expression says_operands.value) }
{}

/// Declarations of tables, and rows that are put in.
pub fn tables_are_spelled()
    ensures kind { IsSpelledAs tables.kind says_tables.kind }
    ensures column { IsSpelledAs tables.column says_tables.column }
    ensures create { IsSpelledAs tables.create says_tables.create }
    ensures opening_row { IsSpelledAs tables.opening_row says_tables.opening_row }
    ensures insert { IsSpelledAs tables.insert says_tables.insert }
{}

/// SELECT over tables.
pub fn selects_are_spelled()
    ensures source { IsSpelledAs selects.source says_selects.source }
    ensures tests { IsSpelledAs selects.tests says_selects.tests }
    ensures items { IsSpelledAs selects.items says_selects.items }
    ensures select { IsSpelledAs selects.select says_selects.select }
{}

/// DELETE, UPDATE and SET.
pub fn changes_are_spelled()
    ensures delete { IsSpelledAs statements.delete says_changes.delete }
    ensures assignment { IsSpelledAs statements.assignment says_changes.assignment }
    ensures update { IsSpelledAs statements.update says_changes.update }
    ensures set { IsSpelledAs statements.set says_changes.set }
{}

/// Entangled SELECT, whose items are read as operands up to the first that binds a host variable.
pub fn entangling_is_spelled()
    ensures binding { IsSpelledAs entangling.binding says_entangling.binding }
    ensures item { IsSpelledAs entangling.entangled_item says_entangling.entangled_item }
    ensures relation { IsSpelledAs entangling.relation says_entangling.relation }
    ensures condition { IsSpelledAs entangling.condition says_entangling.condition }
    ensures conditions { IsSpelledAs entangling.entangled_conditions says_entangling.conditions_clause }
    ensures query { IsSpelledAs entangling.query says_scripts.query }
{}

/// Statements, scripts and whole inputs.
pub fn inputs_are_spelled()
    ensures statement { IsSpelledAs statements.statement says_scripts.statement }
    ensures ended { IsSpelledAs statements.ended_statement says_scripts.ended_statement }
    ensures within { IsSpelledAs scripts.within says_scripts.within }
    ensures ending { IsSpelledAs scripts.ending says_scripts.ending }
    ensures script { IsSpelledAs scripts.script says_scripts.script }
    ensures input { IsSpelledAs scripts.input says_scripts.input }
{}

/// An input is read from a text exactly where the text's tokens are the phrase of that input.
pub fn texts_are_spelled()
    ensures { (text : List ℕ) (tree : Input) → (reading text ≡ Ok tree) ↔ SaysInput text tree }
{
    inputs_are_spelled();
    reader_is_exact();
    reading_is_exact();
}
