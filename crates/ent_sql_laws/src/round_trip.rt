//! What is read from a printed script.
ghost use Rattle.std.specs.Prelude.{◌≡◌, ℕ, ◌+◌, ◌≤◌, Contains, List, [], ◌∷◌, length, Ok};
ghost use Rattle.std.specs.List.{All};
ghost use Rattle.ent_tree.specs.declared.limits.TheConstants.{MOST_SCRIPTS};
ghost use Rattle.ent_tree.specs.declared.declaration.Opening.{Opening};
ghost use Rattle.ent_tree.specs.declared.script.Input.{Input};
ghost use Rattle.ent_tree.specs.declared.script.Script.{Script};
ghost use Rattle.ent_tree.specs.Places.{unplaced_script};
ghost use Rattle.ent_sql.specs.Reading.{reading};
ghost use Rattle.ent_sql.specs.Scripts as grammar;
ghost use Rattle.ent_print.specs.Spelling.{script_spelling};
ghost use Rattle.ent_print.specs.Printing.{script_text};
ghost use Rattle.ent_print.specs.Reading.{kinds_of, IsReadable};
ghost use Rattle.ent_sql_laws.specs.Again.{Rereads};
ghost use Rattle.ent_sql_laws.specs.Fits.{ScriptFits};
ghost use Rattle.ent_sql_laws.specs.Itself.{IsAlone};
ghost use Rattle.ent_sql_laws.specs.Following.{WasRead, text_with, IsFollowedBy, HasScripts};

use ent_print::{printed_script_is_read, printed_text_is_read};
use ent_sql::reading_is_exact;
use ent_text::{line_end_parts_texts, reader_is_exact};

/// Tokens that spell a script which keeps the limits, wherever they stand, are read as that script, places aside.
pub fn printed_script_is_itself()
    ensures { (script : Script) → ScriptFits script
        → Rereads grammar.script (λ again. unplaced_script again ≡ unplaced_script script)
        (kinds_of (script_spelling script)) }
{}

/// The text of a script is read as an input of that script alone, places aside, where the script keeps the limits and
/// its names, texts and numbers can stand in a text.
pub fn printed_text_is_itself()
    ensures { (script : Script) → ScriptFits script → IsReadable script
        → (input : Input) × (reading (script_text script) ≡ Ok input) × IsAlone script input }
{
    printed_script_is_read();
    reader_is_exact();
    reading_is_exact();
}

/// Every script that is read from a text keeps the limits, and its names, texts and numbers can stand in a text. There
/// are no more of them than their limit.
pub fn read_scripts_can_be_printed()
    ensures each { (text : List ℕ) (input : Input) (script : Script) → reading text ≡ Ok input
        → Contains input.scripts script → ScriptFits script × IsReadable script }
    ensures limit { (text : List ℕ) (input : Input) → reading text ≡ Ok input → length input.scripts ≤ MOST_SCRIPTS }
{
    reader_is_exact();
    reading_is_exact();
}

/// The text of every script that is read from a text is read again, as an input of that script alone, places aside.
pub fn read_script_is_itself()
    ensures { (text : List ℕ) (input : Input) (script : Script) → reading text ≡ Ok input
        → Contains input.scripts script
        → (again : Input) × (reading (script_text script) ≡ Ok again) × IsAlone script again }
{
    read_scripts_can_be_printed();
    printed_text_is_itself();
}

/// Scripts that were read, from whatever texts, are read again where they are printed behind a text that is read and a
/// line end: the opening and the scripts of that text stay, places included, and these scripts stand behind them,
/// places aside.
pub fn printed_scripts_follow()
    ensures { (front : List ℕ) (first : Input) (scripts : List Script) → reading front ≡ Ok first
        → All WasRead scripts → length first.scripts + length scripts ≤ MOST_SCRIPTS
        → (whole : Input) × (reading (text_with front scripts) ≡ Ok whole) × IsFollowedBy first scripts whole }
{
    read_scripts_can_be_printed();
    printed_text_is_read();
    line_end_parts_texts();
    reader_is_exact();
    reading_is_exact();
}

/// What is read from a printed script behind the text of an opening and a line end is that opening, places included,
/// and that script alone, places aside; and from all scripts of an input, that opening and these scripts in order.
pub fn printed_scripts_follow_an_opening()
    ensures script { (front text : List ℕ) (opening : Opening) (input : Input) (script : Script)
        → reading front ≡ Ok (record { opening = opening; scripts = [] }) → reading text ≡ Ok input
        → Contains input.scripts script
        → (again : Input) × (reading (text_with front (script ∷ [])) ≡ Ok again)
        × HasScripts opening (script ∷ []) again }
    ensures input { (front text : List ℕ) (opening : Opening) (input : Input)
        → reading front ≡ Ok (record { opening = opening; scripts = [] }) → reading text ≡ Ok input
        → (again : Input) × (reading (text_with front input.scripts) ≡ Ok again)
        × HasScripts opening input.scripts again }
{
    read_scripts_can_be_printed();
    printed_scripts_follow();
}
