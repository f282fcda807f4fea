//! Laws of printing: functions without a body, whose contracts say what holds of every script.
ghost use Rattle.std.specs.List.{All};
ghost use Rattle.ent_tree.specs.declared.script.Script.{Script};
ghost use Rattle.ent_print.specs.Lexeme.{Lexeme, text_of};
ghost use Rattle.ent_print.specs.Spelling.{script_spelling};
ghost use Rattle.ent_print.specs.Printing.{script_text};
ghost use Rattle.ent_print.specs.Reading.{kinds_of, CanBeRead, IsReadable, HasKinds};
ghost use Rattle.std.specs.Prelude.{◌≡◌, List};
ghost use Rattle.ent_tree.specs.Places.{unplaced_script};

use ent_text::pieces_end;

/// The tokens of a printed text are those that spell its lexemes, in order, where each lexeme can stand in a text.
pub fn printed_text_is_read()
    ensures { (lexemes : List Lexeme) → All CanBeRead lexemes → HasKinds (text_of lexemes) (kinds_of lexemes) }
{
    pieces_end();
}

/// The tokens of a printed script are those that spell it, in order, where no name is a reserved word, no text has a
/// control character and no number is beyond its limit.
pub fn printed_script_is_read()
    ensures { (script : Script) → IsReadable script
        → HasKinds (script_text script) (kinds_of (script_spelling script)) }
{
    printed_text_is_read();
}

/// A script is printed alike wherever its parts stand.
pub fn places_do_not_show()
    ensures { (script : Script) → script_spelling (unplaced_script script) ≡ script_spelling script }
{}
