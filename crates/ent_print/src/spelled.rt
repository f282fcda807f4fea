//! Parts of a script, and lists of them.
ghost use Rattle.std.specs.Prelude.{◌≡◌, List, OnOk};
ghost use Rattle.ent_print.specs.Lexeme.{Lexeme};
ghost use Rattle.ent_print.specs.Spelling.{sign, word, each_behind, comma_list, where_clause};
ghost use Rattle.ent_print.specs.Printing.{with_lexemes};
ghost use Rattle.ent_text.specs.declared.symbol.Symbol.TheVariants.{Comma};
ghost use Rattle.ent_text.specs.declared.keyword.Keyword.TheVariants.{And};

use crate::printer::Printer;
use ent_text::{Keyword, Symbol};
use std::alloc::AllocError;

/// A part of a script, which lexemes spell.
pub(crate) trait Spelled {
    ghost spelling: { Self → List Lexeme };

    fn print(&self, printer: &mut Printer) -> Result<(), AllocError>
        ensures { OnOk result (printer.new ≡ with_lexemes printer.old (spelling self.now)) };
}

/// Things, each behind a comma.
fn print_behind_commas<T: Spelled>(printer: &mut Printer, things: &[T]) -> Result<(), AllocError>
    ensures { OnOk result (printer.new
        ≡ with_lexemes printer.old (each_behind (sign Comma) T.spelling things.now)) }
{
    for thing in things {
        printer.push_sign(Symbol::Comma)?;
        thing.print(printer)?;
    }
    Ok(())
}

/// Things with commas between them.
pub(crate) fn print_comma_list<T: Spelled>(
    printer: &mut Printer,
    things: &[T],
) -> Result<(), AllocError>
    ensures { OnOk result (printer.new ≡ with_lexemes printer.old (comma_list T.spelling things.now)) }
{
    if let [first, more @ ..] = things {
        first.print(printer)?;
        print_behind_commas(printer, more)?;
    }
    Ok(())
}

/// Conditions, each behind an AND.
fn print_behind_ands<T: Spelled>(printer: &mut Printer, conditions: &[T]) -> Result<(), AllocError>
    ensures { OnOk result (printer.new
        ≡ with_lexemes printer.old (each_behind (word And) T.spelling conditions.now)) }
{
    for condition in conditions {
        printer.push_word(Keyword::And)?;
        condition.print(printer)?;
    }
    Ok(())
}

/// The WHERE of these conditions; nothing where there is none.
pub(crate) fn print_where<T: Spelled>(
    printer: &mut Printer,
    conditions: &[T],
) -> Result<(), AllocError>
    ensures { OnOk result (printer.new ≡ with_lexemes printer.old (where_clause T.spelling conditions.now)) }
{
    if let [first, more @ ..] = conditions {
        printer.push_word(Keyword::Where)?;
        first.print(printer)?;
        print_behind_ands(printer, more)?;
    }
    Ok(())
}
