//! Whole scripts.
ghost use Rattle.std.specs.Prelude.{◌≡◌, IfOk, OnOk};
ghost use Rattle.std.specs.List.{flat_map};
ghost use Rattle.ent_print.specs.Spelling.{statement_spelling, line_spelling, end_word, script_spelling};
ghost use Rattle.ent_print.specs.Printing.{with_lexemes, script_text};

use crate::entangled::print_entangled;
use crate::printer::Printer;
use crate::select::print_select;
use crate::statement::{print_delete, print_insert, print_set, print_update};
use ent_text::{Keyword, Symbol};
use ent_tree::{End, Script, Statement};
use std::alloc::{AllocError, Global};

fn print_statement(printer: &mut Printer, statement: &Statement) -> Result<(), AllocError>
    ensures { OnOk result (printer.new ≡ with_lexemes printer.old (statement_spelling statement.now)) }
{
    match statement {
        Statement::Select(select) => print_select(printer, select),
        Statement::Entangled(entangled) => print_entangled(printer, entangled),
        Statement::Insert(insert) => print_insert(printer, insert),
        Statement::Delete(delete) => print_delete(printer, delete),
        Statement::Update(update) => print_update(printer, update),
        Statement::Set(set) => print_set(printer, set),
    }
}

/// Statements, a line each.
#[tactic(auto, using(crate::proofs::Lexemes::lexemes_append))]
fn print_lines(printer: &mut Printer, statements: &[Statement]) -> Result<(), AllocError>
    ensures { OnOk result (printer.new ≡ with_lexemes printer.old (flat_map line_spelling statements.now)) }
{
    for statement in statements {
        print_statement(printer, statement)?;
        printer.push_sign(Symbol::Semicolon)?;
    }
    Ok(())
}

fn end_word(end: End) -> Keyword
    ensures { result ≡ end_word end }
{
    match end {
        End::Commit => Keyword::Commit,
        End::Rollback => Keyword::Rollback,
    }
}

#[tactic(auto, using(crate::proofs::Lexemes::lexemes_append))]
fn print_lines_of(printer: &mut Printer, script: &Script) -> Result<(), AllocError>
    ensures { OnOk result (printer.new ≡ with_lexemes printer.old (script_spelling script.now)) }
{
    printer.push_word(Keyword::Begin)?;
    printer.push_word(Keyword::Transaction)?;
    printer.push_word(Keyword::Within)?;
    printer.push_number(script.within.get())?;
    printer.push_word(Keyword::Runs)?;
    printer.push_sign(Symbol::Semicolon)?;
    print_lines(printer, script.statements.as_slice())?;
    printer.push_word(end_word(script.end))?;
    printer.push_sign(Symbol::Semicolon)
}

/// The text of a script: BEGIN with its number of runs, the statements, and the end, a line each. Reserved words stand
/// in capitals, names as they are written, tuples in parentheses; one space stands between two tokens, but none before
/// `,` `;` `)` `.`, none behind `(` and `.`, and none between `-` and the number of a literal.
pub fn print_script(alloc: Global, script: &Script) -> Result<Vec<u8>, AllocError>
    ensures { IfOk result (λ text. text.items ≡ script_text script.now) }
{
    let mut printer = Printer::new(alloc);
    print_lines_of(&mut printer, script)?;
    Ok(printer.into_text())
}
