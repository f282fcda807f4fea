//! Statements that change a table or bind a host variable.
ghost use Rattle.std.specs.Prelude.{◌≡◌, OnOk};
ghost use Rattle.ent_print.specs.Spelling.{insert_spelling, delete_spelling, assignment_spelling, update_spelling};
ghost use Rattle.ent_print.specs.Spelling.{set_spelling};
ghost use Rattle.ent_print.specs.Printing.{with_lexemes};

use crate::printer::Printer;
use crate::select::print_tests;
use crate::spelled::{Spelled, print_comma_list};
use ent_text::{Keyword, Symbol};
use ent_tree::{Assignment, Delete, Insert, Set, Update};
use std::alloc::AllocError;

#[tactic(auto, using(crate::proofs::Lexemes::lexemes_append))]
pub(crate) fn print_insert(printer: &mut Printer, insert: &Insert) -> Result<(), AllocError>
    ensures { OnOk result (printer.new ≡ with_lexemes printer.old (insert_spelling insert.now)) }
{
    printer.push_word(Keyword::Insert)?;
    printer.push_word(Keyword::Into)?;
    printer.push_name(&insert.table.name)?;
    printer.push_word(Keyword::Values)?;
    printer.push_sign(Symbol::Open)?;
    print_comma_list(printer, insert.values.as_slice())?;
    printer.push_sign(Symbol::Close)
}

pub(crate) fn print_delete(printer: &mut Printer, delete: &Delete) -> Result<(), AllocError>
    ensures { OnOk result (printer.new ≡ with_lexemes printer.old (delete_spelling delete.now)) }
{
    printer.push_word(Keyword::Delete)?;
    printer.push_word(Keyword::From)?;
    printer.push_name(&delete.table.name)?;
    print_tests(printer, delete.tests.as_slice())
}

impl Spelled for Assignment {
    ghost spelling = { assignment_spelling };

    fn print(&self, printer: &mut Printer) -> Result<(), AllocError> {
        printer.push_name(&self.column.name)?;
        printer.push_sign(Symbol::Equal)?;
        self.expression.print(printer)
    }
}

#[tactic(auto, using(crate::proofs::Lexemes::lexemes_append))]
pub(crate) fn print_update(printer: &mut Printer, update: &Update) -> Result<(), AllocError>
    ensures { OnOk result (printer.new ≡ with_lexemes printer.old (update_spelling update.now)) }
{
    printer.push_word(Keyword::Update)?;
    printer.push_name(&update.table.name)?;
    printer.push_word(Keyword::Set)?;
    print_comma_list(printer, update.assignments.as_slice())?;
    print_tests(printer, update.tests.as_slice())
}

pub(crate) fn print_set(printer: &mut Printer, set: &Set) -> Result<(), AllocError>
    ensures { OnOk result (printer.new ≡ with_lexemes printer.old (set_spelling set.now)) }
{
    printer.push_word(Keyword::Set)?;
    printer.push_host_variable(&set.variable.name)?;
    printer.push_sign(Symbol::Equal)?;
    set.expression.print(printer)
}
