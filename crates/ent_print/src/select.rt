//! SELECT over tables.
ghost use Rattle.std.specs.Prelude.{◌≡◌, OnOk};
ghost use Rattle.ent_tree.specs.declared.operand.Operand.{Operand};
ghost use Rattle.ent_tree.specs.declared.operand.Test.{Test};
ghost use Rattle.ent_print.specs.Spelling.{source_spelling, items_spelling, tests_clause};
ghost use Rattle.ent_print.specs.Spelling.{select_spelling};
ghost use Rattle.ent_print.specs.Printing.{with_lexemes};

use crate::printer::Printer;
use crate::spelled::{Spelled, print_comma_list, print_where};
use ent_text::{Keyword, Symbol};
use ent_tree::{Items, Operand, Select, Source, Test};
use std::alloc::AllocError;

impl Spelled for Source {
    ghost spelling = { source_spelling };

    fn print(&self, printer: &mut Printer) -> Result<(), AllocError> {
        printer.push_name(&self.table.name)?;
        if let Some(alias) = &self.alias {
            printer.push_word(Keyword::As)?;
            printer.push_name(&alias.get().name)?;
        }
        Ok(())
    }
}

fn print_items(printer: &mut Printer, items: &Items) -> Result<(), AllocError>
    ensures { OnOk result (printer.new ≡ with_lexemes printer.old (items_spelling items.now)) }
{
    match items {
        Items::All => printer.push_sign(Symbol::Star),
        Items::Listed(listed) => print_comma_list(printer, listed.as_slice()),
    }
}

/// The WHERE of a statement over tables.
pub(crate) fn print_tests(printer: &mut Printer, tests: &[Test<Operand>]) -> Result<(), AllocError>
    ensures { OnOk result (printer.new ≡ with_lexemes printer.old (tests_clause tests.now)) }
{
    print_where(printer, tests)
}

#[tactic(auto, using(crate::proofs::Lexemes::lexemes_append))]
pub(crate) fn print_select(printer: &mut Printer, select: &Select) -> Result<(), AllocError>
    ensures { OnOk result (printer.new ≡ with_lexemes printer.old (select_spelling select.now)) }
{
    printer.push_word(Keyword::Select)?;
    print_items(printer, &select.items)?;
    printer.push_word(Keyword::From)?;
    print_comma_list(printer, select.sources.as_slice())?;
    print_tests(printer, select.tests.as_slice())
}
