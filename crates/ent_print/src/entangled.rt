//! Entangled SELECT.
ghost use Rattle.std.specs.Prelude.{◌≡◌, OnOk};
ghost use Rattle.ent_text.specs.declared.symbol.Symbol.TheVariants.{Comma};
ghost use Rattle.ent_print.specs.Spelling.{sign, each_behind, comma_list, term_spelling, entangled_item_spelling};
ghost use Rattle.ent_print.specs.Spelling.{tuple_spelling, relation_spelling, condition_spelling};
ghost use Rattle.ent_print.specs.Spelling.{entangled_spelling};
ghost use Rattle.ent_print.specs.Printing.{with_lexemes};

use crate::printer::Printer;
use crate::select::print_select;
use crate::spelled::{Spelled, print_comma_list, print_where};
use ent_text::{Keyword, Symbol};
use ent_tree::{Condition, Entangled, EntangledItem, Identifier, Term, Tuple};
use std::alloc::AllocError;

impl Spelled for Term {
    ghost spelling = { term_spelling };

    fn print(&self, printer: &mut Printer) -> Result<(), AllocError> {
        match self {
            Term::Value(value) => value.print(printer),
            Term::Variable(variable) => printer.push_name(&variable.name),
        }
    }
}

impl Spelled for EntangledItem {
    ghost spelling = { entangled_item_spelling };

    #[tactic(auto, using(crate::proofs::Lexemes::lexemes_append))]
    fn print(&self, printer: &mut Printer) -> Result<(), AllocError> {
        self.term.print(printer)?;
        if let Some(variable) = &self.binds {
            printer.push_word(Keyword::As)?;
            printer.push_host_variable(&variable.name)?;
        }
        Ok(())
    }
}

#[tactic(auto, using(crate::proofs::Lexemes::lexemes_append))]
fn print_tuple(printer: &mut Printer, tuple: &Tuple) -> Result<(), AllocError>
    ensures { OnOk result (printer.new ≡ with_lexemes printer.old (tuple_spelling tuple.now)) }
{
    printer.push_sign(Symbol::Open)?;
    print_comma_list(printer, tuple.terms.as_slice())?;
    printer.push_sign(Symbol::Close)
}

fn print_relation(printer: &mut Printer, relation: &Identifier) -> Result<(), AllocError>
    ensures { OnOk result (printer.new ≡ with_lexemes printer.old (relation_spelling relation.now)) }
{
    printer.push_word(Keyword::Answer)?;
    printer.push_name(&relation.name)
}

/// Relations, each behind a comma.
fn print_more_relations(printer: &mut Printer, relations: &[Identifier]) -> Result<(), AllocError>
    ensures { OnOk result (printer.new
        ≡ with_lexemes printer.old (each_behind (sign Comma) relation_spelling relations.now)) }
{
    for relation in relations {
        printer.push_sign(Symbol::Comma)?;
        print_relation(printer, relation)?;
    }
    Ok(())
}

fn print_relations(printer: &mut Printer, relations: &[Identifier]) -> Result<(), AllocError>
    ensures { OnOk result (printer.new
        ≡ with_lexemes printer.old (comma_list relation_spelling relations.now)) }
{
    if let [first, more @ ..] = relations {
        print_relation(printer, first)?;
        print_more_relations(printer, more)?;
    }
    Ok(())
}

impl Spelled for Condition {
    ghost spelling = { condition_spelling };

    #[tactic(auto, using(crate::proofs::Lexemes::lexemes_append))]
    fn print(&self, printer: &mut Printer) -> Result<(), AllocError> {
        match self {
            Condition::InSelect(tuple, select) => {
                print_tuple(printer, tuple)?;
                printer.push_word(Keyword::In)?;
                printer.push_sign(Symbol::Open)?;
                print_select(printer, select)?;
                printer.push_sign(Symbol::Close)
            }
            Condition::InAnswer(tuple, relation) => {
                print_tuple(printer, tuple)?;
                printer.push_word(Keyword::In)?;
                print_relation(printer, relation)
            }
            Condition::Test(test) => test.print(printer),
        }
    }
}

#[tactic(auto, using(crate::proofs::Lexemes::lexemes_append))]
pub(crate) fn print_entangled(
    printer: &mut Printer,
    entangled: &Entangled,
) -> Result<(), AllocError>
    ensures { OnOk result (printer.new ≡ with_lexemes printer.old (entangled_spelling entangled.now)) }
{
    printer.push_word(Keyword::Select)?;
    print_comma_list(printer, entangled.items.as_slice())?;
    printer.push_word(Keyword::Into)?;
    print_relations(printer, entangled.relations.as_slice())?;
    print_where(printer, entangled.conditions.as_slice())?;
    printer.push_word(Keyword::Choose)?;
    printer.push_number(1)
}
