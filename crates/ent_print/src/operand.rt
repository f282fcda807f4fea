//! Operands, expressions and tests.
ghost use Rattle.std.specs.Prelude.{◌≡◌, OnOk};
ghost use Rattle.ent_tree.specs.declared.operand.Operand.{Operand};
ghost use Rattle.ent_print.specs.Spelling.{comparison_symbol, specification_spelling, column_spelling};
ghost use Rattle.ent_print.specs.Spelling.{operand_spelling, expression_spelling, test_spelling};
ghost use Rattle.ent_print.specs.Printing.{with_lexemes};

use crate::printer::Printer;
use crate::spelled::Spelled;
use ent_text::Symbol;
use ent_tree::{ColumnReference, Comparison, Expression, Operand, Test, ValueSpecification};
use std::alloc::AllocError;

fn comparison_symbol(comparison: Comparison) -> Symbol
    ensures { result ≡ comparison_symbol comparison }
{
    match comparison {
        Comparison::Equal => Symbol::Equal,
        Comparison::NotEqual => Symbol::NotEqual,
        Comparison::Less => Symbol::Less,
        Comparison::LessOrEqual => Symbol::LessOrEqual,
        Comparison::Greater => Symbol::Greater,
        Comparison::GreaterOrEqual => Symbol::GreaterOrEqual,
    }
}

impl Spelled for ValueSpecification {
    ghost spelling = { specification_spelling };

    fn print(&self, printer: &mut Printer) -> Result<(), AllocError> {
        match self {
            ValueSpecification::Literal(literal) => printer.push_value(&literal.value),
            ValueSpecification::HostVariable(variable) => {
                printer.push_host_variable(&variable.name)
            }
        }
    }
}

fn print_column(printer: &mut Printer, reference: &ColumnReference) -> Result<(), AllocError>
    ensures { OnOk result (printer.new ≡ with_lexemes printer.old (column_spelling reference.now)) }
{
    if let Some(qualifier) = &reference.qualifier {
        printer.push_name(&qualifier.get().name)?;
        printer.push_sign(Symbol::Dot)?;
    }
    printer.push_name(&reference.column.name)
}

impl Spelled for Operand {
    ghost spelling = { operand_spelling };

    fn print(&self, printer: &mut Printer) -> Result<(), AllocError> {
        match self {
            Operand::Value(value) => value.print(printer),
            Operand::Column(reference) => print_column(printer, reference),
        }
    }
}

impl<T: Spelled> Spelled for Expression<T> {
    ghost spelling = { expression_spelling T.spelling };

    #[tactic(auto, using(crate::proofs::Lexemes::lexemes_append))]
    fn print(&self, printer: &mut Printer) -> Result<(), AllocError> {
        match self {
            Expression::Single(term) => term.print(printer),
            Expression::Sum(left, right) => {
                left.print(printer)?;
                printer.push_sign(Symbol::Plus)?;
                right.get().print(printer)
            }
            Expression::Difference(left, right) => {
                left.print(printer)?;
                printer.push_sign(Symbol::Minus)?;
                right.get().print(printer)
            }
        }
    }
}

impl<T: Spelled> Spelled for Test<T> {
    ghost spelling = { test_spelling T.spelling };

    #[tactic(auto, using(crate::proofs::Lexemes::lexemes_append))]
    fn print(&self, printer: &mut Printer) -> Result<(), AllocError> {
        self.left.print(printer)?;
        printer.push_sign(comparison_symbol(self.comparison))?;
        self.right.print(printer)
    }
}
