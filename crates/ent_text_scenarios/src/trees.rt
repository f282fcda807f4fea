//! The tree of an input: `== trees`, then an input a line. A name or a value is shown with its place behind an `@`, a
//! host variable with a `:` before its name.
use crate::show::{Show, put_list};
use anyhow::Result;
use ent_scenario_files::replies::{
    Out, put, put_debugged, put_fault, put_kind, put_number, put_shown,
};
use ent_scenario_files::words::unescaped;
use ent_sql::{SqlFault, parse_input};
use ent_tree::{
    Assignment, Column, ColumnReference, Create, End, Expression, Identifier, Input, Items,
    Literal, OpeningRow, Operand, Script, Select, Source, Statement, Test, ValueSpecification,
};
use ent_value::Refusal;
use std::alloc::Global;

pub(crate) fn reply(alloc: Global, line: &str, out: &mut Out) -> Result<()> {
    let text = unescaped(alloc, line)?;
    let read = parse_input(alloc, text.as_str());
    drop(text);
    match read {
        Ok(input) => put_input(alloc, &input, out),
        Err(refusal) => put_refusal(&refusal, out),
    }
    Ok(())
}

pub(crate) fn put_refusal(refusal: &Refusal<SqlFault>, out: &mut Out) {
    match refusal {
        Refusal::Fault(fault) => put_fault(out, fault.code(), fault.place()),
        Refusal::Memory => put(out, "E900"),
    }
}

pub(crate) fn put_input(alloc: Global, input: &Input, out: &mut Out) {
    put(out, "input;");
    put_list(alloc, out, input.opening.tables.as_slice(), "");
    put_list(alloc, out, input.opening.rows.as_slice(), "");
    put_list(alloc, out, input.scripts.as_slice(), "");
}

impl Show for Identifier {
    fn show(&self, alloc: Global, out: &mut Out) {
        self.name.show(alloc, out);
        put_place(out, self.place);
    }
}

pub(crate) fn put_place(out: &mut Out, place: usize) {
    put(out, "@");
    put_number(out, place);
}

impl Show for Literal {
    fn show(&self, alloc: Global, out: &mut Out) {
        self.value.show(alloc, out);
        put_place(out, self.place);
    }
}

impl Show for Column {
    fn show(&self, alloc: Global, out: &mut Out) {
        self.name.show(alloc, out);
        put(out, " ");
        put_kind(out, self.kind);
    }
}

impl Show for Create {
    fn show(&self, alloc: Global, out: &mut Out) {
        put(out, " create ");
        self.name.show(alloc, out);
        put(out, " (");
        put_list(alloc, out, self.columns.as_slice(), ", ");
        put(out, ");");
    }
}

impl Show for OpeningRow {
    fn show(&self, alloc: Global, out: &mut Out) {
        put(out, " row ");
        self.table.show(alloc, out);
        put_values(alloc, out, self.place, self.values.as_slice());
    }
}

fn put_values<T: Show>(alloc: Global, out: &mut Out, place: usize, values: &[T]) {
    put(out, " (");
    put_place(out, place);
    put(out, " ");
    put_list(alloc, out, values, ", ");
    put(out, ");");
}

impl Show for ValueSpecification {
    fn show(&self, alloc: Global, out: &mut Out) {
        match self {
            ValueSpecification::Literal(literal) => literal.show(alloc, out),
            ValueSpecification::HostVariable(variable) => {
                put(out, ":");
                variable.show(alloc, out)
            }
        }
    }
}

impl Show for ColumnReference {
    fn show(&self, alloc: Global, out: &mut Out) {
        if let Some(qualifier) = &self.qualifier {
            qualifier.get().show(alloc, out);
            put(out, ".");
        }
        self.column.show(alloc, out);
    }
}

impl Show for Operand {
    fn show(&self, alloc: Global, out: &mut Out) {
        match self {
            Operand::Value(value) => value.show(alloc, out),
            Operand::Column(column) => column.show(alloc, out),
        }
    }
}

impl<T: Show> Show for Expression<T> {
    fn show(&self, alloc: Global, out: &mut Out) {
        match self {
            Expression::Single(term) => term.show(alloc, out),
            Expression::Sum(left, right) => put_list(alloc, out, &[left, right.get()], " + "),
            Expression::Difference(left, right) => put_list(
                alloc,
                out,
                &[left, right.get()],
                " - ",
            ),
        }
    }
}

impl<T: Show> Show for Test<T> {
    fn show(&self, alloc: Global, out: &mut Out) {
        self.left.show(alloc, out);
        put(out, " ");
        put_debugged(out, &self.comparison);
        put(out, " ");
        self.right.show(alloc, out);
    }
}

impl Show for Assignment {
    fn show(&self, alloc: Global, out: &mut Out) {
        self.column.show(alloc, out);
        put(out, " = ");
        self.expression.show(alloc, out);
    }
}

/// The conditions of a statement.
pub(crate) fn put_where<T: Show>(alloc: Global, out: &mut Out, tests: &[T]) {
    if tests.is_empty() {
        return;
    }
    put(out, " where ");
    put_list(alloc, out, tests, ", ");
}

/// The conditions of a statement, and its end.
pub(crate) fn put_tests<T: Show>(alloc: Global, out: &mut Out, tests: &[T]) {
    put_where(alloc, out, tests);
    put(out, ";");
}

impl Show for Source {
    fn show(&self, alloc: Global, out: &mut Out) {
        self.table.show(alloc, out);
        if let Some(alias) = &self.alias {
            put(out, " as ");
            alias.get().show(alloc, out);
        }
    }
}

impl Show for Select {
    fn show(&self, alloc: Global, out: &mut Out) {
        put(out, "select ");
        match &self.items {
            Items::All => put(out, "*"),
            Items::Listed(items) => put_list(alloc, out, items.as_slice(), ", "),
        }
        put(out, " from ");
        put_list(alloc, out, self.sources.as_slice(), ", ");
        put_where(alloc, out, self.tests.as_slice());
    }
}

impl Show for Statement {
    fn show(&self, alloc: Global, out: &mut Out) {
        match self {
            Statement::Insert(insert) => {
                put(out, " insert ");
                insert.table.show(alloc, out);
                put_values(alloc, out, insert.place, insert.values.as_slice())
            }
            Statement::Delete(delete) => {
                put(out, " delete ");
                delete.table.show(alloc, out);
                put_tests(alloc, out, delete.tests.as_slice())
            }
            Statement::Update(update) => {
                put(out, " update ");
                update.table.show(alloc, out);
                put(out, " set ");
                put_list(alloc, out, update.assignments.as_slice(), ", ");
                put_tests(alloc, out, update.tests.as_slice())
            }
            Statement::Set(set) => {
                put(out, " set :");
                set.variable.show(alloc, out);
                put(out, " = ");
                set.expression.show(alloc, out);
                put(out, ";")
            }
            Statement::Select(select) => put_statement(alloc, out, select),
            Statement::Entangled(entangled) => put_statement(alloc, out, entangled),
        }
    }
}

fn put_statement<T: Show>(alloc: Global, out: &mut Out, statement: &T) {
    put(out, " ");
    statement.show(alloc, out);
    put(out, ";");
}

pub(crate) fn put_end(out: &mut Out, end: End) {
    put(
        out,
        match end {
            End::Commit => " commit;",
            End::Rollback => " rollback;",
        },
    )
}

impl Show for Script {
    fn show(&self, alloc: Global, out: &mut Out) {
        put(out, " begin within ");
        put_shown(out, &self.within.get());
        put(out, ";");
        for statement in self.statements.as_slice() {
            statement.show(alloc, out);
        }
        put_end(out, self.end);
    }
}
