//! A script that comes in: its bound values, each a line, and its text, up to the line that ends it.
use crate::room_call::{Entrance, integer};
use anyhow::{Context, Result, bail};
use ent_bound::{BindingFault, BoundValue, BoundVariable, ValueFault};
use ent_scenario_files::words::name as name_of;
use ent_value::{Name, Refusal};
use std::alloc::Global;

/// What is given for a host variable.
#[derive(Drop)]
enum Given {
    Number(i64),
    Text(String),
    /// This number the first time that the script is put, and one more each time.
    Count(i64),
}

/// A host variable, without its `@`, and what is given for it.
#[derive(Drop)]
struct GivenVariable {
    name: Name,
    given: Given,
}

/// A script, as far as its lines were read.
#[derive(Drop)]
pub(crate) struct Coming {
    pub(crate) entrance: Entrance,
    variables: Vec<GivenVariable>,
    pub(crate) text: String,
}

impl Coming {
    pub(crate) fn new(alloc: Global, entrance: Entrance) -> Self {
        Coming {
            entrance,
            variables: Vec::new(alloc),
            text: String::new(alloc),
        }
    }

    /// Takes a line, and says whether it was the last one.
    pub(crate) fn take(&mut self, alloc: Global, line: &str) -> Result<bool> {
        if self.text.is_empty() && line.starts_with("@") {
            self.take_variable(alloc, line)?;
            return Ok(false);
        }
        self.take_text(line)?;
        Ok(line.ends_with("COMMIT;") || line.ends_with("ROLLBACK;"))
    }

    fn take_variable(&mut self, alloc: Global, line: &str) -> Result<()> {
        let variable = read_variable(alloc, line)?;
        self.variables.push(variable)?;
        Ok(())
    }

    fn take_text(&mut self, line: &str) -> Result<()> {
        self.text.push_str(line)?;
        self.text.push_str("\n")?;
        Ok(())
    }

    /// What is bound in it, where it was put so many times before; or the first value that can't be bound.
    pub(crate) fn bound(
        &self,
        alloc: Global,
        before: i64,
    ) -> Result<Vec<BoundVariable>, Refusal<BindingFault>> {
        let mut bound = Vec::new(alloc);
        for (number, variable) in self.variables.iter().enumerate() {
            match bound_variable(alloc, variable, before) {
                Ok(variable) => bound.push(variable)?,
                Err(Refusal::Memory) => return Err(Refusal::Memory),
                Err(Refusal::Fault(fault)) => {
                    return Err(Refusal::Fault(BindingFault::Value(number, fault)));
                }
            }
        }
        Ok(bound)
    }
}

/// `@NAME int N`, `@NAME text T` or `@NAME count N`
fn read_variable(alloc: Global, line: &str) -> Result<GivenVariable> {
    let (name, rest) = line.split_once(' ').context("a host variable's value")?;
    let (kind, value) = rest.split_once(' ').context("a kind and a value")?;
    let name = name.strip_prefix("@").context("a host variable")?;
    Ok(GivenVariable {
        name: name_of(alloc, name)?,
        given: read_given(alloc, kind, value)?,
    })
}

fn read_given(alloc: Global, kind: &str, value: &str) -> Result<Given> {
    match kind {
        "int" => Ok(Given::Number(integer(value)?)),
        "text" => Ok(Given::Text(String::from_str(alloc, value)?)),
        "count" => Ok(Given::Count(integer(value)?)),
        _ => bail!("no kind is named so"),
    }
}

fn bound_variable(
    alloc: Global,
    variable: &GivenVariable,
    before: i64,
) -> Result<BoundVariable, Refusal<ValueFault>> {
    Ok(BoundVariable {
        name: Name::new(alloc, variable.name.as_bytes())?,
        value: value_of(alloc, &variable.given, before)?,
    })
}

fn value_of(alloc: Global, given: &Given, before: i64) -> Result<BoundValue, Refusal<ValueFault>> {
    match given {
        Given::Number(number) => number_of(*number),
        Given::Count(first) => number_of(first.saturating_add(before)),
        Given::Text(text) => BoundValue::text(alloc, text.as_bytes()),
    }
}

fn number_of(number: i64) -> Result<BoundValue, Refusal<ValueFault>> {
    match BoundValue::number(number) {
        Ok(value) => Ok(value),
        Err(fault) => Err(Refusal::Fault(fault)),
    }
}
