//! What is said of faults of form.
use crate::absent::absent_word;
use crate::counts::arity;
use crate::expected::can_compare;
use crate::mark::{Mark, is_one};
use crate::names::{meant, nearest};
use crate::repeated::{ambiguous, repeated};
use crate::scene::Scene;
use crate::typed::wrong_kind;
use crate::words::{Wording, has_name, listed};
use ent_form::FormFault;
use std::alloc::AllocError;

/// The most tables or columns that are named where none is near.
const MOST_NAMED: usize = 8;

/// What is said of the first fault of form.
pub(crate) fn form_fault(scene: &Scene<'_>, fault: FormFault) -> Result<Wording, AllocError> {
    match fault {
        FormFault::NoTable(_) => no_table(scene),
        FormFault::NoColumn(_) => no_column(scene),
        FormFault::Arity(_) => arity(scene),
        FormFault::WrongKind(_) => wrong_kind(scene),
        FormFault::Unbound(_) => unbound(scene),
        FormFault::NoHostVariable(_) => no_host_variable(scene),
        FormFault::Ambiguous(_) => ambiguous(scene),
        FormFault::Repeated(_) => repeated(scene),
    }
}

/// No table of this name, or no source that goes by it.
fn no_table(scene: &Scene<'_>) -> Result<Wording, AllocError> {
    let alloc = scene.alloc;
    let name = scene.word();
    if scene.is_at(1, ".") {
        let hint = source_hint(scene, name)?;
        let sentence = format!(in alloc; "no source goes by the name {name} here")?;
        return Ok(Wording { sentence, hint });
    }
    let hint = table_hint(scene, name)?;
    let sentence = format!(in alloc; "there is no table {name}")?;
    Ok(Wording { sentence, hint })
}

/// What helps where there is no such table.
fn table_hint(scene: &Scene<'_>, name: &str) -> Result<Option<String>, AllocError> {
    let alloc = scene.alloc;
    if has_name(scene.relations.as_slice(), name) {
        return Ok(Some(format!(in alloc; "{name} is an answer relation, and no table")?));
    }
    let mut names: Vec<&str> = Vec::new(alloc);
    for table in &scene.tables {
        names.push(table.name.text)?;
    }
    hint_among(scene, name, names.as_slice(), "the tables are")
}

/// What helps where no source goes by this name.
fn source_hint(scene: &Scene<'_>, name: &str) -> Result<Option<String>, AllocError> {
    let alloc = scene.alloc;
    let mut names: Vec<&str> = Vec::new(alloc);
    for source in &scene.sources()? {
        if source.table == name {
            let alias = source.name;
            return Ok(Some(format!(in alloc; "{name} goes by {alias} here")?));
        }
        names.push(source.name)?;
    }
    hint_among(scene, name, names.as_slice(), "the sources are")
}

/// The name that was meant; else all that there are, where they are few.
fn hint_among(
    scene: &Scene<'_>,
    name: &str,
    names: &[&str],
    what: &str,
) -> Result<Option<String>, AllocError> {
    let alloc = scene.alloc;
    let near = meant(alloc, name, names)?;
    if near.is_some() || names.is_empty() || names.len() > MOST_NAMED {
        return Ok(near);
    }
    let list = listed(alloc, names, ", ", " and ")?;
    Ok(Some(format!(in alloc; "{what} {list}")?))
}

/// No column of this name in the sources here.
fn no_column(scene: &Scene<'_>) -> Result<Wording, AllocError> {
    let alloc = scene.alloc;
    let name = scene.word();
    let is_qualified = scene.is_at(-1, ".");
    let qualifier = if is_qualified { scene.token(-2) } else { None };
    let tables = tables_of(scene, qualifier)?;
    let hint = column_hint(scene, name, tables.as_slice(), is_qualified)?;
    let list = listed(alloc, tables.as_slice(), ", ", " and ")?;
    let sentence = match tables.len() {
        1 => format!(in alloc; "{list} has no column {name}")?,
        _ => format!(in alloc; "none of {list} has a column {name}")?,
    };
    Ok(Wording { sentence, hint })
}

/// The tables of the sources here: of those that go by the qualifier or, without one, of all.
fn tables_of<'a>(
    scene: &Scene<'a>,
    qualifier: Option<Mark<'_>>,
) -> Result<Vec<&'a str>, AllocError> {
    let mut tables: Vec<&'a str> = Vec::new(scene.alloc);
    for source in &scene.sources()? {
        if let Some(mark) = qualifier
            && mark.text != source.name
        {
            continue;
        }
        tables.push(source.table)?;
    }
    Ok(tables)
}

/// What helps where there is no such column: a near name, a word of SQL, or quotes, where a text may be meant.
fn column_hint(
    scene: &Scene<'_>,
    name: &str,
    tables: &[&str],
    is_qualified: bool,
) -> Result<Option<String>, AllocError> {
    let alloc = scene.alloc;
    let columns = scene.columns_of(tables)?;
    if let Some(near) = meant(alloc, name, columns.as_slice())? {
        return Ok(Some(near));
    }
    if let Some(absent) = absent_word(alloc, name, false)? {
        return Ok(Some(absent));
    }
    if !is_qualified && is_right_side(scene)? {
        return Ok(Some(format!(in alloc; "a text is written in quotes: '{name}'")?));
    }
    hint_among(scene, name, columns.as_slice(), "the columns are")
}

/// Whether the place is the right side of a comparison.
fn is_right_side(scene: &Scene<'_>) -> Result<bool, AllocError> {
    match scene.token(-1) {
        Some(mark) => can_compare(scene.alloc, mark.text),
        None => Ok(false),
    }
}

/// A written variable without a value.
fn unbound(scene: &Scene<'_>) -> Result<Wording, AllocError> {
    let alloc = scene.alloc;
    let name = scene.word();
    let hint = Some(unbound_hint(scene, name)?);
    let sentence = format!(in alloc;
        "{name} has no value: it stands in no tuple with IN (SELECT ..) of its statement"
    )?;
    Ok(Wording { sentence, hint })
}

/// What helps: another variable's name, a column that the variable may stand for, or quotes.
fn unbound_hint(scene: &Scene<'_>, name: &str) -> Result<String, AllocError> {
    let alloc = scene.alloc;
    let others = scene.variables()?;
    if let Some(other) = nearest(alloc, name, others.as_slice())? {
        return format!(in alloc; "did you mean {other}?");
    }
    for table in &scene.tables {
        if table.column(name).is_some() {
            let from = table.name.text;
            return format!(in alloc; "{name} IN (SELECT {name} FROM {from}) gives it one");
        }
    }
    format!(in alloc; "a text is written in quotes: '{name}'")
}

/// A host variable without a value.
fn no_host_variable(scene: &Scene<'_>) -> Result<Wording, AllocError> {
    let alloc = scene.alloc;
    let name = scene.word();
    let hint = if is_bound_elsewhere(scene, name) {
        Some(format!(in alloc; "AS {name} gives it one for the statements behind this one")?)
    } else {
        let others = scene.host_variables()?;
        hint_among(scene, name, others.as_slice(), "those that have one are")?
    };
    let sentence = format!(in alloc;
        "{name} has no value: no earlier statement of its script gives it one"
    )?;
    Ok(Wording { sentence, hint })
}

/// Whether the statement gives a host variable a value by AS, elsewhere than at the place.
fn is_bound_elsewhere(scene: &Scene<'_>, name: &str) -> bool {
    let mut last: Option<Mark<'_>> = None;
    for mark in scene.statement() {
        let is_other = mark.text == name && mark.start != scene.offset;
        if is_other && is_one(last.as_ref(), "AS") {
            return true;
        }
        last = Some(*mark);
    }
    false
}
