//! What is said where a name stands for two things, or a thing stands twice.
use crate::mark::{Mark, is_one};
use crate::scene::Scene;
use crate::words::{Wording, listed};
use ent_excerpt::Place;
use std::alloc::AllocError;

/// A plain name that two sources have as a column, or two sources that go by one name.
pub(crate) fn ambiguous(scene: &Scene<'_>) -> Result<Wording, AllocError> {
    let alloc = scene.alloc;
    let name = scene.word();
    if is_source(scene) {
        let sentence = format!(in alloc; "two sources go by the name {name}")?;
        return Wording::hinted(alloc, sentence, "give one of them an alias of its own");
    }
    let hint = Some(qualified_hint(scene, name)?);
    let sentence = format!(in alloc; "two sources have a column {name}")?;
    Ok(Wording { sentence, hint })
}

/// By which qualifiers the columns of this name are told apart.
fn qualified_hint(scene: &Scene<'_>, name: &str) -> Result<String, AllocError> {
    let alloc = scene.alloc;
    let qualifiers = qualifiers_of(scene, name)?;
    let between = format!(in alloc; ".{name}, ")?;
    let last = format!(in alloc; ".{name} or ")?;
    let (between, last) = (between.as_str(), last.as_str());
    let list = listed(alloc, qualifiers.as_slice(), between, last)?;
    format!(in alloc; "write {list}.{name}")
}

/// The names of the sources that have a column of this name.
fn qualifiers_of<'a>(scene: &Scene<'a>, name: &str) -> Result<Vec<&'a str>, AllocError> {
    let mut qualifiers: Vec<&'a str> = Vec::new(scene.alloc);
    for source in &scene.sources()? {
        if let Some(table) = scene.table(source.table)
            && table.column(name).is_some()
        {
            qualifiers.push(source.name)?;
        }
    }
    Ok(qualifiers)
}

/// Whether the place stands in a FROM.
fn is_source(scene: &Scene<'_>) -> bool {
    for mark in scene.passed().iter().rev() {
        if mark.is_of("FROM") {
            return true;
        }
        if !mark.is_of("AS <name> ,") {
            return false;
        }
    }
    false
}

/// What is declared, assigned, named or bound twice.
#[derive(Clone, Copy)]
struct RepeatedThing {
    /// The token that begins the statement ([`Mark::is_of`]); an empty text is any.
    first: &'static str,
    /// The tokens that can stand before such a thing.
    leads: &'static str,
    /// What is said before its name, and behind it.
    says: [&'static str; 2],
}

const ASSIGNMENT: RepeatedThing = RepeatedThing {
    first: "UPDATE",
    leads: "SET ,",
    says: ["the column ", "is assigned twice"],
};

/// What isn't an assignment.
static OTHER_THINGS: [RepeatedThing; 4] = [
    RepeatedThing {
        first: "CREATE",
        leads: "TABLE",
        says: ["the table ", "is declared twice"],
    },
    RepeatedThing {
        first: "CREATE",
        leads: "( ,",
        says: ["the column ", "is declared twice"],
    },
    RepeatedThing {
        first: "",
        leads: "ANSWER",
        says: ["the answer relation ", "is named twice"],
    },
    RepeatedThing {
        first: "",
        leads: "AS",
        says: ["", "is given a value twice in one statement"],
    },
];

/// What stands at the place.
fn repeated_at(scene: &Scene<'_>) -> RepeatedThing {
    for thing in &OTHER_THINGS {
        let is_first = thing.first.is_empty() || scene.begins_with(thing.first);
        if is_first && scene.is_at(-1, thing.leads) {
            return *thing;
        }
    }
    ASSIGNMENT
}

/// A thing that stands a second time.
pub(crate) fn repeated(scene: &Scene<'_>) -> Result<Wording, AllocError> {
    let alloc = scene.alloc;
    let name = scene.word();
    let thing = repeated_at(scene);
    let [lead, end] = thing.says;
    let hint = match first_of(scene, thing.leads) {
        Some(start) => {
            let place = Place::of(scene.text, start);
            Some(format!(in alloc; "the first stands at {place}")?)
        }
        None => None,
    };
    let sentence = format!(in alloc; "{lead}{name} {end}")?;
    Ok(Wording { sentence, hint })
}

/// Where the first of the two stands, of things that these tokens can stand before. A table is declared by another
/// statement.
fn first_of(scene: &Scene<'_>, leads: &str) -> Option<usize> {
    if scene.is_at(-1, "TABLE") {
        return Some(scene.table(scene.word())?.name.start);
    }
    let mut last: Option<Mark<'_>> = None;
    for mark in scene.statement() {
        if mark.text == scene.word() && is_one(last.as_ref(), leads) {
            return Some(mark.start);
        }
        last = Some(*mark);
    }
    None
}
