//! What is said of faults of the grammar.
use crate::absent::absent_word;
use crate::expected::{Expected, can_begin};
use crate::hints::{IN_NAMINGS, NOT_NULL, fixed_hint, hint_among};
use crate::mark::{Mark, is_one};
use crate::misspelt::misspelt;
use crate::scene::Scene;
use crate::words::{Wording, listed};
use ent_tree::{
    MOST_OPENING_ROWS, MOST_PARTS, MOST_RUNS, MOST_SCRIPTS, MOST_SOURCES, MOST_STATEMENTS,
    MOST_TABLES,
};
use std::alloc::AllocError;

/// A token that can't follow what stands before it.
pub(crate) fn unexpected(scene: &Scene<'_>) -> Result<Wording, AllocError> {
    let alloc = scene.alloc;
    let expected = Expected::behind(alloc, scene.whole, scene.lead_up_to(scene.offset))?;
    // A comma may be among them.
    let list = listed(alloc, expected.things.as_slice(), " or ", " or ")?;
    let Some(found) = scene.token(0) else {
        let whole = scene.whole.name();
        let sentence = format!(in alloc; "the {whole} ends here, and {list} is missing")?;
        return Ok(Wording::plain(sentence));
    };
    let word = found.text;
    let hint = hint_at(scene, &found, &expected)?;
    let sentence = format!(in alloc; "{word} can't stand here: expected {list}")?;
    Ok(Wording { sentence, hint })
}

/// What helps where a token can't stand.
fn hint_at(
    scene: &Scene<'_>,
    found: &Mark<'_>,
    expected: &Expected,
) -> Result<Option<String>, AllocError> {
    let alloc = scene.alloc;
    if let Some(hint) = hint_among(&NOT_NULL, scene, expected, false) {
        return Ok(Some(String::from_str(alloc, hint)?));
    }
    if let Some(before) = scene.token(-1)
        && before.is_name()
        && let Some(absent) = absent_word(alloc, before.text, true)?
    {
        return Ok(Some(absent));
    }
    if let Some(absent) = absent_word(alloc, found.text, false)? {
        return Ok(Some(absent));
    }
    if scene.is_at(0, "<number>") && scene.is_at(-1, "WITHIN") {
        let most = MOST_RUNS;
        return Ok(Some(format!(in alloc; "a script asks for 1 to {most} runs")?));
    }
    let is_start = can_begin(alloc, found.text)?;
    if let Some(hint) = fixed_hint(scene, expected, is_start) {
        return Ok(Some(String::from_str(alloc, hint)?));
    }
    let is_named = found.is_name() && scene.is_at(-1, "AS");
    if is_named && expected.has("a host variable") && scene.has_into() {
        let word = found.text;
        return Ok(Some(format!(in alloc; "a host variable begins with @: AS @{word}")?));
    }
    if let Some(hint) = hint_among(&IN_NAMINGS, scene, expected, is_start) {
        return Ok(Some(String::from_str(alloc, hint)?));
    }
    misspelt(scene, found, expected)
}

/// How many there may be of something.
#[derive(Clone, Copy)]
struct Limit {
    /// The tokens that tell of what there are too many.
    at: &'static str,
    things: &'static str,
    /// What has them.
    holder: &'static str,
    most: usize,
}

/// Of what there are too many behind a comma: the nearest of these words before it tells.
static OF_LISTS: [Limit; 7] = [
    Limit {
        at: "FROM",
        things: "sources",
        holder: "a FROM has",
        most: MOST_SOURCES,
    },
    Limit {
        at: "SELECT",
        things: "items",
        holder: "a SELECT has",
        most: MOST_PARTS,
    },
    Limit {
        at: "VALUES",
        things: "values",
        holder: "a row has",
        most: MOST_PARTS,
    },
    Limit {
        at: "ANSWER",
        things: "answer relations",
        holder: "an INTO has",
        most: MOST_PARTS,
    },
    Limit {
        at: "SET",
        things: "assignments",
        holder: "an UPDATE has",
        most: MOST_PARTS,
    },
    Limit {
        at: "TABLE",
        things: "columns",
        holder: "a table has",
        most: MOST_PARTS,
    },
    Limit {
        at: "WHERE AND",
        things: "terms",
        holder: "a tuple has",
        most: MOST_PARTS,
    },
];

/// Of what there are too many elsewhere, if one of these words stands at the place.
static OF_INPUTS: [Limit; 2] = [
    Limit {
        at: "CREATE",
        things: "tables",
        holder: "an input declares",
        most: MOST_TABLES,
    },
    Limit {
        at: "BEGIN",
        things: "scripts",
        holder: "an input has",
        most: MOST_SCRIPTS,
    },
];

/// A thing beyond a limit.
pub(crate) fn too_many(scene: &Scene<'_>) -> Result<Wording, AllocError> {
    let alloc = scene.alloc;
    let sentence = if scene.is_at(-1, "WITHIN") {
        let most = MOST_RUNS;
        format!(in alloc; "there are too many runs: a script asks for 1 to {most}")?
    } else {
        let Limit {
            things,
            holder,
            most,
            ..
        } = limit_at(scene);
        format!(in alloc; "there are too many {things}: {holder} at most {most}")?
    };
    Ok(Wording::plain(sentence))
}

fn limit_on(things: &'static str, holder: &'static str, most: usize) -> Limit {
    Limit {
        at: "",
        things,
        holder,
        most,
    }
}

/// The first of some limits of which a token tells.
fn limit_of(mark: Option<&Mark<'_>>, limits: &[Limit]) -> Option<Limit> {
    for limit in limits {
        if is_one(mark, limit.at) {
            return Some(*limit);
        }
    }
    None
}

/// Of what there are too many, and how many there can be.
fn limit_at(scene: &Scene<'_>) -> Limit {
    if scene.is_at(-1, ",") {
        return limit_of_list(scene);
    }
    if scene.is_at(-1, "AND") {
        return limit_on("conditions", "a WHERE has", MOST_PARTS);
    }
    let is_in_script = is_one(scene.passed().first(), "BEGIN");
    match limit_of(scene.token(0).as_ref(), &OF_INPUTS) {
        Some(limit) => limit,
        None if is_in_script => limit_on("statements", "a script has", MOST_STATEMENTS),
        None => limit_on("opening rows", "an input has", MOST_OPENING_ROWS),
    }
}

/// Of what there are too many behind a comma.
fn limit_of_list(scene: &Scene<'_>) -> Limit {
    for mark in scene.passed().iter().rev() {
        if let Some(limit) = limit_of(Some(mark), &OF_LISTS) {
            return limit;
        }
    }
    limit_on("parts", "a list has", MOST_PARTS)
}
