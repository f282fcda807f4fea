//! A fault, explained.
ghost use Rattle.std.specs.Prelude.{◌≢◌, ◌↔◌, IfOk, IfSome, IsNone};
ghost use Rattle.std.specs.Str.{IsCharBoundary};
ghost use Rattle.ent_input.specs.Fault.{place_of};
ghost use Rattle.ent_input.specs.declared.fault.InputFault.TheVariants.{TooLong};
ghost use Rattle.ent_excerpt.specs.Place.{IsPlaceAt};
ghost use Rattle.ent_excerpt.specs.Excerpt.{IsExcerptAt};

use crate::character::{text_fault, word_length};
use crate::form::form_fault;
use crate::grammar::{too_many, unexpected};
use crate::mark::Sort;
use crate::scene::Scene;
use crate::schema::tables_of;
use crate::tokens::scene_at;
use crate::whole::Whole;
use crate::words::Wording;
use ent_excerpt::{Excerpt, Line, Place, columns};
use ent_input::InputFault;
use ent_sql::SqlFault;
use ent_tree::Opening;
use std::alloc::{AllocError, Global};
use std::fmt;

/// What is said of a fault: where it stands, one sentence of what is wrong, the line with carets below the place, and
/// where something helps a second sentence. Printed it is lines without an end of the last.
#[derive(Debug, Drop)]
pub struct Explanation<'a> {
    pub place: Place,
    pub sentence: String,
    pub excerpt: Excerpt<'a>,
    pub hint: Option<String>,
}

/// Explains a fault over the text of the input that has it; none, where the fault has no place.
pub fn explain_fault<'a>(
    alloc: Global,
    text: &'a str,
    fault: InputFault,
) -> Result<Option<Explanation<'a>>, AllocError>
    ensures explained { IfOk result (λ told. IsNone told ↔ IsNone (place_of fault)) }
    ensures place { IfOk result (λ told. IfSome told (λ told. IfSome (place_of fault) (λ offset.
        IsCharBoundary text.now offset → IsPlaceAt text.now offset told.place))) }
    ensures excerpt { IfOk result (λ told. IfSome told (λ told. IfSome (place_of fault) (λ offset.
        IsCharBoundary text.now offset → IsExcerptAt text.now offset told.excerpt))) }
{
    let Some(offset) = fault.place() else {
        return Ok(None);
    };
    let scene = Scene::new(alloc, Whole::Input, text, offset);
    Ok(Some(explained(scene_at(scene)?, text, fault, offset)?))
}

/// Explains a fault over the text of the script that has it, which stands alone in its text; none, where the fault has
/// no place. The declared tables are those of an opening.
pub fn explain_script_fault<'a>(
    alloc: Global,
    opening: &Opening,
    text: &'a str,
    fault: InputFault,
) -> Result<Option<Explanation<'a>>, AllocError>
    ensures explained { IfOk result (λ told. IsNone told ↔ IsNone (place_of fault)) }
    ensures place { IfOk result (λ told. IfSome told (λ told. IfSome (place_of fault) (λ offset.
        IsCharBoundary text.now offset → IsPlaceAt text.now offset told.place))) }
    ensures excerpt { IfOk result (λ told. IfSome told (λ told. IfSome (place_of fault) (λ offset.
        IsCharBoundary text.now offset → IsExcerptAt text.now offset told.excerpt))) }
{
    let Some(offset) = fault.place() else {
        return Ok(None);
    };
    let mut scene = Scene::new(alloc, Whole::Script, text, offset);
    scene.tables = tables_of(alloc, opening)?;
    Ok(Some(explained(scene_at(scene)?, text, fault, offset)?))
}

/// Explains a fault of a text at its place, with what stands around it.
fn explained<'a>(
    scene: Scene<'_>,
    text: &'a str,
    fault: InputFault,
    offset: usize,
) -> Result<Explanation<'a>, AllocError>
    requires { fault ≢ TooLong }
    ensures place { IfOk result (λ told. IsCharBoundary text.now offset → IsPlaceAt text.now offset told.place) }
    ensures excerpt { IfOk result (λ told. IsCharBoundary text.now offset
        → IsExcerptAt text.now offset told.excerpt) }
{
    let Wording { sentence, hint } = told(&scene, fault)?;
    let place = Place::of(text, offset);
    let line = Line::of(text, offset);
    let excerpt = Excerpt::of(line, marked(&scene));
    Ok(Explanation {
        place,
        sentence,
        excerpt,
        hint,
    })
}

/// The sentence and the hint.
fn told(scene: &Scene<'_>, fault: InputFault) -> Result<Wording, AllocError>
    requires { fault ≢ TooLong }
{
    match fault {
        InputFault::NotUtf8(_) => not_utf8(scene),
        InputFault::Sql(SqlFault::Text(fault)) => text_fault(scene, fault),
        InputFault::Sql(SqlFault::Unexpected(_)) => unexpected(scene),
        InputFault::Sql(SqlFault::TooMany(_)) => too_many(scene),
        InputFault::Form(fault) => form_fault(scene, fault),
        InputFault::TooLong => unreachable!(),
    }
}

/// A text that isn't UTF-8 behind its end.
fn not_utf8(scene: &Scene<'_>) -> Result<Wording, AllocError> {
    let alloc = scene.alloc;
    let sentence = format!(in alloc; "what stands here isn't UTF-8")?;
    let hint = match scene.whole {
        Whole::Input => "an input is a text in UTF-8",
        Whole::Script => "a script is a text in UTF-8",
    };
    Wording::hinted(alloc, sentence, hint)
}

/// How many columns are marked: those of the token at the place; where a fault of tokens stands, those of the word that
/// its text begins with, and of the `@` before it.
fn marked(scene: &Scene<'_>) -> usize {
    let Some(mark) = scene.token(0) else {
        return 1;
    };
    match mark.sort {
        Sort::Faulty => match mark.text.strip_prefix('@') {
            Some(word) => word_length(word).saturating_add(1),
            None => word_length(mark.text),
        },
        _ => columns(mark.text),
    }
}

impl fmt::Display for Explanation<'_> {
    fn fmt<W: fmt::Write>(&self, f: &mut fmt::Formatter<W>) -> fmt::Result {
        let place = self.place;
        let sentence = self.sentence.as_str();
        let excerpt = self.excerpt;
        write!(f, "{place}: {sentence}\n{excerpt}")?;
        if let Some(hint) = &self.hint {
            let hint = hint.as_str();
            write!(f, "\n{hint}")?;
        }
        Ok(())
    }
}
