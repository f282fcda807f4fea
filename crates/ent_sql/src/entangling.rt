//! Entangled SELECT, and how a SELECT goes on behind its list.
ghost use Rattle.std.specs.Prelude.{◌≡◌, ◌<◌, Ok, IfOk, IfErr, length, map};
ghost use Rattle.ent_value.specs.declared.refusal.Refusal.TheVariants.{Memory};
ghost use Rattle.ent_tree.specs.declared.limits.TheConstants.{MOST_PARTS};
ghost use Rattle.ent_value.specs.Refusal.{Gives};
ghost use Rattle.ent_text.specs.Grammar.{reads};
ghost use Rattle.ent_sql.specs.Entangling.{is_term, are_terms, term_of, unbound, items_of, binding};
ghost use Rattle.ent_sql.specs.Entangling.{entangled_item, entangled_items};
ghost use Rattle.ent_sql.specs.Entangling.{entangled_behind, ordinary, entangled, query};

use crate::condition::{conditions_at, one_at};
use crate::front::begins_with_operand;
use crate::list::{Item, appended, listed};
use crate::operand::{name_at, variable_at};
use crate::select::select_behind;
use ent_text::{
    Divider, GrammarFault, Keyword, Symbol, Tokens, begins_with_sign, begins_with_word, sign_at,
    word_at,
};
use ent_tree::{Entangled, EntangledItem, Identifier, Items, MOST_PARTS, Operand, Statement, Term};
use ent_value::{Limited, Refusal};
use std::alloc::Global;

/// Whether an operand can stand in an entangled statement, where no column is qualified.
fn is_term(operand: &Operand) -> bool
    ensures { result ≡ is_term operand.now }
{
    match operand {
        Operand::Value(_) => true,
        Operand::Column(column) => match &column.qualifier {
            None => true,
            Some(_) => false,
        },
    }
}

/// Whether all of these operands can stand in an entangled statement.
fn are_terms(operands: &[Operand]) -> bool
    ensures { result ≡ are_terms operands.now }
{
    let mut rest = operands;
    while let [first, others @ ..] = rest {
        if !is_term(first) {
            return false;
        }
        rest = others;
    }
    true
}

/// The operand read as a term: a plain name is a written variable.
fn term_of(operand: Operand) -> Term
    ensures { result ≡ term_of operand }
{
    match operand {
        Operand::Value(value) => Term::Value(value),
        Operand::Column(column) => Term::Variable(column.column),
    }
}

/// The operands read as items that bind nothing, with room for one more.
fn unbound_items(
    alloc: Global,
    operands: Vec<Operand>,
) -> Result<Limited<EntangledItem, MOST_PARTS>, Refusal<GrammarFault>>
    requires { length operands.items < MOST_PARTS }
    ensures value { IfOk result (λ items. items ≡ map unbound operands.items) }
    ensures memory { IfErr result (λ refusal. refusal ≡ Memory) }
{
    let mut items = Limited::with_capacity(alloc, operands.len() + 1)?;
    for operand in operands {
        let term = term_of(operand);
        let binds = None;
        items.push(EntangledItem { term, binds })?;
    }
    Ok(items)
}

/// The operands read as items, the last of which may bind a host variable.
fn items_of(
    alloc: Global,
    operands: Limited<Operand, MOST_PARTS>,
    binds: Option<Identifier>,
) -> Result<Limited<EntangledItem, MOST_PARTS>, Refusal<GrammarFault>>
    ensures { Gives (λ items. items) result (Ok (items_of operands binds)) }
{
    let mut others = operands.into_vec();
    match others.pop() {
        None => Ok(Limited::new(alloc)),
        Some(last) => {
            let mut items = unbound_items(alloc, others)?;
            let term = term_of(last);
            items.push(EntangledItem { term, binds })?;
            Ok(items)
        }
    }
}

#[tactic(auto, unfolding(crate::specs::Entangling::binding))]
fn binding_at(
    alloc: Global,
    end: usize,
    tokens: &mut Tokens<'_>,
) -> Result<Option<Identifier>, Refusal<GrammarFault>>
    ensures { Gives (λ x. (x, tokens.new)) result (reads binding end tokens.old) }
{
    if begins_with_word(Keyword::As, tokens) {
        word_at(Keyword::As, end, tokens)?;
        let variable = variable_at(alloc, end, tokens)?;
        Ok(Some(variable))
    } else {
        Ok(None)
    }
}

#[tactic(auto, unfolding(crate::specs::Entangling::entangled_item))]
fn entangled_item_at(
    alloc: Global,
    end: usize,
    tokens: &mut Tokens<'_>,
) -> Result<EntangledItem, Refusal<GrammarFault>>
    ensures { Gives (λ x. (x, tokens.new)) result (reads entangled_item end tokens.old) }
{
    let term = Term::read(alloc, end, tokens)?;
    let binds = binding_at(alloc, end, tokens)?;
    Ok(EntangledItem { term, binds })
}

impl Item for EntangledItem {
    ghost use Rattle.ent_sql.specs.Entangling.{entangled_item};

    ghost grammar = { entangled_item };

    #[tactic(auto, unfolding(crate::specs::Entangling::entangled_item, crate::specs::Operands::term, crate::specs::Operands::operand, crate::specs::Operands::column_reference, crate::specs::Operands::identifier, crate::specs::Operands::value, crate::specs::Operands::host_variable, crate::specs::Operands::literal, crate::specs::Operands::negative, crate::specs::Operands::unsigned, crate::specs::Operands::positive, crate::specs::Operands::quoted))]
    fn is_start(tokens: &Tokens<'_>) -> bool {
        begins_with_operand(tokens)
    }

    fn read(
        alloc: Global,
        end: usize,
        tokens: &mut Tokens<'_>,
    ) -> Result<Self, Refusal<GrammarFault>> {
        entangled_item_at(alloc, end, tokens)
    }
}

/// The items of an entangled statement, behind the operands before its first AS.
#[tactic(auto, unfolding(crate::specs::Entangling::entangled_items))]
fn entangled_items_at(
    alloc: Global,
    operands: Limited<Operand, MOST_PARTS>,
    end: usize,
    tokens: &mut Tokens<'_>,
) -> Result<Limited<EntangledItem, MOST_PARTS>, Refusal<GrammarFault>>
    ensures { Gives (λ x. (x, tokens.new)) result (reads (entangled_items operands) end tokens.old) }
{
    if begins_with_word(Keyword::As, tokens) {
        word_at(Keyword::As, end, tokens)?;
        let variable = variable_at(alloc, end, tokens)?;
        let items = items_of(alloc, operands, Some(variable))?;
        appended(alloc, Divider::Comma, items, end, tokens)
    } else {
        let items = items_of(alloc, operands, None)?;
        Ok(items)
    }
}

/// The entangled statement with these items, from its INTO on.
#[tactic(auto, unfolding(crate::specs::Entangling::entangled_behind))]
fn entangled_behind(
    alloc: Global,
    items: Limited<EntangledItem, MOST_PARTS>,
    end: usize,
    tokens: &mut Tokens<'_>,
) -> Result<Entangled, Refusal<GrammarFault>>
    ensures { Gives (λ x. (x, tokens.new)) result (reads (entangled_behind items) end tokens.old) }
{
    let place = word_at(Keyword::Into, end, tokens)?;
    let relations = listed(alloc, Divider::Comma, end, tokens)?;
    let conditions = conditions_at(alloc, end, tokens)?;
    word_at(Keyword::Choose, end, tokens)?;
    one_at(end, tokens)?;
    Ok(Entangled {
        items,
        place,
        relations,
        conditions,
    })
}

#[tactic(auto, unfolding(crate::specs::Entangling::ordinary))]
fn ordinary_at(
    alloc: Global,
    operands: Limited<Operand, MOST_PARTS>,
    end: usize,
    tokens: &mut Tokens<'_>,
) -> Result<Statement, Refusal<GrammarFault>>
    ensures { Gives (λ x. (x, tokens.new)) result (reads (ordinary operands) end tokens.old) }
{
    let select = select_behind(alloc, Items::Listed(operands), end, tokens)?;
    Ok(Statement::Select(select))
}

#[tactic(auto, unfolding(crate::specs::Entangling::entangled))]
fn entangled_at(
    alloc: Global,
    operands: Limited<Operand, MOST_PARTS>,
    end: usize,
    tokens: &mut Tokens<'_>,
) -> Result<Statement, Refusal<GrammarFault>>
    ensures { Gives (λ x. (x, tokens.new)) result (reads (entangled operands) end tokens.old) }
{
    let items = entangled_items_at(alloc, operands, end, tokens)?;
    let entangled = entangled_behind(alloc, items, end, tokens)?;
    Ok(Statement::Entangled(entangled))
}

/// A SELECT of either kind: what stands behind its list decides.
#[tactic(auto, unfolding(crate::specs::Entangling::query, crate::specs::Entangling::ordinary, crate::specs::Selects::select_behind))]
pub(crate) fn query_at(
    alloc: Global,
    end: usize,
    tokens: &mut Tokens<'_>,
) -> Result<Statement, Refusal<GrammarFault>>
    ensures { Gives (λ x. (x, tokens.new)) result (reads query end tokens.old) }
{
    word_at(Keyword::Select, end, tokens)?;
    if begins_with_sign(Symbol::Star, tokens) {
        sign_at(Symbol::Star, end, tokens)?;
        let select = select_behind(alloc, Items::All, end, tokens)?;
        Ok(Statement::Select(select))
    } else {
        let operands = listed(alloc, Divider::Comma, end, tokens)?;
        let may_be_entangled = are_terms(operands.as_slice());
        if may_be_entangled {
            if begins_with_word(Keyword::From, tokens) {
                ordinary_at(alloc, operands, end, tokens)
            } else {
                entangled_at(alloc, operands, end, tokens)
            }
        } else {
            ordinary_at(alloc, operands, end, tokens)
        }
    }
}
