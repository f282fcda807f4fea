//! Declarations of tables, and rows that are put in.
ghost use Rattle.std.specs.Prelude.{◌≡◌};
ghost use Rattle.ent_value.specs.Refusal.{Gives};
ghost use Rattle.ent_text.specs.Grammar.{reads};
ghost use Rattle.ent_sql.specs.Tables.{kind, column, create, row, opening_row, insert};

use crate::front::begins_with_name;
use crate::list::{Item, listed};
use crate::operand::name_at;
use ent_text::{
    Divider, GrammarFault, Keyword, Symbol, Tokens, begins_with_word, sign_at, word_at,
};
use ent_tree::{
    Column, Create, Identifier, Insert, Literal, MOST_PARTS, OpeningRow, ValueSpecification,
};
use ent_value::{Kind, Limited, Refusal};
use std::alloc::Global;

#[tactic(auto, unfolding(crate::specs::Tables::kind))]
fn kind_at(end: usize, tokens: &mut Tokens<'_>) -> Result<Kind, Refusal<GrammarFault>>
    ensures { Gives (λ x. (x, tokens.new)) result (reads kind end tokens.old) }
{
    if begins_with_word(Keyword::Int, tokens) {
        word_at(Keyword::Int, end, tokens)?;
        Ok(Kind::Int)
    } else {
        word_at(Keyword::Text, end, tokens)?;
        Ok(Kind::Text)
    }
}

#[tactic(auto, unfolding(crate::specs::Tables::column))]
fn column_at(
    alloc: Global,
    end: usize,
    tokens: &mut Tokens<'_>,
) -> Result<Column, Refusal<GrammarFault>>
    ensures { Gives (λ x. (x, tokens.new)) result (reads column end tokens.old) }
{
    let name = name_at(alloc, end, tokens)?;
    let kind = kind_at(end, tokens)?;
    Ok(Column { name, kind })
}

impl Item for Column {
    ghost use Rattle.ent_sql.specs.Tables.{column};

    ghost grammar = { column };

    #[tactic(auto, unfolding(crate::specs::Tables::column, crate::specs::Operands::identifier))]
    fn is_start(tokens: &Tokens<'_>) -> bool {
        begins_with_name(tokens)
    }

    fn read(
        alloc: Global,
        end: usize,
        tokens: &mut Tokens<'_>,
    ) -> Result<Self, Refusal<GrammarFault>> {
        column_at(alloc, end, tokens)
    }
}

#[tactic(auto, unfolding(crate::specs::Tables::create))]
fn create_at(
    alloc: Global,
    end: usize,
    tokens: &mut Tokens<'_>,
) -> Result<Create, Refusal<GrammarFault>>
    ensures { Gives (λ x. (x, tokens.new)) result (reads create end tokens.old) }
{
    word_at(Keyword::Create, end, tokens)?;
    word_at(Keyword::Table, end, tokens)?;
    let name = name_at(alloc, end, tokens)?;
    sign_at(Symbol::Open, end, tokens)?;
    let columns = listed(alloc, Divider::Comma, end, tokens)?;
    sign_at(Symbol::Close, end, tokens)?;
    sign_at(Symbol::Semicolon, end, tokens)?;
    Ok(Create { name, columns })
}

impl Item for Create {
    ghost use Rattle.ent_sql.specs.Tables.{create};

    ghost grammar = { create };

    #[tactic(auto, unfolding(crate::specs::Tables::create))]
    fn is_start(tokens: &Tokens<'_>) -> bool {
        begins_with_word(Keyword::Create, tokens)
    }

    fn read(
        alloc: Global,
        end: usize,
        tokens: &mut Tokens<'_>,
    ) -> Result<Self, Refusal<GrammarFault>> {
        create_at(alloc, end, tokens)
    }
}

/// The table, the place of the first bracket and the values of an INSERT.
#[tactic(auto, unfolding(crate::specs::Tables::row))]
fn row_at<T: Item>(
    alloc: Global,
    end: usize,
    tokens: &mut Tokens<'_>,
) -> Result<(Identifier, usize, Limited<T, MOST_PARTS>), Refusal<GrammarFault>>
    ensures { Gives (λ x. (x, tokens.new)) result (reads (row T.grammar) end tokens.old) }
{
    word_at(Keyword::Insert, end, tokens)?;
    word_at(Keyword::Into, end, tokens)?;
    let table = name_at(alloc, end, tokens)?;
    word_at(Keyword::Values, end, tokens)?;
    let place = sign_at(Symbol::Open, end, tokens)?;
    let values = listed(alloc, Divider::Comma, end, tokens)?;
    sign_at(Symbol::Close, end, tokens)?;
    Ok((table, place, values))
}

#[tactic(auto, unfolding(crate::specs::Tables::opening_row))]
fn opening_row_at(
    alloc: Global,
    end: usize,
    tokens: &mut Tokens<'_>,
) -> Result<OpeningRow, Refusal<GrammarFault>>
    ensures { Gives (λ x. (x, tokens.new)) result (reads opening_row end tokens.old) }
{
    let row = row_at::<Literal>(alloc, end, tokens)?;
    sign_at(Symbol::Semicolon, end, tokens)?;
    let (table, place, values) = row;
    Ok(OpeningRow {
        table,
        place,
        values,
    })
}

impl Item for OpeningRow {
    ghost use Rattle.ent_sql.specs.Tables.{opening_row};

    ghost grammar = { opening_row };

    #[tactic(auto, unfolding(crate::specs::Tables::opening_row, crate::specs::Tables::row))]
    fn is_start(tokens: &Tokens<'_>) -> bool {
        begins_with_word(Keyword::Insert, tokens)
    }

    fn read(
        alloc: Global,
        end: usize,
        tokens: &mut Tokens<'_>,
    ) -> Result<Self, Refusal<GrammarFault>> {
        opening_row_at(alloc, end, tokens)
    }
}

#[tactic(auto, unfolding(crate::specs::Tables::insert))]
pub(crate) fn insert_at(
    alloc: Global,
    end: usize,
    tokens: &mut Tokens<'_>,
) -> Result<Insert, Refusal<GrammarFault>>
    ensures { Gives (λ x. (x, tokens.new)) result (reads insert end tokens.old) }
{
    let row = row_at::<ValueSpecification>(alloc, end, tokens)?;
    let (table, place, values) = row;
    Ok(Insert {
        table,
        place,
        values,
    })
}
