//! Statements.
ghost use Rattle.std.specs.Prelude.{◌≡◌};
ghost use Rattle.ent_value.specs.Refusal.{Gives};
ghost use Rattle.ent_text.specs.Grammar.{reads};
ghost use Rattle.ent_sql.specs.Statements.{delete, assignment, update, set, statement, ended_statement};

use crate::entangling::query_at;
use crate::front::begins_with_name;
use crate::list::{Item, listed};
use crate::operand::{name_at, variable_at};
use crate::select::tests_at;
use crate::table::insert_at;
use crate::test::expression_at;
use ent_text::{
    Divider, GrammarFault, Keyword, Symbol, Tokens, begins_with_word, sign_at, word_at,
};
use ent_tree::{Assignment, Delete, Operand, Set, Statement, Update, ValueSpecification};
use ent_value::Refusal;
use std::alloc::Global;

#[tactic(auto, unfolding(crate::specs::Statements::delete))]
fn delete_at(
    alloc: Global,
    end: usize,
    tokens: &mut Tokens<'_>,
) -> Result<Delete, Refusal<GrammarFault>>
    ensures { Gives (λ x. (x, tokens.new)) result (reads delete end tokens.old) }
{
    word_at(Keyword::Delete, end, tokens)?;
    word_at(Keyword::From, end, tokens)?;
    let table = name_at(alloc, end, tokens)?;
    let tests = tests_at(alloc, end, tokens)?;
    Ok(Delete { table, tests })
}

#[tactic(auto, unfolding(crate::specs::Statements::assignment))]
fn assignment_at(
    alloc: Global,
    end: usize,
    tokens: &mut Tokens<'_>,
) -> Result<Assignment, Refusal<GrammarFault>>
    ensures { Gives (λ x. (x, tokens.new)) result (reads assignment end tokens.old) }
{
    let column = name_at(alloc, end, tokens)?;
    sign_at(Symbol::Equal, end, tokens)?;
    let expression = expression_at::<Operand>(alloc, end, tokens)?;
    Ok(Assignment { column, expression })
}

impl Item for Assignment {
    ghost use Rattle.ent_sql.specs.Statements.{assignment};

    ghost grammar = { assignment };

    #[tactic(auto, unfolding(crate::specs::Statements::assignment, crate::specs::Operands::identifier))]
    fn is_start(tokens: &Tokens<'_>) -> bool {
        begins_with_name(tokens)
    }

    fn read(
        alloc: Global,
        end: usize,
        tokens: &mut Tokens<'_>,
    ) -> Result<Self, Refusal<GrammarFault>> {
        assignment_at(alloc, end, tokens)
    }
}

#[tactic(auto, unfolding(crate::specs::Statements::update))]
fn update_at(
    alloc: Global,
    end: usize,
    tokens: &mut Tokens<'_>,
) -> Result<Update, Refusal<GrammarFault>>
    ensures { Gives (λ x. (x, tokens.new)) result (reads update end tokens.old) }
{
    word_at(Keyword::Update, end, tokens)?;
    let table = name_at(alloc, end, tokens)?;
    word_at(Keyword::Set, end, tokens)?;
    let assignments = listed(alloc, Divider::Comma, end, tokens)?;
    let tests = tests_at(alloc, end, tokens)?;
    Ok(Update {
        table,
        assignments,
        tests,
    })
}

#[tactic(auto, unfolding(crate::specs::Statements::set))]
fn set_at(alloc: Global, end: usize, tokens: &mut Tokens<'_>) -> Result<Set, Refusal<GrammarFault>>
    ensures { Gives (λ x. (x, tokens.new)) result (reads set end tokens.old) }
{
    word_at(Keyword::Set, end, tokens)?;
    let variable = variable_at(alloc, end, tokens)?;
    sign_at(Symbol::Equal, end, tokens)?;
    let expression = expression_at::<ValueSpecification>(alloc, end, tokens)?;
    Ok(Set {
        variable,
        expression,
    })
}

#[tactic(auto, unfolding(crate::specs::Statements::statement, crate::specs::Statements::delete, crate::specs::Statements::update, crate::specs::Statements::set, crate::specs::Tables::insert, crate::specs::Tables::row))]
fn statement_at(
    alloc: Global,
    end: usize,
    tokens: &mut Tokens<'_>,
) -> Result<Statement, Refusal<GrammarFault>>
    ensures { Gives (λ x. (x, tokens.new)) result (reads statement end tokens.old) }
{
    if begins_with_word(Keyword::Insert, tokens) {
        let insert = insert_at(alloc, end, tokens)?;
        Ok(Statement::Insert(insert))
    } else if begins_with_word(Keyword::Delete, tokens) {
        let delete = delete_at(alloc, end, tokens)?;
        Ok(Statement::Delete(delete))
    } else if begins_with_word(Keyword::Update, tokens) {
        let update = update_at(alloc, end, tokens)?;
        Ok(Statement::Update(update))
    } else if begins_with_word(Keyword::Set, tokens) {
        let set = set_at(alloc, end, tokens)?;
        Ok(Statement::Set(set))
    } else {
        query_at(alloc, end, tokens)
    }
}

#[tactic(auto, unfolding(crate::specs::Statements::ended_statement))]
fn ended_statement_at(
    alloc: Global,
    end: usize,
    tokens: &mut Tokens<'_>,
) -> Result<Statement, Refusal<GrammarFault>>
    ensures { Gives (λ x. (x, tokens.new)) result (reads ended_statement end tokens.old) }
{
    let statement = statement_at(alloc, end, tokens)?;
    match sign_at(Symbol::Semicolon, end, tokens) {
        Ok(_) => Ok(statement),
        Err(fault) => {
            drop(statement);
            Err(Refusal::from(fault))
        }
    }
}

impl Item for Statement {
    ghost use Rattle.ent_sql.specs.Statements.{ended_statement};

    ghost grammar = { ended_statement };

    #[tactic(auto, unfolding(crate::specs::Statements::ended_statement, crate::specs::Statements::statement, crate::specs::Statements::delete, crate::specs::Statements::update, crate::specs::Statements::set, crate::specs::Tables::insert, crate::specs::Tables::row, crate::specs::Entangling::query))]
    fn is_start(tokens: &Tokens<'_>) -> bool {
        begins_with_word(Keyword::Insert, tokens)
            || begins_with_word(Keyword::Delete, tokens)
            || begins_with_word(Keyword::Update, tokens)
            || begins_with_word(Keyword::Set, tokens)
            || begins_with_word(Keyword::Select, tokens)
    }

    fn read(
        alloc: Global,
        end: usize,
        tokens: &mut Tokens<'_>,
    ) -> Result<Self, Refusal<GrammarFault>> {
        ended_statement_at(alloc, end, tokens)
    }
}
