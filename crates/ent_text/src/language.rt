//! Types whose values are what a grammar says.
ghost use Rattle.ent_text.specs.Grammar.{Grammar};

/// A type whose values are what a grammar says.
pub trait Language {
    ghost grammar: { Grammar Self };
}
