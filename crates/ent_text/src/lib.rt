//! Reading text: the tokens of entangled SQL, grammars as data, and the parts of a report's lines.
//!
//! A text has one list of tokens or one first fault, with their offsets in bytes. [`tokens`] gives exactly these: the
//! longest tokens from the left, in order, each spelled by the bytes of its span.
//!
//! A grammar is a value of `Grammar A`: what it reads gives a value of `A`. `reads_all` says what all of some tokens
//! say, or their first fault; `spells` says which tokens a value has. The laws tie the two for every grammar that one
//! token decides, which `IsPredictive` says by computing. Readers in code take the functions of this crate for single
//! tokens, and say in their contracts which grammar they read.
//!
//! The readers of numbers, values and rows read from the left: each call gives a part and the bytes behind it, or says
//! that no such part stands in front. What is read is written exactly so, and what is written so is read.
#![tactic(auto)]

mod bytes;
mod comment;
mod divider;
mod fault;
mod front;
mod grammar_fault;
mod grammar_laws;
mod host_variable;
mod keyword;
mod language;
mod laws;
mod left;
mod line_fault;
mod line_laws;
mod line_numeral;
mod line_quoted;
mod listed;
mod numeral;
mod piece;
mod printed;
mod quoted;
mod symbol;
mod token;
mod tokenizer;
mod view;
mod word;

pub use bytes::tail;
pub use divider::Divider;
pub use fault::TextFault;
pub use front::{
    begins_with_divider, begins_with_sign, begins_with_word, sign_at, too_many, unexpected, word_at,
};
pub use grammar_fault::GrammarFault;
pub use grammar_laws::reading_is_exact;
pub use keyword::Keyword;
pub use language::Language;
pub use laws::{line_end_parts_texts, one_reading, pieces_end, reader_is_exact};
pub use left::{Tokens, fault_ends_tokens, fault_from, fault_in};
pub use line_fault::LineFault;
pub use line_laws::{
    numbers_are_read_as_written, rows_are_read_as_written, values_are_read_as_written,
    words_stand_in_front,
};
pub use line_numeral::number;
pub use listed::{behind, row};
pub use numeral::Numeral;
pub use piece::digits_len;
pub use printed::value;
pub use quoted::{quoted_at, text_of};
pub use symbol::Symbol;
pub use token::{Token, TokenKind};
pub use tokenizer::tokens;
pub use view::TokenView;
pub use word::word_len;
