//! A text that is being printed.
ghost use Rattle.std.specs.Prelude.{◌≡◌, ◌++◌, [], ◌∷◌, false, true, OnOk, if◌then◌else◌};
ghost use Rattle.std.specs.Fmt.{decimal};
ghost use Rattle.ent_text.specs.declared.token.TokenKind.TheVariants.{Name as NameToken, HostVariable, Number};
ghost use Rattle.ent_print.specs.Lexeme.{Token};
ghost use Rattle.ent_print.specs.Spelling.{word, sign, value_spelling};
ghost use Rattle.ent_print.specs.Printing.{with_lexeme};

use crate::symbol::{is_near_left, is_near_right, symbol_text};
use ent_text::{Keyword, Symbol};
use ent_value::{Name, Value, print_value};
use std::alloc::{AllocError, Global};
use std::marker::Model;

/// A text that grows lexeme by lexeme, and whether what stands last in it wants a space behind it.
#[derive(Drop)]
pub(crate) struct Printer {
    alloc: Global,
    text: Vec<u8>,
    wanted: bool,
}

impl Model for Printer {
    ghost use Rattle.ent_print.specs.Printing.{Printed};

    ghost Value = { Printed };

    ghost view = { λ p. record { text = p.text.items; wanted = p.wanted } };
}

impl Printer {
    /// The empty text.
    pub fn new(alloc: Global) -> Self
        ensures text { result.text ≡ [] }
        ensures wanted { result.wanted ≡ false }
    {
        Printer {
            alloc,
            text: Vec::new(alloc),
            wanted: false,
        }
    }

    /// The text's bytes.
    pub fn into_text(self) -> Vec<u8>
        ensures { result.items ≡ self.text }
    {
        let Printer { text, .. } = self;
        text
    }

    /// The space before a lexeme that wants one on both sides.
    fn push_space(&mut self) -> Result<(), AllocError>
        ensures text { OnOk result (self.new.text ≡ self.old.text ++ (if self.old.wanted then 32 ∷ [] else [])) }
        ensures wanted { OnOk result (self.new.wanted ≡ true) }
    {
        if self.wanted {
            self.text.push(b' ')?;
        }
        self.wanted = true;
        Ok(())
    }

    #[tactic(auto, unfolding(crate::specs::Printing::with_lexeme))]
    pub fn push_word(&mut self, keyword: Keyword) -> Result<(), AllocError>
        ensures { OnOk result (self.new ≡ with_lexeme self.old (word keyword)) }
    {
        self.push_space()?;
        self.text.extend_from_slice(keyword.text())
    }

    #[tactic(auto, unfolding(crate::specs::Printing::with_lexeme))]
    pub fn push_name(&mut self, name: &Name) -> Result<(), AllocError>
        ensures { OnOk result (self.new ≡ with_lexeme self.old (Token (NameToken name.now))) }
    {
        self.push_space()?;
        self.text.extend_from_slice(name.as_bytes())
    }

    #[tactic(auto, unfolding(crate::specs::Printing::with_lexeme))]
    pub fn push_host_variable(&mut self, name: &Name) -> Result<(), AllocError>
        ensures { OnOk result (self.new ≡ with_lexeme self.old (Token (HostVariable name.now))) }
    {
        self.push_space()?;
        self.text.push(b'@')?;
        self.text.extend_from_slice(name.as_bytes())
    }

    #[tactic(auto, unfolding(crate::specs::Printing::with_lexeme))]
    pub fn push_number(&mut self, number: u64) -> Result<(), AllocError>
        ensures { OnOk result (self.new ≡ with_lexeme self.old (Token (Number number))) }
    {
        self.push_space()?;
        let digits = format!(in self.alloc; "{number}")?;
        self.text.extend_from_slice(digits.as_bytes())
    }

    #[tactic(auto, unfolding(crate::specs::Printing::with_lexeme))]
    pub fn push_value(&mut self, value: &Value) -> Result<(), AllocError>
        ensures { OnOk result (self.new ≡ with_lexeme self.old (value_spelling value.now)) }
    {
        self.push_space()?;
        print_value(self.alloc, &mut self.text, value)
    }

    #[tactic(auto, unfolding(crate::specs::Printing::with_lexeme))]
    pub fn push_sign(&mut self, symbol: Symbol) -> Result<(), AllocError>
        ensures { OnOk result (self.new ≡ with_lexeme self.old (sign symbol)) }
    {
        if self.wanted && !is_near_left(symbol) {
            self.text.push(b' ')?;
        }
        self.text.extend_from_slice(symbol_text(symbol))?;
        if symbol == Symbol::Semicolon {
            self.text.push(b'\n')?;
        }
        self.wanted = !is_near_right(symbol);
        Ok(())
    }
}
