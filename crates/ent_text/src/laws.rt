//! Laws of reading: functions without a body, whose contracts say what holds of every text.
ghost use Rattle.std.specs.Prelude.{◌≡◌, ◌↔◌, ◌⊎◌, ℕ, ◌+◌, true, false, List, [], ◌∷◌, ◌++◌, length};
ghost use Rattle.std.specs.Prelude.{map, Ok, Err, slice_index};
ghost use Rattle.ent_text.specs.Reading.{AreTokens, HasFault};
ghost use Rattle.ent_text.specs.Spelling.{Spells, IsLongest, is_blank};
ghost use Rattle.ent_text.specs.Ends.{goes_on};
ghost use Rattle.ent_text.specs.Moved.{moved};
ghost use Rattle.ent_text.specs.Lexing.{tokens_of};
ghost use Rattle.ent_text.specs.declared.fault.TextFault.{TextFault};
ghost use Rattle.ent_text.specs.declared.token.Token.{Token};
ghost use Rattle.ent_text.specs.declared.token.TokenKind.{TokenKind};

/// Every text has one list of tokens or one first fault, and never both.
pub fn one_reading()
    ensures some { (text : List ℕ)
        → ((tokens : List Token) × AreTokens text tokens) ⊎ ((fault : TextFault) × HasFault text fault) }
    ensures tokens { (text : List ℕ) (these those : List Token)
        → AreTokens text these → AreTokens text those → these ≡ those }
    ensures fault { (text : List ℕ) (this that : TextFault)
        → HasFault text this → HasFault text that → this ≡ that }
    ensures either { (text : List ℕ) (tokens : List Token) (fault : TextFault)
        → AreTokens text tokens → ¬ (HasFault text fault) }
{}

/// `tokens_of` gives exactly the tokens of a text, and else exactly its first fault.
pub fn reader_is_exact()
    ensures tokens { (text : List ℕ) (tokens : List Token)
        → (tokens_of text ≡ Ok tokens) ↔ AreTokens text tokens }
    ensures fault { (text : List ℕ) (fault : TextFault)
        → (tokens_of text ≡ Err fault) ↔ HasFault text fault }
{}

/// What spells a token is the longest piece before a byte that doesn't go on the token (0 stands for the text's end); a
/// byte of white space always is.
pub fn pieces_end()
    ensures token { (bytes behind : List ℕ) (kind : TokenKind)
        → Spells bytes kind → goes_on kind (slice_index behind 0) ≡ false → IsLongest bytes behind }
    ensures blank { (byte : ℕ) (behind : List ℕ) → is_blank byte ≡ true → IsLongest (byte ∷ []) behind }
{}

/// A text is read alike wherever it stands behind a line end (byte 10): the tokens of two texts with a line end between
/// them are those of the first, and those of the second so many bytes further on.
pub fn line_end_parts_texts()
    ensures { (front back : List ℕ) (these those : List Token) → AreTokens front these → AreTokens back those
        → AreTokens (front ++ 10 ∷ back) (these ++ map (moved (length front + 1)) those) }
{}
