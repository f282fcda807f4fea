//! Reserved words.
ghost use Rattle.std.specs.Prelude.{◌≡◌, ◌==◌, slice_index};
ghost use Rattle.std.specs.List.{find, filter};
ghost use Rattle.ent_text.specs.Keyword.{keyword_text};
ghost use Rattle.ent_text.specs.Lexing.{keywords, keyword_of, is_written};

/// A reserved word, which no name can be, in any case.
#[derive(Clone, Copy, Debug, PartialEq, Eq)]
pub enum Keyword {
    And,
    Answer,
    As,
    Begin,
    Choose,
    Commit,
    Create,
    Delete,
    From,
    In,
    Insert,
    Int,
    Into,
    Rollback,
    Runs,
    Select,
    Set,
    Table,
    Text,
    Transaction,
    Update,
    Values,
    Where,
    Within,
}

impl Keyword {
    /// The word in capitals.
    pub fn text(self) -> &'static [u8]
        ensures { result.now ≡ keyword_text self }
    {
        match self {
            Keyword::And => b"AND",
            Keyword::Answer => b"ANSWER",
            Keyword::As => b"AS",
            Keyword::Begin => b"BEGIN",
            Keyword::Choose => b"CHOOSE",
            Keyword::Commit => b"COMMIT",
            Keyword::Create => b"CREATE",
            Keyword::Delete => b"DELETE",
            Keyword::From => b"FROM",
            Keyword::In => b"IN",
            Keyword::Insert => b"INSERT",
            Keyword::Int => b"INT",
            Keyword::Into => b"INTO",
            Keyword::Rollback => b"ROLLBACK",
            Keyword::Runs => b"RUNS",
            Keyword::Select => b"SELECT",
            Keyword::Set => b"SET",
            Keyword::Table => b"TABLE",
            Keyword::Text => b"TEXT",
            Keyword::Transaction => b"TRANSACTION",
            Keyword::Update => b"UPDATE",
            Keyword::Values => b"VALUES",
            Keyword::Where => b"WHERE",
            Keyword::Within => b"WITHIN",
        }
    }
}

/// Whether a word is this one, in any case.
fn is_written(word: &[u8], capitals: &[u8]) -> bool
    ensures { result ≡ is_written word.now capitals.now }
{
    if word.len() != capitals.len() {
        return false;
    }
    let mut word = word;
    let mut capitals = capitals;
    while let [byte, bytes @ ..] = word {
        let [capital, others @ ..] = capitals else {
            return false;
        };
        if byte.to_ascii_uppercase() != *capital {
            return false;
        }
        word = bytes;
        capitals = others;
    }
    capitals.is_empty()
}

/// The reserved words that begin with this capital.
fn with_initial(capital: u8) -> &'static [Keyword]
    ensures { result.now ≡ filter (λ keyword. slice_index (keyword_text keyword) 0 == capital) keywords }
{
    match capital {
        b'A' => &[Keyword::And, Keyword::Answer, Keyword::As],
        b'B' => &[Keyword::Begin],
        b'C' => &[Keyword::Choose, Keyword::Commit, Keyword::Create],
        b'D' => &[Keyword::Delete],
        b'F' => &[Keyword::From],
        b'I' => &[Keyword::In, Keyword::Insert, Keyword::Int, Keyword::Into],
        b'R' => &[Keyword::Rollback, Keyword::Runs],
        b'S' => &[Keyword::Select, Keyword::Set],
        b'T' => &[Keyword::Table, Keyword::Text, Keyword::Transaction],
        b'U' => &[Keyword::Update],
        b'V' => &[Keyword::Values],
        b'W' => &[Keyword::Where, Keyword::Within],
        _ => &[],
    }
}

/// The first of some reserved words that is written so.
fn first_written(word: &[u8], keywords: &[Keyword]) -> Option<Keyword>
    ensures { result ≡ find (λ keyword. is_written word.now (keyword_text keyword)) keywords.now }
{
    for keyword in keywords {
        if is_written(word, keyword.text()) {
            return Some(*keyword);
        }
    }
    None
}

/// The reserved word that a word is.
pub(crate) fn keyword_of(word: &[u8]) -> Option<Keyword>
    ensures { result ≡ keyword_of word.now }
{
    let [first, ..] = word else {
        return None;
    };
    first_written(word, with_initial(first.to_ascii_uppercase()))
}
