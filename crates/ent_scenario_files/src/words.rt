//! The words of a call: numbers, names, values and rows.
ghost use Rattle.std.specs.Prelude.{◌≡◌, ◌↔◌, All, IfOk, IsTrue};
ghost use Rattle.ent_value.specs.Value.{kinds_of};

use anyhow::{Context, Result, bail};
use ent_value::{Kind, LONGEST_TEXT, Name, Row, Text, Value, is_word};
use std::alloc::{AllocError, Global};

/// What a letter behind a `\` stands for.
fn escaped(letter: char) -> char {
    match letter {
        'n' => '\n',
        'r' => '\r',
        't' => '\t',
        'f' => '\u{c}',
        's' => ' ',
        '0' => '\0',
        '1' => '\u{1f}',
        '7' => '\u{7f}',
        other => other,
    }
}

/// Reads a text with what its escapes stand for: `\n`, `\r`, `\t`, `\f`, `\s` for a blank, and `\0`, `\1` and `\7` for the
/// control characters 0, 31 and 127.
pub fn unescaped(alloc: Global, text: &str) -> Result<String> {
    let mut plain = String::new(alloc);
    for (number, piece) in text.split('\\').enumerate() {
        let mut is_escaped = number > 0;
        for letter in piece.chars() {
            plain.push(if is_escaped { escaped(letter) } else { letter })?;
            is_escaped = false;
        }
    }
    Ok(plain)
}

/// Divides a line: its first word, and what stands behind it.
pub fn first_word(line: &str) -> (&str, &str) {
    match line.split_once(' ') {
        Some((first, rest)) => (first, rest),
        None => (line, ""),
    }
}

/// Reads a number.
pub fn number(word: &str) -> Result<u64> {
    word.parse::<u64>().context("this is no number")
}

/// Reads an index.
pub fn index(word: &str) -> Result<usize> {
    word.parse::<usize>().context("this is no index")
}

/// Reads the numbers of a line, a blank between two.
pub fn numbers_in(alloc: Global, line: &str) -> Result<Vec<u64>> {
    let mut found = Vec::new(alloc);
    for word in line.split(' ') {
        found.push(number(word)?)?;
    }
    Ok(found)
}

/// Reads a name.
pub fn name(alloc: Global, word: &str) -> Result<Name> {
    let bytes = word.as_bytes();
    if !is_word(bytes) {
        bail!("this is no name");
    }
    Ok(Name::new(alloc, bytes)?)
}

/// Reads a value: a number, or a text behind one quote.
pub fn value(alloc: Global, word: &str) -> Result<Value> {
    let Some(text) = word.strip_prefix('\'') else {
        return Ok(Value::Int(word.parse::<i64>().context("this is no value")?));
    };
    let plain = unescaped(alloc, text)?;
    let bytes = plain.as_bytes();
    if bytes.len() > LONGEST_TEXT {
        bail!("this text is too long");
    }
    Ok(Value::Text(Text::from_bytes(alloc, bytes)?))
}

/// Reads a row, which is one word, as `(1,'a)`.
pub fn row(alloc: Global, word: &str) -> Result<Row> {
    let Some(rest) = word.strip_prefix('(') else {
        bail!("a row begins with a parenthesis");
    };
    let Some(inner) = rest.strip_suffix(')') else {
        bail!("a row ends with a parenthesis");
    };
    let mut values = Vec::new(alloc);
    if !inner.is_empty() {
        for part in inner.split(',') {
            values.push(value(alloc, part)?)?;
        }
    }
    Ok(Row::from_vec(values))
}

/// The kinds of a row's values.
pub fn kinds_of(alloc: Global, row: &Row) -> Result<Vec<Kind>, AllocError>
    ensures { IfOk result (λ kinds. kinds.items ≡ kinds_of row.now) }
{
    row.values().iter().map(|value| value.kind()).collect(alloc)
}

/// Whether these are the same kinds.
pub fn are_same(left: &[Kind], right: &[Kind]) -> bool
    ensures { IsTrue result ↔ (left.now ≡ right.now) }
{
    left == right
}

/// Reads a row of these kinds.
pub fn row_of(alloc: Global, word: &str, kinds: &[Kind]) -> Result<Row>
    ensures { IfOk result (λ row. kinds_of row ≡ kinds.now) }
{
    let row = row(alloc, word)?;
    let found = kinds_of(alloc, &row)?;
    if !are_same(found.as_slice(), kinds) {
        bail!("this row has other kinds");
    }
    Ok(row)
}

/// Reads rows of these kinds.
pub fn rows_of(alloc: Global, words: &[&str], kinds: &[Kind]) -> Result<Vec<Row>>
    ensures { IfOk result (λ rows. All (λ row. kinds_of row ≡ kinds.now) rows.items) }
{
    let mut rows = Vec::new(alloc);
    for word in words {
        rows.push(row_of(alloc, word, kinds)?)?;
    }
    Ok(rows)
}

/// Reads the kinds of a table's columns, or of a member's variables, as one word, as `INT,TEXT`; `-` for none.
pub fn kinds(alloc: Global, word: &str) -> Result<Vec<Kind>> {
    let mut found = Vec::new(alloc);
    if word == "-" {
        return Ok(found);
    }
    for part in word.split(',') {
        found.push(match part {
            "INT" => Kind::Int,
            "TEXT" => Kind::Text,
            _ => bail!("this is no kind"),
        })?;
    }
    Ok(found)
}
