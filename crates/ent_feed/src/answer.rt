//! Values, rows and answers as JSON.
ghost use Rattle.std.specs.Prelude.{◌≡◌, ◌++◌, OnOk};
ghost use Rattle.std.specs.Fmt.{signed_decimal};
ghost use Rattle.ent_feed.specs.AnswerJson.{answer_json, fact_json, row_json, rows_json, value_json};

use crate::json::{Json, put_list, put_number, put_object, put_text};
use ent_semantics::{Answer, Fact};
use ent_value::{Row, Value};
use std::alloc::{AllocError, Global};

/// A signed number in decimal digits.
fn put_signed(alloc: Global, out: &mut Vec<u8>, number: i64) -> Result<(), AllocError>
    ensures { OnOk result (out.new.items ≡ out.old.items ++ signed_decimal number) }
{
    let digits = format!(in alloc; "{number}")?;
    out.extend_from_slice(digits.as_bytes())
}

impl Json for Value {
    ghost json = { value_json };

    fn put(&self, alloc: Global, out: &mut Vec<u8>) -> Result<(), AllocError> {
        match self {
            Value::Int(number) => put_signed(alloc, out, *number),
            Value::Text(text) => put_text(out, text.as_bytes()),
        }
    }
}

impl Json for Row {
    ghost json = { row_json };

    fn put(&self, alloc: Global, out: &mut Vec<u8>) -> Result<(), AllocError> {
        put_list(alloc, out, self.values())
    }
}

impl Json for Fact {
    ghost json = { fact_json };

    fn put(&self, alloc: Global, out: &mut Vec<u8>) -> Result<(), AllocError> {
        put_text(out, self.relation.as_bytes())?;
        out.push(b':')?;
        self.values.put(alloc, out)
    }
}

impl Json for Answer {
    ghost json = { answer_json };

    fn put(&self, alloc: Global, out: &mut Vec<u8>) -> Result<(), AllocError> {
        match self {
            Answer::Count(count) => {
                out.extend_from_slice(b"{\"count\":")?;
                put_number(alloc, out, *count)?;
            }
            Answer::Value(value) => {
                out.extend_from_slice(b"{\"set\":")?;
                value.put(alloc, out)?;
            }
            Answer::Rows(rows) => {
                out.extend_from_slice(b"{\"rows\":")?;
                put_list(alloc, out, rows.as_slice())?;
            }
            Answer::Heads(facts) => {
                out.extend_from_slice(b"{\"answer\":")?;
                put_object(alloc, out, facts.as_slice())?;
            }
        }
        out.push(b'}')?;
        Ok(())
    }
}
