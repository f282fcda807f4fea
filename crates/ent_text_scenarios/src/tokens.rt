//! The tokens of a text: `== tokens`, then a text a line.
use anyhow::Result;
use ent_scenario_files::replies::{Out, put, put_debugged, put_fault, put_number, put_shown};
use ent_scenario_files::words::unescaped;
use ent_text::{Token, TokenKind, tokens};
use ent_value::Refusal;
use std::alloc::Global;

pub(crate) fn reply(alloc: Global, line: &str, out: &mut Out) -> Result<()> {
    let text = unescaped(alloc, line)?;
    match tokens(alloc, text.as_str()) {
        Ok(found) => put_tokens(out, found.as_slice()),
        Err(Refusal::Fault(fault)) => put_fault(out, fault.code(), fault.place()),
        Err(Refusal::Memory) => put(out, "E900"),
    }
    Ok(())
}

fn put_tokens(out: &mut Out, tokens: &[Token]) {
    if tokens.is_empty() {
        return put(out, "no token");
    }
    let mut before = "";
    for token in tokens {
        put(out, before);
        put_token(out, token);
        before = "; ";
    }
}

/// A token's places, its sort, and what it says: a reserved word in capitals, a text without its quotes.
fn put_token(out: &mut Out, token: &Token) {
    put_number(out, token.start);
    put(out, "..");
    put_number(out, token.end);
    match &token.kind {
        TokenKind::Word(keyword) => put_said(out, " word ", keyword.text()),
        TokenKind::Name(name) => put_said(out, " name ", name.as_bytes()),
        TokenKind::HostVariable(name) => put_said(out, " host variable ", name.as_bytes()),
        TokenKind::Literal(text) => put_said(out, " text ", text.as_bytes()),
        TokenKind::Number(numeral) => {
            put(out, " number ");
            put_shown(out, &numeral.value());
        }
        TokenKind::Sign(symbol) => {
            put(out, " sign ");
            put_debugged(out, symbol);
        }
        TokenKind::Fault(fault) => {
            put(out, " fault ");
            put_shown(out, fault);
        }
    }
}

fn put_said(out: &mut Out, sort: &str, said: &[u8]) {
    put(out, sort);
    out.put_bytes(said);
}
