//! Atoms of members' statements: `== atoms`. An atom is one word, as `0:R(?0,'a,1)`: the member's number, the relation,
//! and terms, of which `?0` is the member's variable of that number.
use crate::classes::put_classes;
use anyhow::{Context, Result, bail};
use ent_scenario_files::replies::{Out, put, put_number, yes_or_no};
use ent_scenario_files::words::{first_word, index, kinds, name, value};
use ent_semantics::{Atom, Term};
use ent_tree::MOST_PARTS;
use ent_unify::{MemberAtom, unifies, unify};
use ent_value::{Kind, Limited, Value};
use std::alloc::Global;

/// The kinds of each member's variables.
#[derive(Drop)]
pub(crate) struct Sides {
    kinds: Vec<Vec<Kind>>,
}

/// An atom, and whose it is.
#[derive(Drop)]
struct Owned {
    member: usize,
    atom: Atom<Value>,
}

fn read_term(alloc: Global, word: &str) -> Result<Term<Value>> {
    match word.strip_prefix('?') {
        Some(variable) => Ok(Term::Variable(index(variable)?)),
        None => Ok(Term::Known(value(alloc, word)?)),
    }
}

fn read_terms(alloc: Global, words: &str) -> Result<Limited<Term<Value>, MOST_PARTS>> {
    let mut terms = Limited::new(alloc);
    for word in words.split(',') {
        if terms.len() >= MOST_PARTS {
            bail!("these terms are too many");
        }
        terms.push(read_term(alloc, word)?)?;
    }
    Ok(terms)
}

fn read_atom(alloc: Global, word: &str) -> Result<Owned> {
    let (member, rest) = word
        .split_once(':')
        .context("an atom begins with its member")?;
    let (relation, rest) = rest.split_once('(').context("a parenthesis is missing")?;
    let inner = rest
        .strip_suffix(')')
        .context("an atom ends with a parenthesis")?;
    let member = index(member)?;
    let relation = name(alloc, relation)?;
    let terms = read_terms(alloc, inner)?;
    Ok(Owned {
        member,
        atom: Atom { relation, terms },
    })
}

fn read_pairs(alloc: Global, words: &str) -> Result<Vec<(Owned, Owned)>> {
    let mut pairs = Vec::new(alloc);
    for word in words.split(' ') {
        pairs.push(read_pair(alloc, word)?)?;
    }
    Ok(pairs)
}

fn read_pair(alloc: Global, word: &str) -> Result<(Owned, Owned)> {
    let (left, right) = word.split_once('=').context("a pair is written ATOM=ATOM")?;
    Ok((read_atom(alloc, left)?, read_atom(alloc, right)?))
}

impl Sides {
    pub(crate) fn new(alloc: Global) -> Self {
        Sides {
            kinds: Vec::new(alloc),
        }
    }

    pub(crate) fn reply(&mut self, alloc: Global, line: &str, out: &mut Out) -> Result<()> {
        let (call, rest) = first_word(line);
        match call {
            "kinds" => self.declare(alloc, rest, out),
            "unifies" => self.put_whether(alloc, rest, out),
            "unify" => self.put_unifier(alloc, rest, out),
            _ => bail!("atoms know no such call"),
        }
    }

    /// The kinds of the members' variables, a word a member.
    fn declare(&mut self, alloc: Global, line: &str, out: &mut Out) -> Result<()> {
        let mut found = Vec::new(alloc);
        for word in line.split(' ') {
            found.push(kinds(alloc, word)?)?;
        }
        put_number(out, found.len());
        self.kinds = found;
        Ok(())
    }

    fn put_whether(&self, alloc: Global, line: &str, out: &mut Out) -> Result<()> {
        let (left, right) = read_pair(alloc, line)?;
        let kinds = self.kinds.as_slice();
        let holds = unifies(
            &left.atom,
            kinds_of(kinds, left.member),
            &right.atom,
            kinds_of(kinds, right.member),
        );
        drop(left);
        drop(right);
        put(out, yes_or_no(holds));
        Ok(())
    }

    fn put_unifier(&self, alloc: Global, line: &str, out: &mut Out) -> Result<()> {
        let pairs = read_pairs(alloc, line)?;
        let shown = self.put_unifier_of(alloc, pairs.as_slice(), out);
        drop(pairs);
        shown
    }

    fn put_unifier_of(&self, alloc: Global, pairs: &[(Owned, Owned)], out: &mut Out) -> Result<()> {
        let mut kinds = Vec::new(alloc);
        for of_member in self.kinds.as_slice() {
            kinds.push(of_member.as_slice())?;
        }
        put_unified(alloc, kinds.as_slice(), pairs, out)
    }
}

/// The kinds of a member's variables, none where there is no such member.
fn kinds_of(kinds: &[Vec<Kind>], member: usize) -> &[Kind] {
    if member < kinds.len() {
        kinds[member].as_slice()
    } else {
        &[]
    }
}

/// The classes of the unifier of pairs of atoms.
fn put_unified(
    alloc: Global,
    kinds: &[&[Kind]],
    pairs: &[(Owned, Owned)],
    out: &mut Out,
) -> Result<()> {
    let mut lent_pairs = Vec::new(alloc);
    for pair in pairs {
        lent_pairs.push((lent(&pair.0), lent(&pair.1)))?;
    }
    let unified = unify(alloc, kinds, lent_pairs.as_slice());
    drop(lent_pairs);
    match unified? {
        Some(unifier) => put_classes(alloc, &unifier, kinds, out)?,
        None => put(out, "none"),
    }
    Ok(())
}

fn lent(owned: &Owned) -> MemberAtom<'_> {
    MemberAtom {
        member: owned.member,
        atom: &owned.atom,
    }
}
