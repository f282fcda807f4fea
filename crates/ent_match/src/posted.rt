//! Posted statements.
ghost use Rattle.std.specs.Prelude.{◌≡◌, ℕ, IfOk, false};
ghost use Rattle.std.specs.Arc.{arc_value};
ghost use Rattle.ent_semantics.specs.Pool.{CanMeet};

use crate::signature::signature_of;
use ent_group::{Row, Tx};
use ent_semantics::Entangled;
use ent_tree::{Duplicate, Same};
use ent_value::Value;
use std::alloc::{AllocError, Global};
use std::marker::Model;
use std::sync::Arc;

/// A closed entangled statement at a place of a transaction, in one of its attempts, which is posted. Copies share
/// the statement.
pub struct Posted {
    tx: Tx,
    attempt: u64,
    place: u64,
    statement: Arc<Entangled<Value>>,
    /// The signature of its posts.
    posts: Row,
    /// The signature of its heads.
    heads: Row,
}

impl Drop for Posted {
    fn drop(self) {
        let Posted {
            tx: _tx,
            attempt: _attempt,
            place: _place,
            statement: _statement,
            posts: _posts,
            heads: _heads,
        } = self;
    }
}

impl Model for Posted {
    ghost use Rattle.std.specs.Arc.{arc_value};
    ghost use Rattle.ent_semantics.specs.Pool.{Posted as PostedStatement};
    ghost use Rattle.ent_match.specs.Signature.{AreSignatures};

    ghost Value = { PostedStatement };

    ghost view = { λ p. record { tx = p.tx; attempt = p.attempt; place = p.place; statement = arc_value p.statement } };

    ghost invariant = { λ p. AreSignatures (arc_value p.statement) p.posts p.heads };
}

impl Posted {
    pub fn new(tx: Tx, attempt: u64, place: u64, statement: Arc<Entangled<Value>>) -> Self
        ensures { result ≡ record { tx = tx; attempt = attempt; place = place; statement = arc_value statement } }
    {
        let posts = signature_of(statement.posts.as_slice());
        let heads = signature_of(statement.heads.as_slice());
        Posted {
            tx,
            attempt,
            place,
            statement,
            posts,
            heads,
        }
    }

    /// The same once more. The statement is shared, so that nothing is copied.
    pub fn shared(&self) -> Result<Posted, AllocError>
        ensures { IfOk result (λ shared. shared ≡ self.now) }
    {
        let statement = self.statement.clone()?;
        Ok(Posted {
            tx: self.tx,
            attempt: self.attempt,
            place: self.place,
            statement,
            posts: self.posts,
            heads: self.heads,
        })
    }

    /// The transaction's number.
    pub fn tx(&self) -> Tx
        ensures { result ≡ self.now.tx }
    {
        self.tx
    }

    /// Which of the transaction's attempts it is.
    pub fn attempt(&self) -> u64
        ensures { result ≡ self.now.attempt }
    {
        self.attempt
    }

    /// The statement's place in its script.
    pub fn place(&self) -> u64
        ensures { result ≡ self.now.place }
    {
        self.place
    }

    pub fn statement(&self) -> &Entangled<Value>
        ensures { result.now ≡ self.now.statement }
    {
        &self.statement
    }

    /// Whether a post of this statement may unify with a head of another one, by their signatures.
    pub(crate) fn may_meet(&self, owner: &Posted) -> bool
        ensures { result ≡ false → (index : ℕ) → CanMeet self.now index owner.now → ⊥ }
    {
        self.posts & owner.heads != 0
    }
}

impl Duplicate for Posted {
    fn copy(&self, _alloc: Global) -> Result<Self, AllocError> {
        self.shared()
    }
}

impl Same for Posted {
    fn is_same(&self, other: &Posted) -> bool {
        self.tx == other.tx
            && self.attempt == other.attempt
            && self.place == other.place
            && self.statement.is_same(&other.statement)
    }
}
