//! Why an input that is a sentence of the grammar still says nothing.
ghost use Rattle.std.specs.Prelude.{◌≡◌};
ghost use Rattle.ent_form.specs.Fault.{code_of, place_of};

use thiserror::Error;

/// The first fault of an input's form: declarations come first, then the opening rows, then the scripts. Each place
/// is a byte offset from the input's start.
#[derive(Clone, Copy, Debug, PartialEq, Eq, Error)]
pub enum FormFault {
    /// No table has this name, or no source goes by it.
    #[error("E301 at {0}: there is no such table")]
    NoTable(usize),
    /// No source has a column of this name.
    #[error("E302 at {0}: there is no such column")]
    NoColumn(usize),
    /// A row has another number of values than its table has columns, or a sub-select another number of items than its
    /// tuple has terms; the place is the `(` behind VALUES, or the tuple's first token.
    #[error("E303 at {0}: the number of values isn't the one that is wanted here")]
    Arity(usize),
    /// A value isn't of its column's kind, the two sides of a test or of an assignment are of two kinds, a text stands
    /// beside `+` or `-`, or a term of a tuple isn't of the kind of its sub-select's item; the place is the value, the
    /// right side, the text, or the term.
    #[error("E304 at {0}: this isn't of the kind that is wanted here")]
    WrongKind(usize),
    /// A written variable stands in no `IN (SELECT ..)` tuple of its statement; the place is where it first appears.
    #[error("E305 at {0}: no IN (SELECT ..) of the statement gives this variable values")]
    Unbound(usize),
    /// No earlier statement of the script binds this host variable; the place is its `@`.
    #[error("E306 at {0}: no earlier statement of the script binds this host variable")]
    NoHostVariable(usize),
    /// Two sources have a column of this name, or two sources go by this name; the place is the name, the last one of
    /// the second source.
    #[error("E307 at {0}: this name stands for two things here")]
    Ambiguous(usize),
    /// A table or a column is declared twice, a column is assigned twice in an UPDATE, or an entangled statement names
    /// an answer relation or binds a host variable twice; the place is the second.
    #[error("E308 at {0}: this stands here a second time")]
    Repeated(usize),
}

impl FormFault {
    /// The fault's number, as 301.
    pub fn code(self) -> u16
        ensures { result ≡ code_of self }
    {
        match self {
            FormFault::NoTable(_) => 301,
            FormFault::NoColumn(_) => 302,
            FormFault::Arity(_) => 303,
            FormFault::WrongKind(_) => 304,
            FormFault::Unbound(_) => 305,
            FormFault::NoHostVariable(_) => 306,
            FormFault::Ambiguous(_) => 307,
            FormFault::Repeated(_) => 308,
        }
    }

    /// Where it stands, in bytes from the input's start.
    pub fn place(self) -> usize
        ensures { result ≡ place_of self }
    {
        match self {
            FormFault::NoTable(place)
            | FormFault::NoColumn(place)
            | FormFault::Arity(place)
            | FormFault::WrongKind(place)
            | FormFault::Unbound(place)
            | FormFault::NoHostVariable(place)
            | FormFault::Ambiguous(place)
            | FormFault::Repeated(place) => place,
        }
    }
}
