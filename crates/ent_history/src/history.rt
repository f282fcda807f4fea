//! What a report of version 2 tells.
use ent_semantics::{Answer, Fate, Member};
use ent_tree::{Opening, Script};
use ent_value::{Name, Row, Sequence};

/// A transaction as a report tells it: its fate, and the answers that stand under it, in order of the statements from
/// the first on. Where its fate isn't to have committed, none stand there.
pub struct Told {
    pub fate: Fate,
    pub answers: Sequence<Answer>,
}

impl Drop for Told {
    fn drop(self) {
        let Told {
            fate: _fate,
            answers: _answers,
        } = self;
    }
}

/// A member of a joint answer as a report tells it, and the variables to which its own line gives the values of its
/// grounding, one each. Where it isn't an entangled statement, they may be any names.
pub struct ToldMember {
    pub member: Member,
    pub variables: Sequence<Name>,
}

impl Drop for ToldMember {
    fn drop(self) {
        let ToldMember {
            member: _member,
            variables: _variables,
        } = self;
    }
}

/// A joint answer as a report tells it, with its members in the order in which they stand there.
pub struct ToldJoint {
    pub members: Sequence<ToldMember>,
}

impl Drop for ToldJoint {
    fn drop(self) {
        let ToldJoint { members: _members } = self;
    }
}

/// A table as a report shows it at the end: its name and its rows, in the order in which they stand there.
pub struct Shown {
    pub name: Name,
    pub rows: Sequence<Row>,
}

impl Drop for Shown {
    fn drop(self) {
        let Shown {
            name: _name,
            rows: _rows,
        } = self;
    }
}

/// What a report of version 2 tells, in the order in which it stands there.
pub struct History {
    pub opening: Opening,
    /// In order of their numbers, from 1.
    pub scripts: Sequence<Script>,
    /// In order of their numbers, from 1.
    pub transactions: Sequence<Told>,
    /// In order of their numbers, from 1.
    pub joint_answers: Sequence<ToldJoint>,
    pub tables: Sequence<Shown>,
}

impl Drop for History {
    fn drop(self) {
        let History {
            opening: _opening,
            scripts: _scripts,
            transactions: _transactions,
            joint_answers: _joint_answers,
            tables: _tables,
        } = self;
    }
}
