//! The line of a group.
ghost use Rattle.std.specs.Prelude.{◌≡◌, ◌++◌, OnErr, OnOk};
ghost use Rattle.ent_feed.specs.Line.{change_json, commit_json, delta_json, ended_json, ending_json, group_json};
ghost use Rattle.ent_feed.specs.Line.{group_line};

use crate::group::{Commit, EndedTicket, Group, OtherEnding, TableChange};
use crate::json::{Json, put_listed, put_numbered, put_object, put_text};
use ent_rel::Delta;
use std::alloc::{AllocError, Global};

impl Json for Commit {
    ghost json = { commit_json };

    fn put(&self, alloc: Global, out: &mut Vec<u8>) -> Result<(), AllocError> {
        put_numbered(alloc, out, b"{\"ticket\":", self.ticket.number())?;
        put_numbered(alloc, out, b",\"number\":", self.number)?;
        put_listed(alloc, out, b",\"answers\":", self.answers.as_slice())?;
        out.push(b'}')?;
        Ok(())
    }
}

impl Json for Delta {
    ghost json = { delta_json };

    fn put(&self, alloc: Global, out: &mut Vec<u8>) -> Result<(), AllocError> {
        put_listed(alloc, out, b"{\"removed\":", self.removed.as_slice())?;
        put_listed(alloc, out, b",\"added\":", self.added.as_slice())?;
        out.push(b'}')?;
        Ok(())
    }
}

impl Json for TableChange {
    ghost json = { change_json };

    fn put(&self, alloc: Global, out: &mut Vec<u8>) -> Result<(), AllocError> {
        put_text(out, self.table.as_bytes())?;
        out.push(b':')?;
        self.delta.put(alloc, out)
    }
}

impl Json for OtherEnding {
    ghost json = { ending_json };

    fn put(&self, _alloc: Global, out: &mut Vec<u8>) -> Result<(), AllocError> {
        match self {
            OtherEnding::RolledBack => out.extend_from_slice(b"\"rolled back\""),
            OtherEnding::Failed(failure) => {
                out.extend_from_slice(b"\"failed\",\"failure\":\"")?;
                out.extend_from_slice(failure.name().as_bytes())?;
                out.push(b'"')?;
                Ok(())
            }
            OtherEnding::GaveUp => out.extend_from_slice(b"\"gave up\""),
        }
    }
}

impl Json for EndedTicket {
    ghost json = { ended_json };

    fn put(&self, alloc: Global, out: &mut Vec<u8>) -> Result<(), AllocError> {
        put_numbered(alloc, out, b"{\"ticket\":", self.ticket.number())?;
        out.extend_from_slice(b",\"ending\":")?;
        self.ending.put(alloc, out)?;
        out.push(b'}')?;
        Ok(())
    }
}

impl Json for Group {
    ghost json = { group_json };

    fn put(&self, alloc: Global, out: &mut Vec<u8>) -> Result<(), AllocError> {
        put_numbered(alloc, out, b"{\"group\":", self.number)?;
        put_numbered(alloc, out, b",\"epoch\":", self.epoch)?;
        put_listed(alloc, out, b",\"commits\":", self.commits.as_slice())?;
        out.extend_from_slice(b",\"changes\":")?;
        put_object(alloc, out, self.changes.as_slice())?;
        put_listed(alloc, out, b",\"ended\":", self.ended.as_slice())?;
        out.push(b'}')?;
        Ok(())
    }
}

/// Puts the line of a group at the end: JSON, and a line feed. Where memory runs out nothing is put.
pub fn append_line(alloc: Global, out: &mut Vec<u8>, group: &Group) -> Result<(), AllocError>
    ensures ok { OnOk result (out.new.items ≡ out.old.items ++ group_line group.now) }
    ensures err { OnErr result (out.new.items ≡ out.old.items) }
{
    let mut line = Vec::new(alloc);
    group.put(alloc, &mut line)?;
    line.push(b'\n')?;
    out.extend_from_slice(line.as_slice())
}
