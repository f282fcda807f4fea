//! Groups: members that were answered together, and partners of partners.
use crate::picture::LinkKind;
use crate::scene::Scene;
use crate::stand::Stand;
use ent_group::Tx;
use std::alloc::AllocError;

impl Scene {
    /// These members are of one group from now on, with whoever was of a group of one of them.
    pub(crate) fn join(&mut self, members: &[Tx]) -> Result<(), AllocError> {
        if self.lanes_of(members)?.is_empty() {
            return Ok(());
        }
        let column = self.column()?;
        let group = self.group_for(members);
        for tx in members {
            match self.group_of(*tx) {
                Some(other) => self.regroup(other, group, column)?,
                None => self.put_into(*tx, group, column),
            }
        }
        self.link(LinkKind::Joint(group), members)
    }

    fn group_of(&self, tx: Tx) -> Option<u64> {
        let (group, _) = self.stand(tx)?.group?;
        Some(group)
    }

    /// The group of the first of these members that is in one, else a new one.
    fn group_for(&mut self, members: &[Tx]) -> u64 {
        for tx in members {
            if let Some(group) = self.group_of(*tx) {
                return group;
            }
        }
        let group = self.groups;
        self.groups = group.saturating_add(1);
        group
    }

    fn put_into(&mut self, tx: Tx, group: u64, column: u64) {
        if let Some(stand) = self.stand(tx) {
            let group = Some((group, column));
            self.set_stand(tx, Stand { group, ..stand });
        }
    }

    /// All members of one group are of another from a column on, where that is another.
    fn regroup(&mut self, from: u64, to: u64, column: u64) -> Result<(), AllocError> {
        if from == to {
            return Ok(());
        }
        for at in 0..self.members.len() {
            let tx = self.tx_at(at);
            if self.group_of(tx) == Some(from) {
                self.end_shade(tx, column)?;
                self.put_into(tx, to, column);
            }
        }
        Ok(())
    }

    fn end_shade(&mut self, tx: Tx, column: u64) -> Result<(), AllocError> {
        if let Some(stand) = self.stand(tx) {
            if let Some(shade) = stand.shade(column) {
                self.shades.push(shade)?;
            }
        }
        Ok(())
    }
}
