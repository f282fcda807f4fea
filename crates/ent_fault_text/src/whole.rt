//! What a text is as a whole: an input, or one script.
use ent_sql::{SqlFault, parse_input, parse_script};
use ent_value::Refusal;
use std::alloc::{AllocError, Global};

/// What a text is as a whole.
#[derive(Clone, Copy)]
pub(crate) enum Whole {
    /// Declarations, opening rows and scripts.
    Input,
    /// One script, over tables that are declared elsewhere.
    Script,
}

impl Whole {
    /// What people call it.
    pub(crate) fn name(self) -> &'static str {
        match self {
            Whole::Input => "input",
            Whole::Script => "script",
        }
    }

    /// The first fault of a text's tokens and grammar, if it has one.
    pub(crate) fn fault_of(
        self,
        alloc: Global,
        text: &str,
    ) -> Result<Option<SqlFault>, AllocError> {
        let refusal = match self {
            Whole::Input => parse_input(alloc, text).err(),
            Whole::Script => parse_script(alloc, text).err(),
        };
        match refusal {
            None => Ok(None),
            Some(Refusal::Memory) => Err(AllocError),
            Some(Refusal::Fault(fault)) => Ok(Some(fault)),
        }
    }
}
