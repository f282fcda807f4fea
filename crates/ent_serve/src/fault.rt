//! Why a whole run in threads gives no book.
use ent_form::FormFault;
use thiserror::Error;

/// Why a whole run in threads gives no book, beside want of memory.
#[derive(Clone, Copy, Debug, PartialEq, Eq, Error)]
pub enum ServeFault {
    /// The input's first fault of form.
    #[error("{0}")]
    Form(FormFault),
    /// What the sessions hold isn't what the core has.
    #[error("E502: what the sessions hold isn't what the core has")]
    Differs,
}
