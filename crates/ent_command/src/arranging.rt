//! Inputs with their scripts in another order.
use crate::command::said;
use crate::ending::Ending;
use ent_arrange::arrange;
use ent_engine::read_whole;
use ent_value::Watched;
use std::io;

/// Writes the input of standard input with its scripts in another order, and tells of their meetings on standard error.
/// A fault is a line there.
pub(crate) fn arrange_input<R>(rt: &R) -> Ending
where
    R: AllocGlobal + Input + Print + Eprint,
{
    let mut reader = Watched::new(rt.reader());
    let input = match read_whole(rt.alloc(), &mut reader) {
        Ok(input) => input,
        Err(fault) => return said(rt, Ending::Faulty(fault)),
    };
    let mut writer = Watched::new(io::writer(rt));
    match arrange(rt.alloc(), input.as_slice(), &mut writer) {
        Ok(told) => {
            let _ = eprint!(rt; "{told}");
            Ending::Done
        }
        Err(fault) => said(rt, Ending::Faulty(fault)),
    }
}
