//! What C is told beside a text.
ghost use Rattle.std.specs.Prelude.{◌≡◌};
ghost use Rattle.ent_c.specs.Told.{TellsCode, TellsFault, TellsRefusal, told_of_text};

use ent_driver::DriverFault;
use ent_engine::RunFault;
use ent_excerpt::Place;
use ent_fault_text::valid_text;

/// What a call tells beside its status. C calls it `struct entangle_told`.
#[repr(C)]
#[derive(Clone, Copy, Debug)]
pub struct CallTold {
    /// How many bytes the text has, also where the buffer holds fewer; 0 where there is none.
    pub needed: usize,
    /// Where the fault stands, in bytes from the input's start; 0 where it has no place.
    pub offset: usize,
    /// Its line, which counts from 1; 0 where it has no place.
    pub line: usize,
    /// Its column in characters, which counts from 1; 0 where it has no place.
    pub column: usize,
    /// The fault's number, as 302; 0 where there is no fault.
    pub code: u16,
    /// Whether the fault has a place.
    pub has_place: bool,
}

impl CallTold {
    /// What is told beside a text of so many bytes, where there is no fault.
    pub(crate) fn text(needed: usize) -> Self
        ensures { result ≡ told_of_text needed }
    {
        CallTold {
            needed,
            offset: 0,
            line: 0,
            column: 0,
            code: 0,
            has_place: false,
        }
    }

    /// What is told of a fault of some bytes, beside a text of so many bytes.
    pub(crate) fn fault(input: &[u8], fault: RunFault, needed: usize) -> Self
        ensures { TellsFault fault input.now needed result }
    {
        CallTold::coded(input, fault.code(), fault.place(), needed)
    }

    /// What is told of a call that a driver refuses, of bytes that were handed in.
    pub(crate) fn refusal(given: &[u8], fault: DriverFault) -> Self
        ensures { TellsRefusal fault given.now result }
    {
        CallTold::coded(given, fault.code(), fault.place(), 0)
    }

    /// What is told of a fault of this number that stands there, beside a text of so many bytes.
    pub(crate) fn coded(given: &[u8], code: u16, place: Option<usize>, needed: usize) -> Self
        ensures { TellsCode code place given.now needed result }
    {
        let nowhere = CallTold {
            code,
            ..CallTold::text(needed)
        };
        let Some(offset) = place else {
            return nowhere;
        };
        let found = Place::of(valid_text(given), offset);
        CallTold {
            offset,
            line: found.line,
            column: found.column,
            has_place: true,
            ..nowhere
        }
    }
}
