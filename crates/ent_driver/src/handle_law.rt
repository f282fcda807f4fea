//! Laws: what stands behind a handle may pass to another thread.
//!
//! C may give a handle to another thread where what the handle owns is `Send`. Each function here hands such a value to
//! one that takes nothing else, and gives it back as it was. So a type that could no longer pass would be refused.
ghost use Rattle.std.specs.Prelude.{◌≡◌};

use crate::driver::Driver;
use ent_core::Core;

/// Takes only what may pass to another thread, and gives it back.
fn passed<T: Send>(value: T) -> T
    ensures { result ≡ value }
{
    value
}

/// A core may pass to another thread, as it is.
pub fn cores_may_pass(core: Core) -> Core
    ensures { result ≡ core }
{
    passed(core)
}

/// So may a driver, which stands behind a handle of C.
pub fn drivers_may_pass(driver: Driver) -> Driver
    ensures { result ≡ driver }
{
    passed(driver)
}
