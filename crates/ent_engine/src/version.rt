//! The version.

/// The version of the program and of the library for other languages, and the logic of the kit that proves them.
pub const VERSION: &str = "0.9.0, proved by logic dac8208d650f15bf";
