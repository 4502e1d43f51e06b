//! The program's arguments, without the name that it was called by.
//!
//! The name may be any bytes; only what stands behind it is read as text.
ghost use Rattle.std.specs.Io.{WritesAtMost};

use std::env::{Env, FillError};

/// The environment of a program, with its arguments counted from the first behind its name.
#[derive(Clone, Copy)]
pub struct BehindName<'a, E>(pub &'a E);

impl<E: Env> Env for BehindName<'_, E> {
    fn arg(&self, i: usize, buf: &mut [u8]) -> Result<usize, FillError> {
        match i.checked_add(1) {
            Some(next) => self.0.arg(next, buf),
            None => Err(FillError::NotPresent),
        }
    }

    fn var(&self, name: &str, buf: &mut [u8]) -> Result<usize, FillError> {
        self.0.var(name, buf)
    }

    fn var_at(&self, i: usize, buf: &mut [u8]) -> Result<usize, FillError> {
        self.0.var_at(i, buf)
    }
}
