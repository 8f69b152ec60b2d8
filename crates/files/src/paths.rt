// Names of files. The library opens files by text alone, so a name that is no UTF-8 names none.

use std::io::{Error, ErrorKind, Result};
use std::str;

// A name as the library takes it.
pub fn path(name: &[u8]) -> Result<&str> {
    str::from_utf8(name).map_err(|_| Error::from(ErrorKind::InvalidFilename))
}
