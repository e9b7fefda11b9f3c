//! Values as texts that can't be refused memory: where they are printed, nothing else is dropped.

use h2_serve::{DriveEnd, DriveFault};
use std::fmt;

/// Octets in hex.
#[derive(Clone, Copy)]
pub struct Hex<'o>(pub &'o [u8]);

impl fmt::Display for Hex<'_> {
    fn fmt<W: fmt::Write>(&self, f: &mut fmt::Formatter<W>) -> fmt::Result {
        for octet in self.0 {
            write!(f, "{octet:02x}")?;
        }
        Ok(())
    }
}

/// Octets in hex, or `-` where there are none.
#[derive(Clone, Copy)]
pub struct HexOrNone<'o>(pub &'o [u8]);

impl fmt::Display for HexOrNone<'_> {
    fn fmt<W: fmt::Write>(&self, f: &mut fmt::Formatter<W>) -> fmt::Result {
        if self.0.is_empty() {
            return write!(f, "-");
        }
        let octets = Hex(self.0);
        write!(f, "{octets}")
    }
}

/// How driving a connection ended.
#[derive(Clone, Copy)]
pub struct End(pub Result<DriveEnd, DriveFault>);

impl fmt::Display for End {
    fn fmt<W: fmt::Write>(&self, f: &mut fmt::Formatter<W>) -> fmt::Result {
        match self.0 {
            Ok(DriveEnd::Input) => write!(f, "input"),
            Ok(DriveEnd::Goaway(code)) => write!(f, "goaway {code}"),
            Err(fault) => write!(f, "{fault:?}"),
        }
    }
}
