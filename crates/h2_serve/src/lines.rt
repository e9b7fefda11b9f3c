//! The lines that a server prints. Definitions: `specs/Lines.antt`.

ghost use Rattle.h2_serve.specs.Lines.{end_line, listening_line, open_line};

use crate::{DriveEnd, DriveFault};
use h2_io::{DeviceFault, Number, Output, Text, texts};

/// `listening PORT`.
#[derive(Clone, Copy)]
pub struct ListeningLine(pub u16);

#[tactic(auto, unfolding(crate::specs::Lines::listening_line))]
impl Text for ListeningLine {
    ghost text = { λ x. listening_line x.0 };

    fn write_to<O: Output>(&self, output: &mut O) -> Result<(), DeviceFault> {
        texts!("listening ", Number(u64::from(self.0)), "\n").write_to(output)
    }
}

/// `connection NUMBER open`; the first connection is 1.
#[derive(Clone, Copy)]
pub struct OpenLine(pub u32);

#[tactic(auto, unfolding(crate::specs::Lines::open_line))]
impl Text for OpenLine {
    ghost text = { λ x. open_line x.0 };

    fn write_to<O: Output>(&self, output: &mut O) -> Result<(), DeviceFault> {
        texts!("connection ", Number(u64::from(self.0)), " open\n").write_to(output)
    }
}

/// `connection NUMBER end input`, `connection NUMBER end goaway CODE` or `connection NUMBER fault FAULT`.
#[derive(Clone, Copy)]
pub struct EndLine {
    /// The first connection is 1.
    pub number: u32,
    /// How it ended.
    pub end: Result<DriveEnd, DriveFault>,
}

#[tactic(auto, unfolding(crate::specs::Lines::end_line))]
impl Text for EndLine {
    ghost text = { λ x. end_line x.number x.end };

    fn write_to<O: Output>(&self, output: &mut O) -> Result<(), DeviceFault> {
        let number = Number(u64::from(self.number));
        match self.end {
            Ok(DriveEnd::Input) => texts!("connection ", number, " end input\n").write_to(output),
            Ok(DriveEnd::Goaway(code)) => {
                let code = Number(u64::from(code));
                texts!("connection ", number, " end goaway ", code, "\n").write_to(output)
            }
            Err(fault) => {
                let fault = Number(u64::from(fault.number()));
                texts!("connection ", number, " fault ", fault, "\n").write_to(output)
            }
        }
    }
}
