//! A line of text in the making.

ghost use Rattle.std.specs.Prelude.{◌≡◌, ◌++◌, ◌∷◌, [], IfOk, IfSome};
ghost use Rattle.sp_texts.specs.Reports.{line_of};

use crate::{Report, Status};
use std::alloc::{AllocError, Global};
use std::fmt::Display;
use std::marker::Model;

/// A line of text in the making: bytes, since names of classes are in modified UTF-8.
#[derive(Drop)]
pub struct Line {
    alloc: Global,
    bytes: Vec<u8>,
}

impl Model for Line {
    ghost use Rattle.std.specs.Prelude.{ℕ, List};

    ghost Value = { List ℕ };

    ghost view = { λ line. line.bytes.items };
}

impl Line {
    /// Returns an empty line.
    pub fn new(alloc: Global) -> Line
        ensures { result ≡ [] }
    {
        Line {
            alloc,
            bytes: Vec::new(alloc),
        }
    }

    /// Returns the line with these bytes after it.
    pub fn bytes(mut self, bytes: &[u8]) -> Result<Line, AllocError>
        ensures { IfOk result (λ line. line ≡ self ++ bytes.now) }
    {
        self.bytes.extend_from_slice(bytes)?;
        Ok(self)
    }

    /// Returns the line with this text after it.
    pub fn text(self, text: &str) -> Result<Line, AllocError>
        ensures { IfOk result (λ line. line ≡ self ++ text.now) }
    {
        self.bytes(text.as_bytes())
    }

    /// Returns the line with what is displayed after it.
    pub fn display<D: Display>(self, shown: &D) -> Result<Line, AllocError>
        ensures { IfOk result (λ line. IfSome (D.output shown.now) (λ text. line ≡ self ++ text)) }
    {
        let text = shown.to_string(self.alloc)?;
        self.text(text.as_str())
    }

    /// Returns the line, ended, as a report with this status.
    pub fn report(self, status: Status) -> Result<Report, AllocError>
        ensures status { IfOk result (λ report. report.status ≡ status) }
        ensures text { IfOk result (λ report. report.text.items ≡ line_of self) }
    {
        let line = self.text("\n")?;
        Ok(Report {
            text: line.bytes,
            status,
        })
    }
}
