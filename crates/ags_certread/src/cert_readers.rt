//! What a reader of pieces keeps.

use crate::ended_lines::EndedLines;
use std::marker::Model;

/// A reader of a certificate that comes in pieces. Of the text it keeps the line that has begun, at most 513 bytes of it, and what its
/// lines stated.
#[derive(Drop)]
pub struct CertReader {
    pub(crate) rest: Vec<u8>,
    pub(crate) lines: EndedLines,
}

impl Model for CertReader {
    ghost use Rattle.std.specs.Prelude.{◌≤◌, length};
    ghost use Rattle.ags_certread.specs.Kept.{Kept};

    ghost Value = { Kept };

    ghost view = { λ reader. record {
      ports = reader.lines.ports;
      rest = reader.rest.items;
      number = reader.lines.number;
      gathered = reader.lines.gathered;
      state = reader.lines.state;
    } };

    ghost invariant = { λ reader. length reader.rest.items ≤ 513 };
}
