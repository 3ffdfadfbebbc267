//! The image of a text's words.

ghost use Rattle.std.specs.Prelude.{◌<◌, ◌^◌, length, IfOk, IfErr};
ghost use Rattle.ags_image.specs.Form.{ReadBy};
ghost use Rattle.ags_image.specs.Fault.{IsFaultOf};
ghost use Rattle.ags_image.specs.Lines.{feed_lines};

use crate::forms::LineForm;
use crate::images::Image;
use crate::lines::split_line;
use std::alloc::Global;

/// Why a text has no image: the first fault in it, or want of memory.
#[derive(Clone, Copy)]
pub enum ReadError {
    /// This line hasn't the form.
    BadLine {
        /// Its number, counted from 1.
        line: u32,
    },
    /// This line puts a word at a place where an earlier line put one.
    PlaceTwice {
        /// Its number, counted from 1.
        line: u32,
        /// The place.
        location: u16,
    },
    /// There was too little memory.
    NoMemory,
}

/// Reads the lines of a text into an image, or tells the first fault.
pub fn read_image<F: LineForm>(alloc: Global, bytes: &[u8]) -> Result<Image, ReadError>
    requires { length bytes.now < 2 ^ 32 }
    ensures image { IfOk result (ReadBy F.form (feed_lines bytes.now)) }
    ensures fault { IfErr result (IsFaultOf F.form (feed_lines bytes.now)) }
{
    let Ok(mut image) = Image::new(alloc) else {
        return Err(ReadError::NoMemory);
    };
    let mut number = 0u32;
    let mut rest = bytes;
    while let Some((line, behind)) = split_line(rest) {
        number += 1;
        rest = behind;
        let Some(entry) = F::read(line) else {
            return Err(ReadError::BadLine { line: number });
        };
        let Some(placed) = entry else {
            continue;
        };
        let (location, word) = placed;
        if image.get(location).is_some() {
            return Err(ReadError::PlaceTwice {
                line: number,
                location,
            });
        }
        image.set(location, word);
    }
    Ok(image)
}
