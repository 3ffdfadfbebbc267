//! The image: an optional word for each location.
#![tactic(auto, unfolding(crate::specs::Image::no_words, crate::specs::Image::entry_at, crate::specs::Image::word_at, crate::specs::Image::with_word))]

ghost use Rattle.std.specs.Prelude.{◌≡◌, ◌<◌, IfOk};
ghost use Rattle.ags_image.specs.Image.{memory_size, no_words, entry_at, word_at, with_word, IsImage};

use ags_word::{LOCATIONS, Word};
use std::alloc::{AllocError, Global};
use std::marker::Model;

/// What an assembly puts into the machine's memory: for each of its 4096 locations a word, or none.
#[derive(Drop)]
pub struct Image {
    entries: Vec<Option<Word>>,
}

impl Model for Image {
    ghost use Rattle.std.specs.Prelude.{ℕ, List, Option};

    ghost Value = { List (Option ℕ) };

    ghost use Rattle.ags_image.specs.Image.{IsImage};

    ghost view = { λ image. image.entries.items };

    ghost invariant = { λ image. IsImage image.entries.items };
}

impl Image {
    /// The image of a source with no word. Its one error is want of memory.
    pub fn new(alloc: Global) -> Result<Image, AllocError>
        ensures empty { IfOk result (λ image. image ≡ no_words) }
        ensures image { IfOk result IsImage }
    {
        Ok(Image {
            entries: vec![in alloc; None; LOCATIONS as usize]?,
        })
    }

    /// A location's word, if it has one.
    pub fn get(&self, location: u16) -> Option<Word>
        requires { location < memory_size }
        ensures entry { result ≡ entry_at self.now location }
        ensures image { IsImage self.now }
    {
        self.entries[location as usize]
    }

    /// A location's word, and the word 0 where it has none.
    pub fn word_at(&self, location: u16) -> Word
        requires { location < memory_size }
        ensures word { result ≡ word_at self.now location }
        ensures image { IsImage self.now }
    {
        self.get(location).unwrap_or(Word::ZERO)
    }

    /// Gives a location a word, in place of the one that it has, if any. Every other location stays as it was.
    pub fn set(&mut self, location: u16, word: Word)
        requires { location < memory_size }
        ensures word { self.new ≡ with_word self.old location word }
        ensures image { IsImage self.new }
    {
        self.entries[location as usize] = Some(word);
    }
}
