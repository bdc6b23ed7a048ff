// The words of one array: numbers, or nothing where they are undefined.

ghost use Rattle.std.specs.Prelude.{◌≡◌, IfOk, None, Some, length, pos, replicate, slice_index_or, slice_set};

use std::alloc::Global;
use std::marker::Model;
use vx_base::outcome::NoMemory;

/// The words of an array. In a contract it is their list.
#[derive(Drop)]
pub struct Cells {
    words: Vec<Option<i32>>,
}

impl Model for Cells {
    ghost use Rattle.std.specs.Prelude.{List, Option, ℤ};

    ghost Value = { List (Option ℤ) };

    ghost view = { λ c. c.words.items };
}

impl Cells {
    /// So many words that all hold this.
    pub fn filled(alloc: Global, count: u32, content: Option<i32>) -> Result<Cells, NoMemory>
        ensures { IfOk result (λ cells. cells ≡ replicate count content) }
    {
        let mut words = Vec::new(alloc);
        'words: for _ in 0..count {
            words.push(content)?;
        }
        Ok(Cells { words })
    }

    /// How many words there are.
    pub fn len(&self) -> usize
        ensures { result ≡ length self.now }
    {
        self.words.len()
    }

    /// What a word holds; nothing where it is not there.
    pub fn get(&self, index: usize) -> Option<i32>
        ensures { result ≡ slice_index_or self.now index None }
    {
        match self.words.get(index) {
            Some(content) => *content,
            None => None,
        }
    }

    /// Makes a word hold this, where it is there.
    pub fn set(&mut self, index: usize, content: Option<i32>)
        ensures { self.new ≡ slice_set self.old index content }
    {
        if index < self.words.len() {
            self.words[index] = content;
        }
    }
}
