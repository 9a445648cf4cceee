//! Texts that are said of several paths.

use acpi_name::Path;
use std::alloc::{AllocError, Global};
use std::collections::BTreeMap;

/// A text, and the paths of which it is said.
#[derive(Drop)]
pub(crate) struct Block<'p> {
    pub text: Vec<u8>,
    pub paths: Vec<&'p Path>,
}

/// Texts in the order in which they were put first, each with the paths of which it is said.
#[derive(Drop)]
pub(crate) struct Blocks<'p> {
    alloc: Global,
    numbers: BTreeMap<Vec<u8>, usize>,
    pub blocks: Vec<Block<'p>>,
}

impl<'p> Blocks<'p> {
    pub(crate) fn new(alloc: Global) -> Blocks<'p> {
        Blocks {
            alloc,
            numbers: BTreeMap::new(alloc),
            blocks: Vec::new(alloc),
        }
    }

    /// Puts a text that is said of a path; of texts with one key that of the first path stays.
    pub(crate) fn put_by(
        &mut self,
        key: Vec<u8>,
        text: Vec<u8>,
        path: &'p Path,
    ) -> Result<(), AllocError> {
        let known = self.numbers.get(key.as_slice()).copied();
        if let Some(block) = known.and_then(|n| self.blocks.get_mut(n)) {
            block.paths.push(path)?;
            return Ok(());
        }
        self.numbers.insert(key, self.blocks.len())?;
        let mut paths = Vec::new(self.alloc);
        paths.push(path)?;
        self.blocks.push(Block { text, paths })?;
        Ok(())
    }

    /// Puts a text that is said of a path.
    pub(crate) fn put(&mut self, text: Vec<u8>, path: &'p Path) -> Result<(), AllocError> {
        let key = text.clone()?;
        self.put_by(key, text, path)
    }
}
