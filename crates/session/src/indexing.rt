// The elements of a book's papers, found by their paths.
ghost use Rattle.std.specs.Prelude.{◌<◌, IfOk, length, option_map};
ghost use Rattle.element.specs.Indexed.{IndexOf};
ghost use Rattle.element.specs.Located.{Piece};
ghost use Rattle.session.specs.Books.{paper_at};
ghost use Rattle.session.specs.inner.Held.{IndexesOf, KeepsIndexes, SameHeld, held};

use crate::Book;
use element::{Index, piece};
use std::alloc::{AllocError, Global};

// The index of the elements of some bytes. Its box is made before its entries, so that it doesn't stand behind these in memory: once an index is dropped, less keeps its place from being a part of a larger one.
fn index_of(heap: Global, bytes: &[u8]) -> Result<Box<Index>, AllocError>
    ensures { IfOk result (λ i. IndexOf bytes.now i.value) }
{
    let mut index = Box::new(heap, Index::new(heap, &[])?)?;
    *index = Index::new(heap, bytes)?;
    Ok(index)
}

impl Book {
    // Makes a place for the index of each paper, as far as there is memory.
    fn make_places(&mut self)
        requires { IndexesOf (held self.old).papers self.old.indexes.items }
        ensures same { SameHeld self.old self.new }
        ensures indexed { KeepsIndexes self.old self.new }
    {
        for _ in self.indexes.len()..self.papers.len() {
            if self.indexes.push(None).is_err() {
                return;
            }
        }
    }

    // Notes the elements of a paper unless they are noted. Where memory runs out the paper stays without an index.
    fn note_index(&mut self, heap: Global, place: usize)
        requires there { place < length (held self.old).papers }
        requires indexed { IndexesOf (held self.old).papers self.old.indexes.items }
        ensures same { SameHeld self.old self.new }
        ensures indexed { KeepsIndexes self.old self.new }
    {
        self.make_places();
        if place < self.indexes.len() && self.indexes[place].is_none() {
            self.indexes[place] = index_of(heap, &self.papers[place]).ok();
        }
    }

    // Notes the elements of a paper, unless it may be walked through once more.
    pub(crate) fn prepare(&mut self, heap: Global, place: usize)
        requires there { place < length (held self.old).papers }
        requires indexed { IndexesOf (held self.old).papers self.old.indexes.items }
        ensures same { SameHeld self.old self.new }
        ensures indexed { KeepsIndexes self.old self.new }
    {
        match self.walks.checked_sub(self.papers[place].len()) {
            Some(left) => self.walks = left,
            None => self.note_index(heap, place),
        }
    }

    // The bytes of the element of a paper that a path leads to, tag and length included; none if there is no such element.
    pub(crate) fn piece(&self, place: usize, path: &[u64]) -> Option<&[u8]>
        requires there { place < length (held self.now).papers }
        requires indexed { IndexesOf (held self.now).papers self.now.indexes.items }
        ensures { Piece (paper_at (held self.now).papers place) path.now (option_map (λ part. part.now) result) }
    {
        let bytes = &self.papers[place];
        if place < self.indexes.len()
            && let Some(index) = &self.indexes[place]
        {
            return index.piece(bytes, path);
        }
        piece(bytes, path)
    }
}
