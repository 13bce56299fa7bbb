//! The hash, and its calls.
ghost use Rattle.std.specs.Prelude.{◌≡◌, ◌≤◌, ◌<◌, max, [], None, Some, IfOk, IsSome, OnOk, OnErr};
ghost use Rattle.page_hash.specs.View.{room, page_in, is_page, home, IsUnused, IsRehomed, IsRoomChanged, IsInOrder};

use crate::cells::{cell_of, empty_cells, file, file_all, refile, unfile};
use link_lists::{Chain, Nodes, a_chain_is_one_list};
use page_ids::{OutOfMemory, PageId};
use std::alloc::Global;
use std::marker::Model;

/// The frame of each page that is in a pool's instance (buf0buf's `page_hash`).
///
/// A map from page to frame, no frame twice. A frame is a number below the room.
#[derive(Debug, Drop)]
pub struct PageHash {
    cells: Vec<Chain>,
    nodes: Nodes,
    /// The page of each frame.
    pages: Vec<Option<PageId>>,
}

impl Model for PageHash {
    ghost use Rattle.std.specs.Prelude.{List, Option};
    ghost use Rattle.page_ids.specs.declared.ids.PageId.{PageId};

    ghost Value = { List (Option PageId) };

    ghost use Rattle.page_hash.specs.Inside.{IsKept};

    ghost view = { λ h. h.pages.items };

    ghost invariant = { IsKept };
}

impl PageHash {
    /// The empty map, over so many cells, with room for no frame.
    pub fn new(alloc: Global, cells: u32) -> Result<PageHash, OutOfMemory>
        requires { 1 ≤ cells }
        ensures { IfOk result (λ hash. hash ≡ []) }
    {
        let cells = empty_cells(alloc, cells)?;
        Ok(PageHash {
            cells,
            nodes: Nodes::new(alloc, 1),
            pages: Vec::new(alloc),
        })
    }

    /// Whether the frame has this page.
    fn has(&self, frame: u32, page: PageId) -> bool
        requires { frame < room self.now }
        ensures { result ≡ is_page page (page_in self.now frame) }
    {
        match self.pages[frame as usize] {
            Some(other) => other == page,
            None => false,
        }
    }

    /// The frame of a page; none exactly where the page isn't in (buf0buf's `buf_page_hash_get_low`).
    pub fn find(&self, page: PageId) -> Option<u32>
        ensures { result ≡ home self.now page }
    {
        a_chain_is_one_list();
        let cell = &self.cells[cell_of(self.cells.len(), page)];
        let mut at = cell.front();
        while let Some(frame) = at {
            if self.has(frame, page) {
                return Some(frame);
            }
            at = cell.next(&self.nodes, frame);
        }
        None
    }

    /// No frame is the home of two pages, and each is below the room. Does nothing; who calls it has this of the map.
    pub fn stands_in_order(&self)
        ensures { IsInOrder self.now }
    {
        let _room = self.pages.len();
    }

    /// Puts a page in, which is in this frame from now on (buf0buf's `buf_page_init`).
    pub fn insert(&mut self, page: PageId, frame: u32)
        requires room { frame < room self.old }
        requires page { home self.old page ≡ None }
        requires frame { IsUnused self.old frame }
        ensures { IsRehomed self.old self.new page (Some frame) }
    {
        file(&mut self.cells, &mut self.nodes, page, frame);
        self.pages[frame as usize] = Some(page);
    }

    /// Takes a page out (buf0lru's `buf_LRU_block_remove_hashed`).
    pub fn remove(&mut self, page: PageId)
        requires { IsSome (home self.old page) }
        ensures { IsRehomed self.old self.new page None }
    {
        match self.find(page) {
            Some(frame) => {
                unfile(&mut self.cells, &mut self.nodes, page, frame);
                self.pages[frame as usize] = None;
            }
            None => unreachable!(),
        }
    }

    /// Puts a page that is in into another frame (buf0buf's `buf_relocate`).
    pub fn replace(&mut self, page: PageId, new: u32)
        requires page { IsSome (home self.old page) }
        requires room { new < room self.old }
        requires frame { IsUnused self.old new }
        ensures { IsRehomed self.old self.new page (Some new) }
    {
        match self.find(page) {
            Some(old) => {
                refile(&mut self.cells, &mut self.nodes, page, old, new);
                self.pages[old as usize] = None;
                self.pages[new as usize] = Some(page);
            }
            None => unreachable!(),
        }
    }

    /// Spreads the pages over so many cells, and makes room for the frames below `frames`. No page gets another frame, and there is never
    /// less room than before.
    pub fn resize(&mut self, cells: u32, frames: u32) -> Result<(), OutOfMemory>
        requires { 1 ≤ cells }
        ensures ok { OnOk result (IsRoomChanged self.old self.new (max (room self.old) frames)) }
        ensures err { OnErr result (self.new ≡ self.old) }
    {
        let alloc = *self.pages.allocator();
        let room = frames.max(self.pages.len() as u32);
        let mut cells = empty_cells(alloc, cells)?;
        let mut nodes = Nodes::new(alloc, 1);
        nodes.grow(room)?;
        self.pages.resize(room as usize, None)?;
        file_all(&mut cells, &mut nodes, &self.pages);
        self.cells = cells;
        self.nodes = nodes;
        Ok(())
    }
}
