//! Frames in the chains of their cells.
ghost use Rattle.std.specs.Prelude.{◌≡◌, ◌<◌, ◌≤◌, ◌^◌, ℕ, length, vec_len, Option, None, Some, IfOk};
ghost use Rattle.link_lists.specs.Grid.{Grid};
ghost use Rattle.page_ids.specs.declared.ids.PageId.{PageId};
ghost use Rattle.page_hash.specs.Cells.{cell_of, with_page, AreFiled};
ghost use Rattle.page_hash.specs.View.{page_in};

use link_lists::{Chain, Nodes};
use page_ids::{OutOfMemory, PageId};
use std::alloc::Global;

/// The cell of a page, of so many: the fold of its id (buf0types' `page_id_t::fold`), taken modulo their number.
pub fn cell_of(cells: usize, page: PageId) -> usize
    requires some { 0 < cells }
    ensures cell { result ≡ cell_of cells page }
    ensures inside { result < cells }
{
    let space = u64::from(page.space);
    let fold = space * 0x10_0000 + space + u64::from(page.page);
    (fold % cells as u64) as usize
}

/// So many empty cells.
pub fn empty_cells(alloc: Global, count: u32) -> Result<Vec<Chain>, OutOfMemory>
    ensures count { IfOk result (λ cells. vec_len cells ≡ count) }
    ensures empty { IfOk result (λ cells. (g : Grid) → 0 < g.pairs → AreFiled g cells.items (λ _. None)) }
{
    let mut cells = Vec::with_capacity(alloc, count as usize)?;
    for _ in 0..count {
        cells.push_reserved(Chain::new(0));
    }
    Ok(cells)
}

/// Puts a frame that has this page now into the page's cell.
pub fn file(cells: &mut Vec<Chain>, nodes: &mut Nodes, page: PageId, frame: u32)
    requires some { 0 < vec_len cells.old }
    requires exists { frame < nodes.old.nodes }
    requires filed { (at : ℕ → Option PageId) × AreFiled nodes.old cells.old.items at × (at frame ≡ None) }
    ensures filed { (at : ℕ → Option PageId) → AreFiled nodes.old cells.old.items at → at frame ≡ None
        → AreFiled nodes.new cells.new.items (with_page frame (Some page) at) }
    ensures cells { vec_len cells.new ≡ vec_len cells.old }
    ensures nodes { nodes.new.nodes ≡ nodes.old.nodes }
{
    let at = cell_of(cells.len(), page);
    let cell = &mut cells[at];
    cell.push_front(nodes, frame);
}

/// Puts a frame into the cell of the page that it has now, if it has one.
fn file_any(cells: &mut Vec<Chain>, nodes: &mut Nodes, page: Option<PageId>, frame: u32)
    requires some { 0 < vec_len cells.old }
    requires exists { frame < nodes.old.nodes }
    requires filed { (at : ℕ → Option PageId) × AreFiled nodes.old cells.old.items at × (at frame ≡ None) }
    ensures filed { (at : ℕ → Option PageId) → AreFiled nodes.old cells.old.items at → at frame ≡ None
        → AreFiled nodes.new cells.new.items (with_page frame page at) }
    ensures cells { vec_len cells.new ≡ vec_len cells.old }
    ensures nodes { nodes.new.nodes ≡ nodes.old.nodes }
{
    let Some(page) = page else {
        return;
    };
    file(cells, nodes, page, frame);
}

/// Puts each frame that has a page into the page's cell.
pub fn file_all(cells: &mut Vec<Chain>, nodes: &mut Nodes, pages: &[Option<PageId>])
    requires some { 0 < vec_len cells.old }
    requires exist { length pages.now ≤ nodes.old.nodes }
    requires fit { length pages.now < 2 ^ 32 }
    requires empty { AreFiled nodes.old cells.old.items (λ _. None) }
    ensures filed { AreFiled nodes.new cells.new.items (page_in pages.now) }
    ensures cells { vec_len cells.new ≡ vec_len cells.old }
    ensures nodes { nodes.new.nodes ≡ nodes.old.nodes }
{
    for (i, page) in pages.iter().enumerate() {
        file_any(cells, nodes, *page, i as u32);
    }
}

/// Takes a frame that had this page out of the page's cell.
pub fn unfile(cells: &mut Vec<Chain>, nodes: &mut Nodes, page: PageId, frame: u32)
    requires some { 0 < vec_len cells.old }
    requires filed { (at : ℕ → Option PageId) × AreFiled nodes.old cells.old.items at × (at frame ≡ Some page) }
    ensures filed { (at : ℕ → Option PageId) → AreFiled nodes.old cells.old.items at → at frame ≡ Some page
        → AreFiled nodes.new cells.new.items (with_page frame None at) }
    ensures cells { vec_len cells.new ≡ vec_len cells.old }
    ensures nodes { nodes.new.nodes ≡ nodes.old.nodes }
{
    let at = cell_of(cells.len(), page);
    let cell = &mut cells[at];
    cell.unlink(nodes, frame);
}

/// Puts the frame that has this page now in the place of the one that had it.
pub fn refile(cells: &mut Vec<Chain>, nodes: &mut Nodes, page: PageId, old: u32, new: u32)
    requires some { 0 < vec_len cells.old }
    requires exists { new < nodes.old.nodes }
    requires filed { (at : ℕ → Option PageId) × AreFiled nodes.old cells.old.items at
        × (at old ≡ Some page) × (at new ≡ None) }
    ensures filed { (at : ℕ → Option PageId) → AreFiled nodes.old cells.old.items at
        → at old ≡ Some page → at new ≡ None
        → AreFiled nodes.new cells.new.items (with_page new (Some page) (with_page old None at)) }
    ensures cells { vec_len cells.new ≡ vec_len cells.old }
    ensures nodes { nodes.new.nodes ≡ nodes.old.nodes }
{
    let at = cell_of(cells.len(), page);
    let cell = &mut cells[at];
    cell.replace(nodes, old, new);
}
