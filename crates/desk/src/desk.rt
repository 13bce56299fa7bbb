//! One instance's desk: its history with the lists and the disk, and the steps that its calls share.
ghost use Rattle.std.specs.Prelude.{List, ◌≡◌, ◌<◌, ◌≤◌, ◌+◌, ◌*◌, ◌^◌, [], ℕ, Some, None, IfOk, IfErr, IfSome, IsSome, length, reverse, vec_len, MatchOption};
ghost use Rattle.page_ids.specs.Size.{page_bytes};
ghost use Rattle.page_ids.specs.Layout.{IsPage};
ghost use Rattle.page_ids.specs.declared.ids.PageId.{PageId};
ghost use Rattle.page_ids.specs.declared.limits.TheConstants.{CLOCK_BITS};
ghost use Rattle.page_disk.specs.Disks.{IsInside};
ghost use Rattle.trail.specs.Trails.{mark};
ghost use Rattle.trail.specs.History.{home, value};
ghost use Rattle.trail.specs.Dirt.{dirty};
ghost use Rattle.trail.specs.declared.event.Entry.{Entry};
ghost use Rattle.frame_words.specs.Appends.{appended, fixed_frame};
ghost use Rattle.frame_words.specs.Conditions.{MayAppend, IsUnlatched, IsUncovered};
ghost use Rattle.frame_words.specs.Plain.{seen_of};
ghost use Rattle.frame_words.specs.Rows.{latched_row, lifted_row};
ghost use Rattle.frame_words.specs.Seen.{FramesSeen, row_at, with_row, KeepsRoom};
ghost use Rattle.desk.specs.Base.{Opened};
ghost use Rattle.desk.specs.Behind.{IsBehind, IsNewlyOpened};
ghost use Rattle.instance_lists.specs.Ledger.{IsOneChunk, MayCome};
ghost use Rattle.desk.specs.Ledger.{ledger_of};
ghost use Rattle.desk.specs.Loads.{AreBlank};
ghost use Rattle.desk.specs.State.{State};
ghost use Rattle.desk.specs.Steps.{IsAppended, IsNewDesk, next_entry};
ghost use Rattle.desk.specs.Tied.{AreTied};

use crate::calls::Caller;
use frame_words::{Frames, PlainFrames};
use instance_lists::InstanceLists;
use page_disk::PageDisk;
use page_ids::{Config, Image, OutOfMemory, PageId};
use std::alloc::Global;
use std::marker::Model;
use trail::{Entry, Kind};

/// One instance's history with its lists, and the disk.
#[derive(Drop)]
pub struct Desk<D: PageDisk> {
    pub(crate) instance: u16,
    pub(crate) lists: InstanceLists,
    pub(crate) disk: D,
    /// As long as a page.
    pub(crate) buffer: Vec<u8>,
}

impl<D: PageDisk> Model for Desk<D> {
    ghost use Rattle.std.specs.Prelude.{vec_len, ◌≡◌};
    ghost use Rattle.desk.specs.State.{DeskWithRoom, AreInside};
    ghost use Rattle.page_ids.specs.Size.{page_bytes};

    ghost Value = { DeskWithRoom D };

    ghost view = { λ s. record {
      state = record { config = s.lists.config; instance = s.instance; history = s.lists.history; disk = s.disk };
      room = s.lists.room;
    } };

    ghost invariant = { λ s. ((D.seen s.disk).size ≡ page_bytes s.lists.config.page)
        × (vec_len s.buffer ≡ page_bytes s.lists.config.page)
        × AreInside (D.seen s.disk).spaces s.lists.history };
}

impl<D: PageDisk> Desk<D> {
    /// A desk with an empty history over a disk. Want of memory hands the disk back.
    pub fn new(
        alloc: Global,
        config: &Config,
        instance: u16,
        disk: D,
    ) -> Result<Desk<D>, (OutOfMemory, D)>
        requires start { IsOneChunk config.now }
        requires size { (D.seen disk).size ≡ page_bytes config.now.page }
        ensures fresh { IfOk result (λ desk. IsNewDesk desk.state config.now instance disk) }
        ensures behind { IfOk result (λ desk. (o : Opened) (frames : FramesSeen) → IsNewlyOpened o (D.seen disk)
            → IsBehind D.seen o desk.state frames) }
        ensures back { IfErr result (λ e. e.1 ≡ disk) }
    {
        match parts_of(alloc, config) {
            Ok((lists, buffer)) => Ok(Desk {
                instance,
                lists,
                disk,
                buffer,
            }),
            Err(error) => Err((error, disk)),
        }
    }

    /// The frames of a desk whose history is empty: `frames * max` of its numbers, with a blank image in each frame of the one chunk.
    pub fn blank_frames(&self, alloc: Global) -> Result<PlainFrames, OutOfMemory>
        requires start { IsOneChunk self.now.state.config }
        requires fresh { self.now.state.history ≡ [] }
        ensures tied { IfOk result (λ frames. AreTied D.seen (seen_of frames) self.now.state) }
        ensures unfixed { IfOk result (λ frames. (f : ℕ) → f < length frames.rows → (row_at (seen_of frames) f).held ≡ Some 0) }
    {
        blank_chunk(alloc, self.lists.config())
    }

    /// The place of the last entry.
    pub fn mark(&self) -> u64
        requires places { self.now.state.config.first + length self.now.state.history < 2 ^ 64 }
        ensures { result ≡ mark self.now.state.config.first self.now.state.history }
    {
        self.lists.mark()
    }

    /// Appends an entry to the desk's history, and to that which the frames tell.
    pub(crate) fn append<F: Frames>(&mut self, frames: &mut F, by: Caller, kind: Kind)
        requires places { self.old.state.config.first + length self.old.state.history + 1 < 2 ^ CLOCK_BITS }
        requires room { 0 < self.old.room }
        requires may { MayCome (ledger_of self.old) kind }
        requires frames { MayAppend (F.seen frames.old) (next_entry self.old.state by kind) }
        requires inside { (page : PageId) (frame : ℕ) → kind ≡ Kind.Load page frame → IsInside (D.seen self.old.state.disk).spaces page }
        requires made { (page : PageId) (frame start end now : ℕ) → kind ≡ Kind.Create page frame start end now
            → IsInside (D.seen self.old.state.disk).spaces page }
        ensures appended { IsAppended self.old.state self.new.state by kind }
        ensures seen { F.seen frames.new ≡ appended (F.seen frames.old) (next_entry self.old.state by kind) }
        ensures fixes { fixed_frame kind ≡ None → KeepsRoom (F.room frames.old) (F.room frames.new) }
        ensures disk { self.new.state.disk ≡ self.old.state.disk }
        ensures room { self.old.room ≤ self.new.room + 1 }
    {
        let entry = self.lists.next(by.pass, by.number, kind);
        frames.append(&entry);
        self.lists.append(entry);
    }

    /// The frame of a resident page.
    pub(crate) fn frame_of(&self, page: PageId) -> u32
        requires resident { IsSome (home self.now.state.history page) }
        ensures home { home self.now.state.history page ≡ Some result }
        ensures below { result < self.now.state.config.frames }
        ensures only { (q : PageId) → home self.now.state.history q ≡ Some result → q ≡ page }
    {
        match self.lists.home(page) {
            Some(frame) => frame,
            None => unreachable!(),
        }
    }

    /// Hands back the disk and the history, the oldest entry first.
    pub fn end(self) -> (D, Vec<Entry>)
        ensures disk { result.0 ≡ self.state.disk }
        ensures history { reverse result.1.items ≡ self.state.history }
    {
        let Desk {
            instance: _,
            lists,
            disk,
            buffer: _,
        } = self;
        (disk, lists.into_history())
    }
}

/// Latches a frame that nobody else can latch, and takes its image out.
pub(crate) fn take_image<F: Frames>(frames: &mut F, frame: u32) -> Image
    requires inside { frame < length (F.seen frames.old).rows }
    requires unlatched { IsUnlatched (F.seen frames.old) frame }
    requires alone { IsSome (row_at (F.seen frames.old) frame).held }
    requires there { IsSome (row_at (F.seen frames.old) frame).image }
    ensures image { IsUncovered (F.seen frames.old) frame (Some (Some result)) }
    ensures seen { F.seen frames.new ≡ with_row (F.seen frames.old) frame (lifted_row (latched_row (row_at (F.seen frames.old) frame) None)) }
{
    match frames.latch(frame) {
        Ok(()) => frames.lift(frame),
        Err(_) => unreachable!(),
    }
}

/// The lists of a new desk, and its buffer.
fn parts_of(alloc: Global, config: &Config) -> Result<(InstanceLists, Vec<u8>), OutOfMemory>
    requires start { IsOneChunk config.now }
    ensures lists { IfOk result (λ parts. (parts.0.config ≡ config.now) × (parts.0.history ≡ [])) }
    ensures buffer { IfOk result (λ parts. vec_len parts.1 ≡ page_bytes config.now.page) }
{
    let lists = InstanceLists::new(alloc, config)?;
    let buffer = vec![in alloc; 0; config.page.bytes() as usize]?;
    Ok((lists, buffer))
}

/// The frames of a pool of these numbers, with a blank image in each frame of its one chunk.
fn blank_chunk(alloc: Global, config: &Config) -> Result<PlainFrames, OutOfMemory>
    requires start { IsOneChunk config.now }
    ensures { IfOk result (λ frames. AreBlank (page_bytes config.now.page) config.now.frames (config.now.frames * config.now.max) frames) }
{
    let mut frames = PlainFrames::new(alloc);
    frames.grow(config.frames * config.max)?;
    for frame in 0..config.frames {
        let image = Image::blank(alloc, config.page)?;
        frames.lay(frame, image);
    }
    Ok(frames)
}

/// No more pages are dirty than there are entries. A law.
pub fn dirty_pages_are_few()
    ensures { (h : List Entry) → length (dirty h) ≤ length h }
{}

/// Where nothing is dirty, the disk has the pages' values: each told page inside its space is a page for its value, and is told as at the
/// opening where it has none. A law.
pub fn clean_disk_holds_the_values<D: PageDisk>()
    ensures { (o : Opened) (desk : State D) (frames : FramesSeen) → IsBehind D.seen o desk frames → dirty desk.history ≡ []
        → (p : PageId) → p.page < o.pages p.space
        → IfSome ((D.seen desk.disk).told p) (λ bytes. MatchOption (value o.size o.base desk.history p) (o.told p ≡ Some bytes) (λ c. IsPage p bytes c)) }
{}
