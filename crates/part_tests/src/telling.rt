//! Frames of one thread that tell a history, and whose turn it is.
ghost use Rattle.std.specs.Prelude.{◌≡◌, ◌<◌, ◌+◌, ◌^◌, [], None, IfOk, replicate, if◌then◌else◌};
ghost use Rattle.trail.specs.Kinds.{kind_answers};
ghost use Rattle.frame_words.specs.Rows.{new_row};
ghost use Rattle.part_tests.specs.Telling.{Telling};

use frame_words::{Frames, PlainFrames};
use page_ids::{Config, Image, OutOfMemory, PageId, Word};
use std::alloc::Global;
use std::marker::Model;
use std::process::Abort;
use std::snapshot::Snapshot;
use trail::{Entry, Kind};

/// Plain frames with a history, of which only clauses read the entries, and the caller and number of the call under way.
/// Where there is no memory for an entry, the process ends.
#[derive(Drop)]
pub(crate) struct TellingFrames<R: Abort + Copy> {
    runtime: R,
    frames: PlainFrames,
    config: Config,
    entries: Vec<Snapshot<Entry>>,
    caller: u32,
    number: u64,
}

impl<R: Abort + Copy> Model for TellingFrames<R> {
    ghost use Rattle.std.specs.Prelude.{◌<◌, ◌≤◌, ◌+◌, ◌-◌, ◌^◌, map, reverse, length};
    ghost use Rattle.page_ids.specs.Size.{page_bytes};
    ghost use Rattle.part_tests.specs.Telling.{Telling, AreTold};

    ghost Value = { Telling };

    ghost view = { λ t. record {
      plain = t.frames;
      history = record { config = t.config; instance = 0; entries = reverse (map (λ e. e.value) t.entries.items) };
      turn = record { caller = t.caller; number = t.number };
    } };

    ghost invariant = { λ t. AreTold (page_bytes t.config.page) t.frames.rows };
}

impl<R: Abort + Copy> TellingFrames<R> {
    /// So many new frames, with no entries yet, at the first call of the caller.
    #[tactic(auto, using(crate::proofs::Tells::new_kept))]
    pub(crate) fn new(
        runtime: R,
        alloc: Global,
        config: Config,
        frames: u32,
        caller: u32,
    ) -> Result<TellingFrames<R>, OutOfMemory>
        ensures { IfOk result (λ t. t ≡ record {
          plain = record { rows = replicate frames new_row; visit = None; owed = None };
          history = record { config = config; instance = 0; entries = [] };
          turn = record { caller = caller; number = 1 };
        }) }
    {
        let mut plain = PlainFrames::new(alloc);
        plain.grow(frames)?;
        Ok(TellingFrames {
            runtime,
            frames: plain,
            config,
            entries: Vec::new(alloc),
            caller,
            number: 1,
        })
    }
}

// The number of the call under way behind the entry, or of the next one.
fn next_number(entry: &Entry) -> u64
    ensures { result ≡ (if kind_answers entry.now.kind then entry.now.number + 1 else entry.now.number) }
{
    let number = u64::from(entry.number);
    if answers(&entry.kind) {
        number + 1
    } else {
        number
    }
}

// Whether an entry of this kind ends its call.
fn answers(kind: &Kind) -> bool
    ensures { result ≡ kind_answers kind.now }
{
    match kind {
        Kind::Load { .. } => false,
        Kind::Evict { .. } => false,
        Kind::Write { .. } => false,
        Kind::Move { .. } => false,
        Kind::Withdraw { .. } => false,
        Kind::Undo { .. } => false,
        Kind::Shrink { .. } => false,
        Kind::Grow { .. } => false,
        _ => true,
    }
}

impl<R: Abort + Copy> Frames for TellingFrames<R> {
    ghost use Rattle.frame_words.specs.Plain.{room_of};
    ghost use Rattle.part_tests.specs.Telling.{telling_seen};

    ghost seen = { telling_seen };

    ghost room = { λ t. room_of t.plain };

    fn frames(&self) -> u32 {
        self.frames.frames()
    }

    #[tactic(auto, using(crate::proofs::Tells::append_inside, crate::proofs::Tells::kept_appended, crate::proofs::Tells::newest_first))]
    fn append(&mut self, entry: &Entry) {
        self.frames.append(entry);
        if self.entries.reserve(1).is_err() {
            panic!(self.runtime; "no memory for an entry");
        }
        self.entries.push_reserved(Snapshot::of(entry));
        self.number = next_number(entry);
    }

    #[tactic(auto, using(crate::proofs::Tells::free_inside, crate::proofs::Tells::kept_same))]
    fn look(&mut self, frame: u32) -> Word {
        self.frames.look(frame)
    }

    #[tactic(auto, using(crate::proofs::Tells::free_inside, crate::proofs::Tells::kept_same, crate::proofs::Tells::kept_claimed))]
    fn claim(&mut self, frame: u32) -> Result<(), Word> {
        if let Err(word) = self.frames.claim(frame) {
            return Err(word);
        }
        Ok(())
    }

    #[tactic(auto, using(crate::proofs::Tells::publish_inside, crate::proofs::Tells::kept_published))]
    fn publish(&mut self, frame: u32, page: PageId, clock: u64) {
        self.frames.publish(frame, page, clock);
    }

    fn visit(&mut self, frame: u32) -> Word {
        self.frames.visit(frame)
    }

    #[tactic(auto, using(crate::proofs::Tells::kept_left))]
    fn leave(&mut self, frame: u32) -> Word {
        self.frames.leave(frame)
    }

    #[tactic(auto, using(crate::proofs::Tells::kept_same, crate::proofs::Tells::kept_latched))]
    fn latch(&mut self, frame: u32) -> Result<(), Word> {
        if let Err(word) = self.frames.latch(frame) {
            return Err(word);
        }
        Ok(())
    }

    #[tactic(auto, using(crate::proofs::Tells::latched_inside, crate::proofs::Tells::kept_stamped))]
    fn stamp(&mut self, frame: u32, clock: u64) {
        self.frames.stamp(frame, clock);
    }

    #[tactic(auto, using(crate::proofs::Tells::unlatch_inside, crate::proofs::Tells::kept_unlatched))]
    fn unlatch(&mut self, frame: u32) {
        self.frames.unlatch(frame);
    }

    #[tactic(auto, using(crate::proofs::Tells::reached_inside, crate::proofs::Tells::kept_lifted))]
    fn lift(&mut self, frame: u32) -> Image {
        self.frames.lift(frame)
    }

    #[tactic(auto, using(crate::proofs::Tells::lay_inside, crate::proofs::Tells::kept_laid))]
    fn lay(&mut self, frame: u32, image: Image) {
        self.frames.lay(frame, image);
    }
}
