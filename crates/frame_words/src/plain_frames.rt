//! The frames of one thread.
ghost use Rattle.std.specs.Prelude.{◌≡◌, ◌<◌, ◌≤◌, ◌+◌, ◌-◌, ◌==◌, ◌++◌, [], Some, None, true, false, OnOk, OnErr, MatchOption, length, replicate, vec_len, vec_capacity};
ghost use Rattle.std.specs.Option.{option_map_or};
ghost use Rattle.frame_words.specs.Rows.{new_row, claimed_row, latched_row};
ghost use Rattle.frame_words.specs.Seen.{Finds, row_at, with_row, visits_of, is_owed};
ghost use Rattle.frame_words.specs.Plain.{seen_of, held_of, is_told, held_at, unheld_at};

use crate::frame::Frame;
use crate::frames::Frames;
use page_ids::{Image, OutOfMemory, PageId, Word};
use std::alloc::Global;
use std::marker::Model;
use trail::{Entry, Kind};

/// Frames that one thread has for itself. They tell each fix, and no history.
#[derive(Drop)]
pub struct PlainFrames {
    frames: Vec<Frame>,
    /// The frame that is visited.
    visit: Option<u32>,
    /// The frame of a create whose visit is still to come.
    owed: Option<u32>,
}

impl Model for PlainFrames {
    ghost use Rattle.std.specs.Prelude.{◌<◌, ◌^◌, length};
    ghost use Rattle.frame_words.specs.Plain.{Plain, FitPlain};

    ghost Value = { Plain };

    ghost view = { λ p. record { rows = p.frames.items; visit = p.visit; owed = p.owed } };

    ghost invariant = { λ p. (length p.frames.items < 2 ^ 32) × FitPlain p.frames.items p.visit };
}

impl PlainFrames {
    /// No frames; takes no memory.
    pub fn new(alloc: Global) -> PlainFrames
        ensures { result ≡ record { rows = []; visit = None; owed = None } }
    {
        PlainFrames {
            frames: Vec::new(alloc),
            visit: None,
            owed: None,
        }
    }

    /// Makes so many frames in all; those that are there stay. A new frame has the word 0 and no image.
    #[tactic(auto, using(crate::proofs::Fits::fit_grown))]
    pub fn grow(&mut self, frames: u32) -> Result<(), OutOfMemory>
        ensures ok { OnOk result (self.new ≡ record self.old { rows = self.old.rows ++ replicate (frames - length self.old.rows) new_row }) }
        ensures err { OnErr result (self.new ≡ self.old) }
    {
        let more = (frames as usize).saturating_sub(self.frames.len());
        if self.frames.reserve(more).is_err() {
            return Err(OutOfMemory);
        }
        add_frames(&mut self.frames, more);
        Ok(())
    }

    /// Makes the visit of the frame a held fix. The frame's word stays; takes no memory.
    #[tactic(auto, using(crate::proofs::Fits::visited_fits, crate::proofs::Fits::fit_kept))]
    pub fn hold(&mut self, frame: u32)
        requires inside { frame < length self.old.rows }
        requires visit { self.old.visit ≡ Some frame }
        ensures { self.new ≡ held_at self.old frame }
    {
        let kept = &mut self.frames[frame as usize];
        kept.hold();
        self.visit = None;
    }

    /// Makes a held fix of the frame a visit. The frame's word stays; takes no memory.
    #[tactic(auto, using(crate::proofs::Fits::fit_unheld))]
    pub fn unhold(&mut self, frame: u32)
        requires inside { frame < length self.old.rows }
        requires held { 0 < held_of (row_at (seen_of self.old) frame) }
        requires none { self.old.visit ≡ None }
        requires unlatched { (row_at (seen_of self.old) frame).latched ≡ false }
        ensures { self.new ≡ unheld_at self.old frame }
    {
        let kept = &mut self.frames[frame as usize];
        kept.unhold();
        self.visit = Some(frame);
    }

    /// How many fixes of the frame are no visits.
    pub fn held(&self, frame: u32) -> u32
        requires { frame < length self.now.rows }
        ensures { (row_at (seen_of self.now) frame).held ≡ Some result }
    {
        self.frames[frame as usize].held()
    }

    /// The image of the frame, lent.
    pub fn image(&self, frame: u32) -> Option<&Image>
        requires { frame < length self.now.rows }
        ensures { MatchOption result ((row_at (seen_of self.now) frame).image ≡ None)
            (λ image. (row_at (seen_of self.now) frame).image ≡ Some (Some image.now)) }
    {
        self.frames[frame as usize].image()
    }

    // The frame is claimed; its image is told.
    #[tactic(auto, using(crate::proofs::Fits::fit_set))]
    fn claim_frame(&mut self, frame: u32)
        requires { frame < length self.old.rows }
        ensures seen { seen_of self.new ≡ with_row (seen_of self.old) frame (claimed_row (row_at (seen_of self.old) frame) (row_at (seen_of self.old) frame).image) }
        ensures told { is_told (row_at (seen_of self.old) frame).image ≡ true }
    {
        let kept = &mut self.frames[frame as usize];
        kept.claim();
    }

    // The frame is latched; its image is told.
    #[tactic(auto, using(crate::proofs::Fits::fit_set))]
    fn latch_frame(&mut self, frame: u32)
        requires { frame < length self.old.rows }
        ensures seen { seen_of self.new ≡ with_row (seen_of self.old) frame (latched_row (row_at (seen_of self.old) frame) (row_at (seen_of self.old) frame).image) }
        ensures told { is_told (row_at (seen_of self.old) frame).image ≡ true }
    {
        let kept = &mut self.frames[frame as usize];
        kept.latch();
    }

    // The word of a frame.
    fn word(&self, frame: u32) -> Word
        requires { frame < length self.now.rows }
        ensures { Finds (seen_of self.now) frame result }
    {
        self.frames[frame as usize].word(visits(self.visit, frame))
    }

    // Whether the next visit of the frame is the one that follows the publish of a create.
    fn owes(&self, frame: u32) -> bool
        requires { frame < length self.now.rows }
        ensures { result ≡ is_owed (seen_of self.now) frame }
    {
        self.frames[frame as usize].resident() && is_that(self.owed, frame)
    }
}

// How often the frame is visited.
fn visits(visit: Option<u32>, frame: u32) -> u32
    ensures { result ≡ visits_of visit frame }
{
    match visit {
        None => 0,
        Some(visited) => { if visited == frame { 1 } else { 0 } }
    }
}

// Whether it is the frame.
fn is_that(owed: Option<u32>, frame: u32) -> bool
    ensures { result ≡ option_map_or (λ g. g == frame) owed false }
{
    match owed {
        None => false,
        Some(other) => other == frame,
    }
}

// Adds new frames where there is room.
#[tactic(auto, using(crate::proofs::Fits::one_more))]
fn add_frames(frames: &mut Vec<Frame>, more: usize)
    requires { vec_len frames.old + more ≤ vec_capacity frames.old }
    ensures { frames.new.items ≡ frames.old.items ++ replicate more new_row }
{
    for _ in 0..more {
        frames.push_reserved(Frame::new());
    }
}

impl Frames for PlainFrames {
    ghost use Rattle.frame_words.specs.Plain.{seen_of, room_of};

    ghost seen = { seen_of };

    ghost room = { room_of };

    fn frames(&self) -> u32 {
        self.frames.len() as u32
    }

    fn append(&mut self, entry: &Entry) {
        match &entry.kind {
            Kind::Fix { frame, .. } => self.hold(*frame),
            Kind::Create { frame, .. } => self.owed = Some(*frame),
            _ => (),
        }
    }

    fn look(&mut self, frame: u32) -> Word {
        self.word(frame)
    }

    #[tactic(auto, using(crate::proofs::Fits::fit_set))]
    fn claim(&mut self, frame: u32) -> Result<(), Word> {
        let word = self.word(frame);
        if word.fixes() > 0 {
            return Err(word);
        }
        self.claim_frame(frame);
        Ok(())
    }

    #[tactic(auto, using(crate::proofs::Fits::fit_set))]
    fn publish(&mut self, frame: u32, page: PageId, clock: u64) {
        let kept = &mut self.frames[frame as usize];
        kept.publish(page, clock);
    }

    #[tactic(auto, using(crate::proofs::Fits::room_for_one, crate::proofs::Fits::fit_held, crate::proofs::Fits::fit_visited))]
    fn visit(&mut self, frame: u32) -> Word {
        let word = self.word(frame);
        if self.owes(frame) {
            let kept = &mut self.frames[frame as usize];
            kept.hold();
            self.owed = None;
        } else {
            self.visit = Some(frame);
        }
        word
    }

    #[tactic(auto, using(crate::proofs::Fits::fit_unvisited))]
    fn leave(&mut self, frame: u32) -> Word {
        let found = self.word(frame);
        self.visit = None;
        found
    }

    #[tactic(auto, using(crate::proofs::Fits::fit_set))]
    fn latch(&mut self, frame: u32) -> Result<(), Word> {
        let word = self.word(frame);
        if word.latched() {
            return Err(word);
        }
        self.latch_frame(frame);
        Ok(())
    }

    #[tactic(auto, using(crate::proofs::Fits::fit_set))]
    fn stamp(&mut self, frame: u32, clock: u64) {
        let kept = &mut self.frames[frame as usize];
        kept.stamp(clock);
    }

    #[tactic(auto, using(crate::proofs::Fits::fit_set))]
    fn unlatch(&mut self, frame: u32) {
        let kept = &mut self.frames[frame as usize];
        kept.unlatch();
    }

    #[tactic(auto, using(crate::proofs::Fits::fit_set))]
    fn lift(&mut self, frame: u32) -> Image {
        let kept = &mut self.frames[frame as usize];
        kept.lift()
    }

    #[tactic(auto, using(crate::proofs::Fits::fit_set))]
    fn lay(&mut self, frame: u32, image: Image) {
        let kept = &mut self.frames[frame as usize];
        kept.lay(image);
    }
}
