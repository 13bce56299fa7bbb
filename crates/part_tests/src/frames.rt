//! frame_words: code for all frames, over those of one thread and over a second form that tells a history.
ghost use Rattle.std.specs.Prelude.{◌≡◌, ◌<◌, ◌∷◌, [], ℕ, true, None, IfOk, IfSome, length, replicate, slice_set};
ghost use Rattle.std.specs.Option.{option_map};
ghost use Rattle.page_ids.specs.Content.{Content};
ghost use Rattle.page_ids.specs.FrameWord.{is_resident, clock_of};
ghost use Rattle.frame_words.specs.Appends.{extended};
ghost use Rattle.frame_words.specs.Rows.{new_row, published_row, laid_row, held_row};
ghost use Rattle.frame_words.specs.Seen.{row_at, noted};
ghost use Rattle.frame_words.specs.Conditions.{IsUntouched, IsNext, IsSteady, IsUnlatched};

use crate::telling::TellingFrames;
use frame_words::{Frames, PlainFrames};
use page_ids::{Config, Image, OutOfMemory, PageId, PageSize, Word};
use std::alloc::Global;
use std::process::Abort;
use std::test::Fail;
use trail::{Entry, Kind};

const PAGE: PageId = PageId { space: 3, page: 7 };

// One instance; its first entry has the place 1.
const CONFIG: Config = Config {
    page: PageSize::Kib4,
    instances: 1,
    frames: 2,
    size: 8192,
    max: 1,
    old_pct: 37,
    old_time: 1000,
    old_min: 512,
    lsn: 8192,
    first: 0,
};

// The word of a frame: what all forms tell of it.
fn word_of<F: Frames>(frames: &mut F, frame: u32) -> Word
    requires free { IsUntouched (F.seen frames.old) frame }
    requires steady { IsSteady (F.seen frames.old) frame }
    ensures resident { is_resident result ≡ (row_at (F.seen frames.old) frame).resident }
    ensures clock { clock_of result ≡ (row_at (F.seen frames.old) frame).clock }
    ensures seen { F.seen frames.new ≡ noted (F.seen frames.old) frame result }
{
    frames.look(frame)
}

// Fixes the frame's page: visits the frame, and appends the fix. Answers the word found before it.
#[tactic(auto, using(crate::proofs::Fixes::steady_page, crate::proofs::Fixes::may_fix, crate::proofs::Fixes::fixed_visit, crate::proofs::Fixes::fixed_rows, crate::proofs::Fixes::fixed_history))]
fn fix<F: Frames>(frames: &mut F, entry: &Entry, frame: u32) -> Word
    requires inside { frame < length (F.seen frames.old).rows }
    requires resident { (row_at (F.seen frames.old) frame).resident ≡ true }
    requires unlatched { IsUnlatched (F.seen frames.old) frame }
    requires none { (F.seen frames.old).visit ≡ None }
    requires created { (F.seen frames.old).owed ≡ None }
    requires room { 0 < F.room frames.old frame }
    requires fix { (page : PageId) × (clock now : ℕ) × (entry.now.kind ≡ Kind.Fix page frame clock now) }
    requires next { IfSome (F.seen frames.old).history (λ h. IfSome (F.seen frames.old).turn (λ t. IsNext (F.seen frames.old) h t entry.now)) }
    ensures visit { (F.seen frames.new).visit ≡ None }
    ensures rows { (F.seen frames.new).rows ≡ slice_set (F.seen frames.old).rows frame (held_row (row_at (F.seen frames.old) frame)) }
    ensures history { (F.seen frames.new).history ≡ option_map (extended entry.now) (F.seen frames.old).history }
{
    let found = frames.visit(frame);
    frames.append(entry);
    found
}

// Two new frames.
fn two_frames(alloc: Global) -> Result<PlainFrames, OutOfMemory>
    ensures { IfOk result (λ frames. frames ≡ record { rows = replicate 2 new_row; visit = None; owed = None }) }
{
    let mut frames = PlainFrames::new(alloc);
    frames.grow(2)?;
    Ok(frames)
}

// Two frames, with a page of zeros in frame 1 at the clock 5.
fn one_page(alloc: Global) -> Result<PlainFrames, OutOfMemory>
    ensures rows { IfOk result (λ frames. (image : Content) × (frames.rows ≡ new_row ∷ published_row (laid_row new_row image) PAGE 5 ∷ [])) }
    ensures visit { IfOk result (λ frames. frames.visit ≡ None) }
    ensures owed { IfOk result (λ frames. frames.owed ≡ None) }
{
    let mut frames = two_frames(alloc)?;
    frames.lay(1, Image::blank(alloc, PageSize::Kib4)?);
    frames.publish(1, PAGE, 5);
    Ok(frames)
}

// Two frames that tell a history: the page was loaded into frame 1, and a call of the first pass is under way.
fn one_told_page<R: Abort + Copy>(
    runtime: R,
    alloc: Global,
) -> Result<TellingFrames<R>, OutOfMemory>
    ensures rows { IfOk result (λ t. (image : Content) × (t.plain.rows ≡ new_row ∷ published_row (laid_row new_row image) PAGE 1 ∷ [])) }
    ensures visit { IfOk result (λ t. t.plain.visit ≡ None) }
    ensures owed { IfOk result (λ t. t.plain.owed ≡ None) }
    ensures history { IfOk result (λ t. t.history ≡ record {
      config = CONFIG;
      instance = 0;
      entries = record { place = 1; caller = 1; number = 1; kind = Kind.Load PAGE 1 } ∷ [];
    }) }
    ensures turn { IfOk result (λ t. t.turn ≡ record { caller = 1; number = 1 }) }
{
    let mut frames = TellingFrames::new(runtime, alloc, CONFIG, 2, 1)?;
    frames.lay(1, Image::blank(alloc, PageSize::Kib4)?);
    frames.append(&entry(
        1,
        Kind::Load {
            page: PAGE,
            frame: 1,
        },
    ));
    frames.publish(1, PAGE, 1);
    Ok(frames)
}

// An entry of the first pass's first call.
fn entry(place: u64, kind: Kind) -> Entry
    ensures { result ≡ record { place = place; caller = 1; number = 1; kind = kind } }
{
    Entry {
        place,
        caller: 1,
        number: 1,
        kind,
    }
}

#[test]
fn both_forms_answer_the_words_of_their_frames(rt: HostRuntime) -> Result<(), Fail> {
    let alloc = rt.alloc();
    let mut plain = one_page(alloc)?;
    let mut telling = one_told_page(rt, alloc)?;
    let fixed = entry(
        2,
        Kind::Fix {
            page: PAGE,
            frame: 1,
            clock: 1,
            now: 0,
        },
    );
    let found = [
        word_of(&mut plain, 1).bits,
        fix(&mut plain, &fixed, 1).bits,
        word_of(&mut plain, 1).bits,
    ];
    assert_eq!(rt; found, [0x5_8000, 0x5_8000, 0x5_8001]);
    let found = [
        word_of(&mut telling, 1).bits,
        fix(&mut telling, &fixed, 1).bits,
        word_of(&mut telling, 1).bits,
    ];
    assert_eq!(rt; found, [0x1_8000, 0x1_8000, 0x1_8001]);
    Ok(())
}
