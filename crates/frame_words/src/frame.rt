//! One frame of one thread.
ghost use Rattle.std.specs.Prelude.{◌≡◌, ◌<◌, ◌+◌, ◌^◌, true, Some, None, IsSome, MatchOption};
ghost use Rattle.page_ids.specs.declared.limits.TheConstants.{CLOCK_BITS};
ghost use Rattle.frame_words.specs.Rows.{new_row, claimed_row, published_row, latched_row, unlatched_row, stamped_row, lifted_row, laid_row, held_row, IsFound};
ghost use Rattle.frame_words.specs.Plain.{FitsInWord, held_of, is_told, unheld_row};

use page_ids::{Image, PageId, Word};
use std::marker::Model;

/// A frame, with the fixes that are no visits.
#[derive(Drop)]
pub(crate) struct Frame {
    held: u32,
    latched: bool,
    resident: bool,
    clock: u64,
    page: PageId,
    image: Option<Image>,
}

impl Model for Frame {
    ghost use Rattle.std.specs.Prelude.{◌<◌, ◌^◌};
    ghost use Rattle.page_ids.specs.declared.limits.TheConstants.{CLOCK_BITS};
    ghost use Rattle.frame_words.specs.Rows.{Row};
    ghost use Rattle.frame_words.specs.Plain.{row_of};

    ghost Value = { Row };

    ghost view = { λ f. row_of f.resident f.clock f.page f.latched f.image f.held };

    ghost invariant = { λ f. f.clock < 2 ^ CLOCK_BITS };
}

impl Frame {
    /// A frame that never held a page.
    pub(crate) fn new() -> Frame
        ensures { result ≡ new_row }
    {
        Frame {
            held: 0,
            latched: false,
            resident: false,
            clock: 0,
            page: PageId { space: 0, page: 0 },
            image: None,
        }
    }

    /// The word with so many visits.
    pub(crate) fn word(&self, visits: u32) -> Word
        requires { FitsInWord self.now.held visits }
        ensures found { IsFound self.now visits result }
    {
        Word::of(self.held + visits, self.latched, self.resident, self.clock)
    }

    /// It is no longer resident.
    #[tactic(auto, using(crate::proofs::Told::image_told))]
    pub(crate) fn claim(&mut self)
        ensures claimed { self.new ≡ claimed_row self.old self.old.image }
        ensures told { is_told self.old.image ≡ true }
    {
        self.resident = false;
    }

    /// The page is resident at this clock.
    pub(crate) fn publish(&mut self, page: PageId, clock: u64)
        requires { clock < 2 ^ CLOCK_BITS }
        ensures { self.new ≡ published_row self.old page clock }
    {
        self.resident = true;
        self.page = page;
        self.clock = clock;
    }

    /// Sets the latch.
    #[tactic(auto, using(crate::proofs::Told::image_told))]
    pub(crate) fn latch(&mut self)
        ensures latched { self.new ≡ latched_row self.old self.old.image }
        ensures told { is_told self.old.image ≡ true }
    {
        self.latched = true;
    }

    /// Clears the latch.
    pub(crate) fn unlatch(&mut self)
        ensures { self.new ≡ unlatched_row self.old }
    {
        self.latched = false;
    }

    /// Sets the clock.
    pub(crate) fn stamp(&mut self, clock: u64)
        requires { clock < 2 ^ CLOCK_BITS }
        ensures { self.new ≡ stamped_row self.old clock }
    {
        self.clock = clock;
    }

    /// Takes the image out.
    pub(crate) fn lift(&mut self) -> Image
        requires { IsSome self.old.image }
        ensures image { self.old.image ≡ Some (Some result) }
        ensures lifted { self.new ≡ lifted_row self.old }
    {
        self.image.take().unwrap()
    }

    /// Puts the image in.
    pub(crate) fn lay(&mut self, image: Image)
        ensures { self.new ≡ laid_row self.old image }
    {
        self.image = Some(image);
    }

    /// One fix more that is no visit.
    pub(crate) fn hold(&mut self)
        requires { FitsInWord self.old.held 1 }
        ensures { self.new ≡ held_row self.old }
    {
        self.held += 1;
    }

    /// One fix less that is no visit.
    pub(crate) fn unhold(&mut self)
        requires { 0 < held_of self.old }
        ensures { self.new ≡ unheld_row self.old }
    {
        self.held -= 1;
    }

    /// How many fixes are no visits.
    pub(crate) fn held(&self) -> u32
        ensures { self.now.held ≡ Some result }
    {
        self.held
    }

    /// The image, lent.
    pub(crate) fn image(&self) -> Option<&Image>
        ensures { MatchOption result (self.now.image ≡ None) (λ image. self.now.image ≡ Some (Some image.now)) }
    {
        self.image.as_ref()
    }

    /// Whether a page is resident.
    pub(crate) fn resident(&self) -> bool
        ensures { result ≡ self.now.resident }
    {
        self.resident
    }
}
