//! Laws of every history, for the layers above: which pages are dirty, and what the disk has of each page.
ghost use Rattle.std.specs.Prelude.{ℕ, Bool, false, not, List, [], ◌∷◌, ◌≡◌, ◌&&◌, ◌||◌, ◌<◌, ◌≤◌, Option, Some, slice_get};
ghost use Rattle.page_ids.specs.Content.{Content};
ghost use Rattle.page_ids.specs.Same.{same_page};
ghost use Rattle.page_ids.specs.declared.ids.PageId.{PageId};
ghost use Rattle.trail.specs.declared.event.Dirty.{Dirty};
ghost use Rattle.trail.specs.declared.event.Entry.{Entry};
ghost use Rattle.trail.specs.declared.event.Kind.TheVariants as kind;
ghost use Rattle.trail.specs.History.{value};
ghost use Rattle.trail.specs.Saved.{AreDurable};
ghost use Rattle.trail.specs.Dirt.{dirty, dirt_of, is_dirty, log_end};
ghost use Rattle.trail.specs.Saved.{is_written, saved};
ghost use Rattle.trail.specs.declared.event.Event.{Event};
ghost use Rattle.trail.specs.Trails.{entries};
ghost use Rattle.trail.specs.Trails.{Opening};
ghost use Rattle.trail.specs.Laws.{AreLawful};

/// The disk has the value of each page that isn't dirty, and what it gave at first of each page that was never written.
/// A dirty page's newest LSN is that of its value.
pub fn clean_pages_are_saved()
    ensures clean { (size : ℕ) (base : PageId → Option Content) (h : List Entry) (p : PageId)
        → is_dirty h p ≡ false → saved size base h p ≡ value size base h p }
    ensures unwritten { (size : ℕ) (base : PageId → Option Content) (h : List Entry) (p : PageId)
        → is_written h p ≡ false → saved size base h p ≡ base p }
    ensures newest { (size : ℕ) (base : PageId → Option Content) (h : List Entry) (p : PageId) (d : Dirty) (v : Content)
        → dirt_of (dirty h) p ≡ Some d → value size base h p ≡ Some v → v.lsn ≡ d.newest }
{}

/// No page stands twice among the dirty ones. A put or create makes its page dirty, a write makes its page clean, and each leaves
/// every other page as it is.
pub fn dirty_pages_are_apart()
    ensures apart { (h : List Entry) (n : ℕ) (d : Dirty) → slice_get (dirty h) n ≡ Some d → dirt_of (dirty h) d.page ≡ Some d }
    ensures put { (h : List Entry) (e : Entry) (q p : PageId) (at : ℕ) (bytes : List ℕ) (start end : ℕ)
        → e.kind ≡ kind.Put q at bytes start end → is_dirty (e ∷ h) p ≡ (same_page q p || is_dirty h p) }
    ensures create { (h : List Entry) (e : Entry) (q p : PageId) (f start end now : ℕ)
        → e.kind ≡ kind.Create q f start end now → is_dirty (e ∷ h) p ≡ (same_page q p || is_dirty h p) }
    ensures write { (h : List Entry) (e : Entry) (q p : PageId) (lsn upto : ℕ)
        → e.kind ≡ kind.Write q lsn upto → is_dirty (e ∷ h) p ≡ (not (same_page q p) && is_dirty h p) }
    ensures front { (h : List Entry) (e : Entry) (d : Dirty) (rest : List Dirty) (lsn upto : ℕ)
        → dirty h ≡ d ∷ rest → e.kind ≡ kind.Write d.page lsn upto → dirty (e ∷ h) ≡ rest }
{}

/// Where no page is dirty the log was made durable behind the last change, since no image precedes its log.
pub fn a_clean_history_is_durable()
    ensures { (o : Opening) (sole : Option ℕ) (past : List Event) (durable : ℕ) → AreLawful o sole past → AreDurable durable (entries past)
        → dirty (entries past) ≡ [] → log_end (entries past) ≤ durable }
{}

/// In a trail that is lawful so far the dirty pages rise by their oldest LSN, so the first one has the least; and the log ends at or
/// behind the last change of each.
pub fn dirty_pages_rise()
    ensures rising { (o : Opening) (sole : Option ℕ) (past : List Event) (i j : ℕ) (d later : Dirty) → AreLawful o sole past → i < j
        → slice_get (dirty (entries past)) i ≡ Some d → slice_get (dirty (entries past)) j ≡ Some later → d.oldest < later.oldest }
    ensures within { (o : Opening) (sole : Option ℕ) (past : List Event) (i : ℕ) (d : Dirty) → AreLawful o sole past → slice_get (dirty (entries past)) i ≡ Some d
        → (d.oldest < d.newest) × (d.newest ≤ log_end (entries past)) }
{}
