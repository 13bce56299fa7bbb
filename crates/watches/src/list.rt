//! The watches, and their calls.
ghost use Rattle.std.specs.Prelude.{◌≡◌, ◌↔◌, [], length, true, false, IfOk, IfErr, IsErr, OnOk, OnErr, MatchResult, Some, None, vec_capacity};
ghost use Rattle.page_ids.specs.declared.limits.TheConstants.{MOST_WATCHES};
ghost use Rattle.watches.specs.View.{IsInOrder, stands, occurrence, with_watch, after_arrival, watches_on, without_watch, is_of, is_on, come};

use page_ids::{MOST_WATCHES, OutOfMemory, PageId};
use std::alloc::Global;
use std::marker::Model;

/// The answer that there are as many watches as may be, and the pair has none of them.
#[derive(Clone, Copy, Debug, PartialEq, Eq)]
pub struct WatchFull {
    /// How many there are: `MOST_WATCHES`.
    pub watches: u32,
}

/// The answer that the caller doesn't watch the page.
#[derive(Clone, Copy, Debug, PartialEq, Eq)]
pub struct NoWatch;

/// A watch: a caller waits for a page (buf0buf's `buf_pool_watch_set`).
#[derive(Clone, Copy, Debug, PartialEq, Eq)]
pub struct Watched {
    /// The caller's number.
    pub caller: u32,
    /// The page that the caller waits for.
    pub page: PageId,
    /// Whether the page was read in or created since the watch was set.
    pub occurred: bool,
}

/// The watches of an instance (buf0buf's `watch` of a `buf_pool_t`).
///
/// Seen by contracts as a list of `Watched`, in the order in which they were set.
#[derive(Debug, Drop)]
pub struct Watches {
    items: Vec<Watched>,
}

impl Model for Watches {
    ghost use Rattle.std.specs.Prelude.{List};
    ghost use Rattle.watches.specs.declared.list.Watched.{Watched};

    ghost Value = { List Watched };

    ghost use Rattle.watches.specs.Inside.{IsKept};

    ghost view = { λ w. w.items.items };

    ghost invariant = { IsKept };
}

impl Watched {
    /// Whether the watch is this caller's, of this page.
    fn is_of(&self, caller: u32, page: PageId) -> bool
        ensures { result ≡ is_of caller page self.now }
    {
        self.caller == caller && self.page == page
    }

    /// Whether the watch is of this page.
    fn is_on(&self, page: PageId) -> bool
        ensures { result ≡ is_on page self.now }
    {
        self.page == page
    }

    /// The watch behind this page's coming.
    fn come(self, page: PageId) -> Watched
        ensures { result ≡ come page self }
    {
        Watched {
            occurred: self.occurred || self.page == page,
            ..self
        }
    }
}

/// Takes a pair's watch out.
fn take_out(items: &mut Vec<Watched>, caller: u32, page: PageId)
    ensures left { items.new.items ≡ without_watch caller page items.old.items }
    ensures room { vec_capacity items.new ≡ vec_capacity items.old }
{
    items.retain(|w| !w.is_of(caller, page));
}

impl Watches {
    /// No watches, and room for `MOST_WATCHES`. No other call takes memory.
    pub fn new(alloc: Global) -> Result<Watches, OutOfMemory>
        ensures { IfOk result (λ watches. watches ≡ []) }
    {
        let items = Vec::with_capacity(alloc, MOST_WATCHES as usize)?;
        Ok(Watches { items })
    }

    /// No pair has two watches, and there are at most `MOST_WATCHES`. Does nothing; who calls it has this of the list.
    pub fn stands_in_order(&self)
        ensures { IsInOrder self.now }
    {
        let _watches = self.items.len();
    }

    /// How many watch the page.
    fn count_on(&self, page: PageId) -> u32
        ensures { result ≡ watches_on page self.now }
    {
        self.items.iter().filter(|w| w.is_on(page)).count() as u32
    }

    /// Whether the caller watches the page.
    fn stands(&self, caller: u32, page: PageId) -> bool
        ensures { result ≡ stands caller page self.now }
    {
        self.items.iter().any(|w| w.is_of(caller, page))
    }

    /// Whether the pair's watch has occurred; none where it has no watch.
    fn occurrence(&self, caller: u32, page: PageId) -> Option<bool>
        ensures { result ≡ occurrence caller page self.now }
    {
        self.items
            .iter()
            .find(|w| w.is_of(caller, page))
            .map(|w| w.occurred)
    }

    /// Sets a watch, which hasn't occurred. One that stands already stays as it is, whether it has occurred or not
    /// (buf0buf's `buf_pool_watch_set`).
    pub fn set(&mut self, caller: u32, page: PageId) -> Result<(), WatchFull>
        ensures ok { OnOk result (self.new ≡ with_watch caller page self.old) }
        ensures err { OnErr result (self.new ≡ self.old) }
        ensures full { IsErr result ↔ ((stands caller page self.old ≡ false) × (length self.old ≡ MOST_WATCHES)) }
        ensures told { IfErr result (λ full. full.watches ≡ MOST_WATCHES) }
    {
        if self.stands(caller, page) {
            return Ok(());
        }
        if self.items.len() == MOST_WATCHES as usize {
            return Err(WatchFull {
                watches: MOST_WATCHES,
            });
        }
        self.items.push_reserved(Watched {
            caller,
            page,
            occurred: false,
        });
        Ok(())
    }

    /// The page was read in or created: each watch of it has occurred. Answers how many these are
    /// (buf0buf's `buf_pool_watch_remove`, which hands their count to the page).
    pub fn arrived(&mut self, page: PageId) -> u32
        ensures list { self.new ≡ after_arrival page self.old }
        ensures answer { result ≡ watches_on page self.old }
    {
        let count = self.count_on(page);
        for w in self.items.iter_mut() {
            *w = w.come(page);
        }
        count
    }

    /// Whether the pair's watch has occurred (buf0buf's `buf_pool_watch_occurred`). `NoWatch` exactly where it has none.
    pub fn occurred(&self, caller: u32, page: PageId) -> Result<bool, NoWatch>
        ensures { MatchResult result
            (λ yes. occurrence caller page self.now ≡ Some yes)
            (λ _. occurrence caller page self.now ≡ None) }
    {
        self.occurrence(caller, page).ok_or(NoWatch)
    }

    /// Takes the pair's watch back, and answers whether it had occurred (buf0buf's `buf_pool_watch_unset`).
    /// `NoWatch` exactly where it has none.
    pub fn unset(&mut self, caller: u32, page: PageId) -> Result<bool, NoWatch>
        ensures ok { OnOk result (self.new ≡ without_watch caller page self.old) }
        ensures err { OnErr result (self.new ≡ self.old) }
        ensures answer { MatchResult result
            (λ yes. occurrence caller page self.old ≡ Some yes)
            (λ _. occurrence caller page self.old ≡ None) }
    {
        let occurred = self.occurred(caller, page)?;
        take_out(&mut self.items, caller, page);
        Ok(occurred)
    }
}
