//! Puts receipts behind the entries of their places.
ghost use Rattle.std.specs.Prelude.{ℕ, List, ◌++◌, ◌≡◌, ◌≤◌, ◌+◌, reverse, vec_len, vec_capacity, [], ◌∷◌};
ghost use Rattle.std.specs.List.Sorted.{IsPermutation};
ghost use Rattle.trail.specs.Trails.{entries, receipts, AreNumbered};
ghost use Rattle.trail.specs.Merging.{receipts_in, entries_told, told, together, rank, IsMerged, HavePlaces, HasOneEach, AreInOrder, IsPlaced};
ghost use Rattle.trail.specs.declared.event.Entry.{Entry};
ghost use Rattle.trail.specs.declared.event.Event.{Event};
ghost use Rattle.trail.specs.declared.event.Receipt.{Receipt};

use crate::event::{Entry, Event, Receipt, Trail};

/// Where an event stands in a trail: its place, an entry before receipts, and these by caller, then number.
fn rank(event: &Event) -> (u64, u8, u32, u32)
    ensures { result ≡ rank event.now }
{
    match event {
        Event::Entry(entry) => (entry.place, 0, 0, 0),
        Event::Receipt(receipt) => (receipt.place, 1, receipt.caller, receipt.number),
    }
}

/// Moves the entries.
fn take_entries(mut history: Vec<Entry>, room: &mut Vec<Event>)
    requires room { vec_len room.old + vec_len history ≤ vec_capacity room.old }
    ensures kept { IsPermutation (room.old.items ++ entries_told history.items) room.new.items }
    ensures count { vec_len room.new ≡ vec_len room.old + vec_len history }
    ensures room { vec_capacity room.old ≤ vec_capacity room.new }
{
    while let Some(entry) = history.pop() {
        room.push_reserved(Event::Entry(entry));
    }
}

/// Moves the receipts of an account.
fn take_receipts(mut account: Vec<Receipt>, room: &mut Vec<Event>)
    requires room { vec_len room.old + vec_len account ≤ vec_capacity room.old }
    ensures kept { IsPermutation (room.old.items ++ told account.items) room.new.items }
    ensures count { vec_len room.new ≡ vec_len room.old + vec_len account }
    ensures room { vec_capacity room.old ≤ vec_capacity room.new }
{
    while let Some(receipt) = account.pop() {
        room.push_reserved(Event::Receipt(receipt));
    }
}

/// The trail of a history and of its passes' accounts.
///
/// Its events are those entries and receipts. Each receipt comes behind the entry of its place, and before all entries where its place
/// is `first`; receipts of one place come by caller, then number. Takes no memory: `room` was reserved for all of them.
pub fn merge(
    first: u64,
    history: Vec<Entry>,
    mut accounts: Vec<Vec<Receipt>>,
    mut room: Vec<Event>,
) -> Trail
    requires empty { room.items ≡ [] }
    requires room { vec_len history + receipts_in accounts.items ≤ vec_capacity room }
    ensures first { result.first ≡ first }
    ensures merged { IsMerged history.items (together accounts.items) result.events }
    ensures entries { AreNumbered first (reverse history.items)
        → entries (reverse result.events) ≡ reverse history.items }
    ensures placed { HavePlaces first (reverse history.items) (together accounts.items)
        → IsPlaced first (reverse result.events) }
    ensures ordered { HavePlaces first (reverse history.items) (together accounts.items)
        → HasOneEach (together accounts.items) → AreInOrder (reverse result.events) }
{
    take_entries(history, &mut room);
    while let Some(account) = accounts.pop() {
        take_receipts(account, &mut room);
    }
    room.sort_unstable_by_key(|event| rank(event));
    Trail::of(first, room)
}

/// Events that stand in their places and in order, as those of a lawful trail do, are the one trail of their entries and receipts.
///
/// A law; `past` has the newest event first.
pub fn one_trail_is_merged()
    ensures only { (first : ℕ) (past : List Event) (es : List Entry) (rs : List Receipt) (events : List Event)
        → IsPlaced first past → AreInOrder past → entries past ≡ reverse es → receipts past ≡ reverse rs
        → IsMerged es rs events → events ≡ reverse past }
{}
