//! A lock is a table of one word and one slot: where the word is 0, the value lies in the slot. Before it is a room to wait in.
ghost use Rattle.std.specs.Prelude.{◌≡◌, IfOk, IfErr};
ghost use Rattle.keyed_lock.specs.Lock.{IsGuarded, IsSeized, HasOnly, IsSmall};

use atomic_table::{Play, Refused, Seat, Shared, Table, TableRule};
use std::alloc::{AllocError, Global};
use std::marker::{Model, PhantomData};
use std::sync::{Mutex, MutexGuard, Wait};
use std::thread;

/// What a value has to do with a key.
pub trait Keyed<K> {
    ghost fits: { K → Self → Type 0 };
}

/// The rule of a lock's table. A seat knows the key.
pub struct Guard<T> {
    of: PhantomData<T>,
}

impl<T: Keyed<K>, K> TableRule<Option<T>, K, K> for Guard<T> {
    ghost holds = { λ key. IsGuarded (T.fits key) };

    ghost first = { λ key. key };
}

/// The step that finds the lock free has the value.
struct Seize<T> {
    of: PhantomData<T>,
}

impl<T: Keyed<K>, K> Play<Option<T>, K> for Seize<T> {
    ghost then = { λ step before found after. found ≡ 0 → IsSeized (T.fits before.0) after };
}

/// The step that frees the lock.
struct Release;

impl<T, K> Play<Option<T>, K> for Release {
    ghost then = { λ step before found after. Unit {0} };
}

type Board<T, K> = Table<Option<T>, K, K, Guard<T>, Global>;

/// A lock. Contracts see its key.
#[derive(Drop)]
pub struct Lock<T: Keyed<K>, K> {
    /// Where those wait who want the value, one after the other.
    room: Mutex<()>,
    table: Board<T, K>,
    ghost small: { IsSmall table.shared.table_id },
}

impl<T: Keyed<K>, K> Model for Lock<T, K> {
    ghost Value = { K };

    ghost view = { λ lock. lock.table.shared.key };
}

/// That the value is out. Contracts see the key of its lock.
pub struct Loan<'a, T: Keyed<K>, K> {
    room: MutexGuard<'a, ()>,
    shared: &'a Shared<Option<T>, K, K, Guard<T>>,
    seat: Seat<Option<T>, K>,
}

impl<'a, T: Keyed<K>, K> Model for Loan<'a, T, K> {
    ghost use Rattle.std.specs.Prelude.{◌≡◌};
    ghost use Rattle.keyed_lock.specs.Lock.{HasOnly, IsSmall};

    ghost Value = { K };

    ghost view = { λ loan. loan.shared.now.key };

    ghost invariant = { λ loan. IsSmall loan.shared.now.table_id × (loan.seat.table_id ≡ loan.shared.now.table_id) × HasOnly loan.seat.me };
}

impl<T: Keyed<K> + Drop, K> Lock<T, K> {
    /// A lock with this value at home.
    pub fn new(alloc: Global, value: T, key: &K) -> Result<Lock<T, K>, (AllocError, T)>
        requires fits { T.fits key.now value }
        ensures key { IfOk result (λ lock. lock ≡ key.now) }
        ensures err { IfErr result (λ e. e.1 ≡ value) }
    {
        let mut slots = Vec::new(alloc);
        if slots.reserve(1).is_err() {
            return Err((AllocError, value));
        }
        slots.push_reserved(Some(value));
        match Table::new(alloc, &[0], slots, key) {
            Ok((table, _seat)) => Ok(Lock {
                room: Mutex::new(()),
                table,
            }),
            Err(Refused { mut slots }) => {
                let value = slots.pop().unwrap().unwrap();
                Err((AllocError, value))
            }
        }
    }

    /// Waits for the value, and takes it out.
    pub fn take<W: Wait>(&self, rt: &W) -> (T, Loan<'_, T, K>)
        ensures fits { T.fits self.now result.0 }
        ensures loan { result.1 ≡ self.now }
    {
        let room = self.room.lock(rt);
        let shared = &self.table.shared;
        for _ in rt.forever() {
            let (found, mut seat) = shared.swap_new_seat::<Seize<T>>(0, 1);
            if found == 0 {
                let value = shared.exchange(&mut seat, 0, None).unwrap();
                return (value, Loan { room, shared, seat });
            }
            thread::yield_now();
        }
        unreachable!()
    }

    /// Waits for the value, and ends the lock. No loan stands then, since a loan borrows its lock: so it waits for none but a lost one.
    pub fn close<W: Wait>(self, rt: &W) -> T
        ensures fits { T.fits self result }
    {
        let (value, loan) = self.take(rt);
        let Loan {
            room,
            shared: _,
            seat: _,
        } = loan;
        drop(room);
        value
    }
}

impl<'a, T: Keyed<K> + Drop, K> Loan<'a, T, K> {
    /// Puts a value back, and frees the lock.
    pub fn give(self, value: T)
        requires fits { T.fits self value }
    {
        let Loan {
            room,
            shared,
            mut seat,
        } = self;
        drop(shared.exchange(&mut seat, 0, Some(value)));
        shared.store::<Release>(&mut seat, 0, 0);
        drop(room);
    }
}
