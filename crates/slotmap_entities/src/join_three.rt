//! Joins of three kinds of components.

ghost use Rattle.std.specs.Prelude.{◌≡◌};
ghost use Rattle.std.specs.Iterator.{YieldsFirstBy, item_count};
ghost use Rattle.slotmap.specs.Words.{IsDense, get};
ghost use Rattle.slotmap_entities.specs.World.{three_found_by};

use crate::{Kind, Table, Tables, World};
use slotmap::Key;
use slotmap::dense::Keys;
use std::iter::FusedIterator;
use std::marker::Model;

/// An iterator over the entities that have components of three kinds: see [`World::with_three`].
///
/// A contract sees it as the list of the entities that it will still yield, each with its three
/// components. After its end it yields nothing.
#[derive(Drop)]
pub struct WithThree<'a, K: Key, E, A: Table<K>, B: Table<K>, C: Table<K>> {
    keys: Keys<'a, K, E>,
    first: &'a A,
    second: &'a B,
    third: &'a C,
}

impl<'a, K: Key, E, A: Table<K>, B: Table<K>, C: Table<K>> Model for WithThree<'a, K, E, A, B, C> {
    ghost use Rattle.std.specs.Prelude.{List};
    ghost use Rattle.slotmap.specs.Words.{Key as KeyOf, get};
    ghost use Rattle.slotmap_entities.specs.World.{three_found_by};

    ghost Value = { List (KeyOf × (A.Component × (B.Component × C.Component))) };

    ghost view = { λ it. three_found_by (get (A.pairs it.first.now)) (get (B.pairs it.second.now)) (get (C.pairs it.third.now)) it.keys };
}

impl<'a, K: Key, E: Drop, A: Table<K>, B: Table<K>, C: Table<K>> Iterator
    for WithThree<'a, K, E, A, B, C>
where
    A::Component: 'a,
    B::Component: 'a,
    C::Component: 'a,
{
    type Item = (K, &'a A::Component, &'a B::Component, &'a C::Component);

    ghost next_gives = { YieldsFirstBy (λ item. (K.data_of item.0, (item.1.now, (item.2.now, item.3.now)))) (λ rest. rest) };

    ghost remaining = { item_count (λ rest. rest) };

    fn next(&mut self) -> Option<(K, &'a A::Component, &'a B::Component, &'a C::Component)> {
        while let Some(key) = self.keys.next() {
            if let (Some(first), Some(second), Some(third)) = (
                self.first.get(key),
                self.second.get(key),
                self.third.get(key),
            ) {
                return Some((key, first, second, third));
            }
        }
        None
    }

    fn size_hint(&self) -> (usize, Option<usize>) {
        (0, Some(self.keys.len()))
    }
}

impl<'a, K: Key, E: Drop, A: Table<K>, B: Table<K>, C: Table<K>> FusedIterator
    for WithThree<'a, K, E, A, B, C>
where
    A::Component: 'a,
    B::Component: 'a,
    C::Component: 'a,
{}

impl<K: Key, E: Drop, T: Tables<K>> World<K, E, T> {
    /// Returns an iterator over the entities that have components of three kinds, with them, in packed
    /// order.
    ///
    /// It is made in constant time. All its steps together look each entity up once in the three
    /// tables, and allocate nothing.
    ///
    /// ```
    /// type Tables = (
    ///     SecondaryMap<DefaultKey, u32>,
    ///     (SecondaryMap<DefaultKey, u64>, (SparseSecondaryMap<DefaultKey, bool>, ())),
    /// );
    /// let mut world: World<DefaultKey, u8, Tables> = World::new(alloc)?;
    /// let hero = world.spawn_with_both::<First, Second>(1, 7, 8)?;
    /// assert_eq!(rt; world.with_three::<First, Second, Third>().next(), None);
    /// world.attach::<Third>(hero, true)?;
    /// let mut found = world.with_three::<First, Second, Third>();
    /// assert_eq!(rt; found.next(), Some((hero, &7, &8, &true)));
    /// ```
    pub fn with_three<'a, A: Kind<K, T>, B: Kind<K, T>, C: Kind<K, T>>(
        &'a self,
    ) -> WithThree<'a, K, E, A::Table, B::Table, C::Table>
    where
        A::Table: 'a,
        B::Table: 'a,
        C::Table: 'a,
        ensures in_order { result ≡ three_found_by (get (A.Table.pairs (A.table self.now.tables))) (get (B.Table.pairs (B.table self.now.tables)))
            (get (C.Table.pairs (C.table self.now.tables))) self.now.entities.keys }
        // So each of them is an entity, and is there once.
        ensures valid { IsDense self.now.entities }
    {
        WithThree {
            keys: self.entities.keys(),
            first: A::table(&self.tables),
            second: B::table(&self.tables),
            third: C::table(&self.tables),
        }
    }
}
