//! Joins of the entities that have a component of one kind and none of another.

ghost use Rattle.std.specs.Prelude.{◌≡◌};
ghost use Rattle.std.specs.Iterator.{YieldsFirstBy, item_count};
ghost use Rattle.slotmap.specs.Words.{IsDense, contains_key, get};
ghost use Rattle.slotmap_entities.specs.World.{found_without};

use crate::{Kind, Table, Tables, World};
use slotmap::Key;
use slotmap::dense::Keys;
use std::iter::FusedIterator;
use std::marker::Model;

/// An iterator over the entities that have a component of one kind and none of another: see
/// [`World::with_without`].
///
/// A contract sees it as the list of the entities that it will still yield, each with its component.
/// After its end it yields nothing.
#[derive(Drop)]
pub struct WithWithout<'a, K: Key, E, A: Table<K>, B: Table<K>> {
    keys: Keys<'a, K, E>,
    table: &'a A,
    without: &'a B,
}

impl<'a, K: Key, E, A: Table<K>, B: Table<K>> Model for WithWithout<'a, K, E, A, B> {
    ghost use Rattle.std.specs.Prelude.{List};
    ghost use Rattle.slotmap.specs.Words.{Key as KeyOf, contains_key, get};
    ghost use Rattle.slotmap_entities.specs.World.{found_without};

    ghost Value = { List (KeyOf × A.Component) };

    ghost view = { λ it. found_without (contains_key (B.pairs it.without.now)) (get (A.pairs it.table.now)) it.keys };
}

impl<'a, K: Key, E: Drop, A: Table<K>, B: Table<K>> Iterator for WithWithout<'a, K, E, A, B>
where
    A::Component: 'a,
{
    type Item = (K, &'a A::Component);

    ghost next_gives = { YieldsFirstBy (λ item. (K.data_of item.0, item.1.now)) (λ rest. rest) };

    ghost remaining = { item_count (λ rest. rest) };

    fn next(&mut self) -> Option<(K, &'a A::Component)> {
        while let Some(key) = self.keys.next() {
            if self.without.contains_key(key) {
                continue;
            }
            if let Some(component) = self.table.get(key) {
                return Some((key, component));
            }
        }
        None
    }

    fn size_hint(&self) -> (usize, Option<usize>) {
        (0, Some(self.keys.len()))
    }
}

impl<'a, K: Key, E: Drop, A: Table<K>, B: Table<K>> FusedIterator for WithWithout<'a, K, E, A, B>
where
    A::Component: 'a,
{}

impl<K: Key, E: Drop, T: Tables<K>> World<K, E, T> {
    /// Returns an iterator over the entities that have a component of the kind `A` and none of the kind
    /// `B`, with the component, in packed order.
    ///
    /// It is made in constant time. All its steps together look each entity up once in the two
    /// tables, and allocate nothing.
    ///
    /// ```
    /// type Tables = (
    ///     SecondaryMap<DefaultKey, u32>,
    ///     (SparseSecondaryMap<DefaultKey, u64>, ()),
    /// );
    /// let mut world: World<DefaultKey, u8, Tables> = World::new(alloc)?;
    /// world.spawn_with_both::<First, Second>(1, 7, 8)?;
    /// let plain = world.spawn_with::<First>(2, 9)?;
    /// let mut found = world.with_without::<First, Second>();
    /// assert_eq!(rt; found.next(), Some((plain, &9)));
    /// assert_eq!(rt; found.next(), None);
    /// ```
    pub fn with_without<'a, A: Kind<K, T>, B: Kind<K, T>>(
        &'a self,
    ) -> WithWithout<'a, K, E, A::Table, B::Table>
    where
        A::Table: 'a,
        B::Table: 'a,
        ensures in_order { result ≡ found_without (contains_key (B.Table.pairs (B.table self.now.tables))) (get (A.Table.pairs (A.table self.now.tables))) self.now.entities.keys }
        // So each of them is an entity, and is there once.
        ensures valid { IsDense self.now.entities }
    {
        WithWithout {
            keys: self.entities.keys(),
            table: A::table(&self.tables),
            without: B::table(&self.tables),
        }
    }
}
