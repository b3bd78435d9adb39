//! Guards of entity stores: what a user relies on, in other words than the contract of a call, and proved from that one
//! alone.
//!
//! The comment of a clause names what it needs of the contract, and the wrong bodies that it refuses.

ghost use Rattle.std.specs.FinMap as map;
ghost use Rattle.std.specs.Prelude.{◌≡◌, ◌≤◌, ◌∷◌, [], Some, Err, IfOk, OnOk, IfSome, IfNone, false, length, option_copied};
ghost use Rattle.slotmap.specs.Words.{RefusesPut, get, most};

use slotmap::{Key, ReserveError, SecondaryMap};
use slotmap_entities::{
    Apart, AttachError, CloneTable, CloneTables, Kind, SpawnError, Table, Tables, With, WithBoth,
    WithOptional, WithThree, WithWithout, World,
};
use std::alloc::AllocError;

// The component of a kind.
type Of<K, T, C> = <<C as Kind<K, T>>::Table as Table<K>>::Component;

/// Guards of `attach`.
pub fn attach<K: Key, E: Drop, T: Tables<K>, C: Kind<K, T>>(
    world: &mut World<K, E, T>,
    key: K,
    component: Of<K, T, C>,
) -> Result<Option<Of<K, T, C>>, AttachError<Of<K, T, C>>>
    // It fails with `Gone` where the entity doesn't exist, and with `Memory` only where it exists and has
    // no such component.
    // Refuses `attach_tells_memory_as_gone`, `attach_refuses_a_component_that_is_there`: `err` of `attach`.
    ensures attach_says_why_it_fails_gone { (back : C.Table.Component) → result ≡ Err (AttachError.Gone back)
        → map.contains_key world.old.entities.content.live (K.data_of key) ≡ false }
    ensures attach_says_why_it_fails_memory { (back : C.Table.Component) → result ≡ Err (AttachError.Memory back)
        → RefusesPut (C.Table.pairs (C.table world.old.tables)) (K.data_of key) component back }
{
    world.attach::<C>(key, component)
}

/// Guards of `replace_both`.
pub fn replace_both<K: Key, E: Drop, T: Tables<K>, A: Apart<K, T, B>, B: Kind<K, T>>(
    world: &mut World<K, E, T>,
    key: K,
    first: Of<K, T, A>,
    second: Of<K, T, B>,
) -> Result<(Of<K, T, A>, Of<K, T, B>), (Of<K, T, A>, Of<K, T, B>)>
    // The entity has the second one.
    // Refuses `replace_both_keeps_the_second`: `second` of `replace_both`.
    ensures replaced_entity_has_the_second { OnOk result (get (B.Table.pairs (B.table world.new.tables)) (K.data_of key) ≡ Some second) }
{
    world.replace_both::<A, B>(key, first, second)
}

/// Guards of `spawn_with_both`.
pub fn spawn_with_both<K: Key, E: Drop, T: Tables<K>, A: Apart<K, T, B>, B: Kind<K, T>>(
    world: &mut World<K, E, T>,
    entity: E,
    first: Of<K, T, A>,
    second: Of<K, T, B>,
) -> Result<K, SpawnError<E, (Of<K, T, A>, Of<K, T, B>)>>
    // The new entity has the second component.
    // Refuses `spawn_with_both_forgets_the_second`, `spawn_with_both_makes_no_room_for_the_second`: `second` of
    // `spawn_with_both`.
    ensures entity_spawned_with_both_has_the_second { IfOk result (λ key. get (B.Table.pairs (B.table world.new.tables)) (K.data_of key) ≡ Some second) }
{
    world.spawn_with_both::<A, B>(entity, first, second)
}

/// Guards of `spawn_with_three`.
pub fn spawn_with_three<
    K: Key,
    E: Drop,
    T: Tables<K>,
    A: Apart<K, T, B>,
    B: Apart<K, T, C>,
    C: Apart<K, T, A>,
>(
    world: &mut World<K, E, T>,
    entity: E,
    first: Of<K, T, A>,
    second: Of<K, T, B>,
    third: Of<K, T, C>,
) -> Result<K, SpawnError<E, (Of<K, T, A>, Of<K, T, B>, Of<K, T, C>)>>
    // The new entity has the third component.
    // Refuses `spawn_with_three_forgets_the_third`, `spawn_with_three_makes_no_room_for_the_third`: `third` of
    // `spawn_with_three`.
    ensures entity_spawned_with_three_has_the_third { IfOk result (λ key. get (C.Table.pairs (C.table world.new.tables)) (K.data_of key) ≡ Some third) }
{
    world.spawn_with_three::<A, B, C>(entity, first, second, third)
}

/// Guards of `clone_tables`.
pub fn clone_tables<K: Key, A: CloneTable<K>, B: CloneTables<K>>(
    tables: &(A, B),
) -> Result<(A, B), AllocError>
    // A copy of tables has what they have, also in all tables but the first.
    // Refuses `pairs_copy_no_second_half`: `clones` of `clone_tables`.
    ensures copied_tables_have_the_same_components { IfOk result (λ copy. B.are_clones tables.now.1 copy.1) }
{
    <(A, B) as CloneTables<K>>::clone_tables(tables)
}

/// Guards of `remove` of `Tables`.
pub fn tables_remove<K: Key, A: Table<K>, B: Tables<K>>(
    tables: &mut (A, B),
    key: K,
) -> (Option<A::Component>, B::Parts)
    // A key has no component any more, also in all tables but the first.
    // Refuses `pairs_keep_their_second_half`: `no_component` of `remove` of `Tables`.
    ensures removal_from_tables_leaves_no_component { B.has tables.new.1 (K.data_of key) ≡ false }
{
    <(A, B) as Tables<K>>::remove(tables, key)
}

/// Guards of `reserve` of `Table`.
pub fn table_reserve<K: Key, C: Drop>(
    table: &mut SecondaryMap<K, C>,
    additional: usize,
    last: usize,
) -> Result<(), ReserveError>
    // It fails with `Memory` only within the limit.
    // Refuses `table_reserve_tells_too_great_as_memory`: `err` of `reserve` of `Table`.
    ensures table_reserve_lacks_memory_within_the_limit { result ≡ Err ReserveError.Memory → last ≤ most }
{
    <SecondaryMap<K, C> as Table<K>>::reserve(table, additional, last)
}

/// Guards of `next` of `With`.
pub fn with_next<'a, K: Key, E: Drop, M: Table<K>>(
    items: &mut With<'a, K, E, M>,
) -> Option<(K, &'a M::Component)>
where
    M::Component: 'a,
    // The first entity that is left is yielded with its component.
    // Refuses `with_stops_at_a_gap`: `next_gives` of `With`.
    ensures with_yields_its_first { IfSome result (λ item. items.old ≡ (K.data_of item.0, item.1.now) ∷ items.new) }
    ensures with_ends_where_none_is_left { IfNone result (items.old ≡ []) }
{
    items.next()
}

/// Guards of `next` of `WithBoth`.
pub fn with_both_next<'a, K: Key, E: Drop, A: Table<K>, B: Table<K>>(
    items: &mut WithBoth<'a, K, E, A, B>,
) -> Option<(K, &'a A::Component, &'a B::Component)>
where
    A::Component: 'a,
    B::Component: 'a,
    // The first entity that is left is yielded with both components.
    // Refuses `with_both_asks_for_the_first_alone`: `next_gives` of `WithBoth`.
    ensures with_both_yields_its_first { IfSome result (λ item. items.old ≡ (K.data_of item.0, (item.1.now, item.2.now)) ∷ items.new) }
    ensures with_both_ends_where_none_is_left { IfNone result (items.old ≡ []) }
{
    items.next()
}

/// Guards of `next` of `WithOptional`.
pub fn with_optional_next<'a, K: Key, E: Drop, A: Table<K>, B: Table<K>>(
    items: &mut WithOptional<'a, K, E, A, B>,
) -> Option<(K, &'a A::Component, Option<&'a B::Component>)>
where
    A::Component: 'a,
    B::Component: 'a,
    // The first entity that is left is yielded with the optional component, where it has one.
    // Refuses `with_optional_leaves_the_optional_one_out`: `next_gives` of `WithOptional`.
    ensures with_optional_yields_its_first { IfSome result (λ item. items.old ≡ (K.data_of item.0, (item.1.now, option_copied item.2)) ∷ items.new) }
{
    items.next()
}

/// Guards of `size_hint` of `WithOptional`.
pub fn with_optional_size_hint<'a, K: Key, E: Drop, A: Table<K>, B: Table<K>>(
    items: &WithOptional<'a, K, E, A, B>,
) -> (usize, Option<usize>)
where
    A::Component: 'a,
    B::Component: 'a,
    // It leaves room for all entities that are left.
    // Refuses `with_optional_hints_at_half`: `upper` of `size_hint` of `WithOptional`.
    ensures with_optional_hints_at_enough { IfSome result.1 (λ count. length items.now ≤ count) }
{
    items.size_hint()
}

/// Guards of `next` of `WithThree`.
pub fn with_three_next<'a, K: Key, E: Drop, A: Table<K>, B: Table<K>, C: Table<K>>(
    items: &mut WithThree<'a, K, E, A, B, C>,
) -> Option<(K, &'a A::Component, &'a B::Component, &'a C::Component)>
where
    A::Component: 'a,
    B::Component: 'a,
    C::Component: 'a,
    // The first entity that is left is yielded with all three components.
    // Refuses `with_three_stops_at_a_gap`: `next_gives` of `WithThree`.
    ensures with_three_yields_its_first { IfSome result (λ item. items.old ≡ (K.data_of item.0, (item.1.now, (item.2.now, item.3.now))) ∷ items.new) }
    ensures with_three_ends_where_none_is_left { IfNone result (items.old ≡ []) }
{
    items.next()
}

/// Guards of `size_hint` of `WithThree`.
pub fn with_three_size_hint<'a, K: Key, E: Drop, A: Table<K>, B: Table<K>, C: Table<K>>(
    items: &WithThree<'a, K, E, A, B, C>,
) -> (usize, Option<usize>)
where
    A::Component: 'a,
    B::Component: 'a,
    C::Component: 'a,
    // It leaves room for all entities that are left.
    // Refuses `with_three_hints_at_half`: `upper` of `size_hint` of `WithThree`.
    ensures with_three_hints_at_enough { IfSome result.1 (λ count. length items.now ≤ count) }
{
    items.size_hint()
}

/// Guards of `next` of `WithWithout`.
pub fn with_without_next<'a, K: Key, E: Drop, A: Table<K>, B: Table<K>>(
    items: &mut WithWithout<'a, K, E, A, B>,
) -> Option<(K, &'a A::Component)>
where
    A::Component: 'a,
    // The first entity that is left, which lacks the other component, is yielded.
    // Refuses `with_without_stops_at_one_that_has_it`, `with_without_takes_those_that_have_it`: `next_gives` of
    // `WithWithout`.
    ensures with_without_yields_its_first { IfSome result (λ item. items.old ≡ (K.data_of item.0, item.1.now) ∷ items.new) }
    ensures with_without_ends_where_none_is_left { IfNone result (items.old ≡ []) }
{
    items.next()
}
