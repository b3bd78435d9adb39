//! Calls of each kind on worlds of numbers, with numbers as components. [`run`] alone names the tables. Those that return a `bool` say whether all
//! that may fail succeeded.

use callers_sums::{EMPTY, SIZE, Sum, keep, pick, tell};
use slotmap::{DefaultKey, SecondaryMap, SparseSecondaryMap};
use slotmap_entities::{Apart, CloneTables, First, Kind, Second, Table, Tables, World};
use std::marker::PhantomData;

type Numbers<T> = World<DefaultKey, u64, T>;

// What a removed entity had.
type Parts = (Option<u64>, (Option<u64>, ()));

// The calls, over any tables with two kinds of components.
struct Calls<T, F, S>(PhantomData<(T, F, S)>);

impl<T, F, S> Calls<T, F, S>
where
    T: CloneTables<DefaultKey> + Tables<DefaultKey, Parts = Parts>,
    F: Apart<DefaultKey, T, S>,
    S: Kind<DefaultKey, T>,
    F::Table: Table<DefaultKey, Component = u64>,
    S::Table: Table<DefaultKey, Component = u64>,
{
    // Spawns the numbers below `SIZE`: with no component, with the first one, or with both, which are multiples of the number.
    fn spawn_all(world: &mut Numbers<T>, keys: &mut Vec<DefaultKey>) -> bool {
        let mut done = true;
        for number in 0..SIZE {
            let (twice, thrice) = (number.wrapping_mul(2), number.wrapping_mul(3));
            let key = match number % 3 {
                0 => world.spawn_with_both::<F, S>(number, twice, thrice).ok(),
                1 => world.spawn_with::<F>(number, twice).ok(),
                _ => world.spawn(number).ok(),
            };
            done &= keep(keys, key);
        }
        done
    }

    // Gives each second entity a second component: its number, four times.
    fn attach_some(world: &mut Numbers<T>, keys: &[DefaultKey]) -> bool {
        let mut done = world
            .reserve_components::<S>(SIZE as usize, SIZE as usize)
            .is_ok();
        for key in keys.iter().step_by(2) {
            let number = world.get(*key).copied().unwrap_or(0);
            done &= world.attach::<S>(*key, number.wrapping_mul(4)).is_ok();
        }
        done
    }

    // The entities with both components, with the second one alone, with the second one, and with the first one: each before its components.
    fn sum_of_joins(world: &Numbers<T>) -> Sum {
        let mut sum = EMPTY;
        for (key, first, second) in world.with_both::<F, S>() {
            sum.add_found(world.get(key));
            sum.add(*first);
            sum.add(*second);
        }
        for (key, second) in world.with_without::<S, F>() {
            sum.add_found(world.get(key));
            sum.add(*second);
        }
        for (_, second) in world.with::<S>() {
            sum.add(*second);
        }
        for (key, first, second) in world.with_optional::<F, S>() {
            sum.add_found(world.get(key));
            sum.add(*first);
            sum.add(second.copied().unwrap_or(u64::MAX));
        }
        sum
    }

    // All entities, by their keys.
    fn sum_of_all(world: &Numbers<T>) -> Sum {
        let mut sum = EMPTY;
        for (key, number) in world.iter() {
            sum.add(*number);
            if world.contains_key(key) {
                sum.add(world[key]);
            }
            sum.add(u64::from(world.has::<F>(key)));
        }
        sum
    }

    // Adds 1 to each number and to each first component.
    fn write_all(world: &mut Numbers<T>, keys: &[DefaultKey]) {
        for key in keys {
            if let Some(number) = world.get_mut(*key) {
                *number = number.wrapping_add(1);
            }
            if let Some(first) = world.component_mut::<F>(*key) {
                *first = first.wrapping_add(1);
            }
        }
    }

    // Exchanges components of entities that have both.
    fn replace_all(world: &mut Numbers<T>, keys: &[DefaultKey]) -> Sum {
        let mut sum = EMPTY;
        for key in keys {
            match world.replace_both::<F, S>(*key, 1, 2) {
                Ok((first, second)) => sum.add(first.wrapping_add(second)),
                Err((first, _)) => sum.add(first),
            }
        }
        sum
    }

    // Removes entities by chance, and second components of others.
    fn remove_some(world: &mut Numbers<T>, keys: &[DefaultKey]) -> Sum {
        let mut sum = EMPTY;
        for turn in 0..SIZE / 2 {
            if let Some((number, (first, (second, ())))) = world.despawn(pick(keys, turn)) {
                sum.add(number);
                sum.add(first.unwrap_or(u64::MAX));
                sum.add(second.unwrap_or(u64::MAX));
            }
            let detached = world.detach::<S>(pick(keys, turn + SIZE));
            sum.add(detached.unwrap_or(u64::MAX));
        }
        sum
    }

    // The calls on an empty world.
    fn run_in(rt: &HostRuntime, world: &mut Numbers<T>, keys: &mut Vec<DefaultKey>) -> bool {
        let done = Self::spawn_all(world, keys)
            && Self::attach_some(world, keys.as_slice())
            && tell(rt, "spawned", Self::sum_of_joins(world));
        Self::write_all(world, keys.as_slice());
        world.retain_components::<F, _>(|_, component| *component % 4 != 0);
        done && tell(rt, "removed", Self::remove_some(world, keys.as_slice()))
            && tell(rt, "left", Self::sum_of_joins(world))
            && tell(rt, "replaced", Self::replace_all(world, keys.as_slice()))
            && tell(rt, "by keys", Self::sum_of_all(world))
    }

    // The same with a world that is made.
    fn run(rt: &HostRuntime) -> bool {
        let mut keys = Vec::new(rt.alloc());
        match World::with_capacity(rt.alloc(), SIZE as usize) {
            Ok(mut world) => Self::run_in(rt, &mut world, &mut keys),
            Err(_) => false,
        }
    }
}

// The tables, of both types.
type Both = (
    SecondaryMap<DefaultKey, u64>,
    (SparseSecondaryMap<DefaultKey, u64>, ()),
);

/// Makes the calls, and returns whether those that may fail succeeded.
pub fn run(rt: &HostRuntime) -> bool {
    Calls::<Both, First, Second>::run(rt)
}
