//! The animals at the pond, the stones that they sit on, and their choir.

use crate::animals::Animal;
use slotmap::{DefaultKey, NodeKey, SecondaryMap};
use slotmap_entities::{First, Second, World};
use slotmap_graph::Graph;
use slotmap_list::{Cursor, StableList};
use std::alloc::Global;

// The components of an animal: its stone, and its cursor in the choir.
type Stone = First;

type Voice = Second;

type Tables = (
    SecondaryMap<DefaultKey, NodeKey>,
    (SecondaryMap<DefaultKey, Cursor>, ()),
);

type Animals = World<DefaultKey, Animal, Tables>;

// The stones by their numbers.
type Stones = Graph<NodeKey, u32, ()>;

/// Animals on stones, who sing in the order in which they came.
#[derive(Drop)]
pub struct Pond {
    animals: Animals,
    stones: Stones,
    choir: StableList<Cursor, Animal>,
}

// The stone after this one.
fn next_stone(stones: &Stones, from: NodeKey) -> Option<NodeKey> {
    let edge = stones.edges_from(from).next()?;
    let (_, to) = stones.edge_ends(edge)?;
    Some(to)
}

impl Pond {
    // A pond of these animals and stones, in which nobody sings.
    fn silent(alloc: Global, animals: Animals, stones: Stones) -> Option<Pond> {
        match StableList::new(alloc) {
            Ok(choir) => Some(Pond {
                animals,
                stones,
                choir,
            }),
            Err(_) => None,
        }
    }

    // A pond of these stones, without animals.
    fn of_stones(alloc: Global, stones: Stones) -> Option<Pond> {
        match World::new(alloc) {
            Ok(animals) => Pond::silent(alloc, animals, stones),
            Err(_) => None,
        }
    }

    /// Makes a pond without stones and animals.
    pub fn new(alloc: Global) -> Option<Pond> {
        match Graph::new(alloc) {
            Ok(stones) => Pond::of_stones(alloc, stones),
            Err(_) => None,
        }
    }

    /// Lays three more stones, each one hop from the next. The last is one hop from the first. Returns two of them.
    pub fn lay_three(&mut self) -> Option<(NodeKey, NodeKey)> {
        let first = self.lay(1)?;
        let second = self.lay(2)?;
        let third = self.lay(3)?;
        for (from, to) in [(first, second), (second, third), (third, first)] {
            self.stones.add_edge(from, to, ()).ok()?;
        }
        Some((first, second))
    }

    // Lays one more stone.
    fn lay(&mut self, number: u32) -> Option<NodeKey> {
        self.stones.add_node(number).ok()
    }

    /// How many animals there are.
    pub fn len(&self) -> usize {
        self.animals.len()
    }

    /// The number of a stone.
    pub fn number(&self, stone: NodeKey) -> Option<u32> {
        self.stones.node(stone).copied()
    }

    /// How many stones there are within some hops of this one.
    pub fn within_reach(&self, alloc: Global, stone: NodeKey) -> Option<usize> {
        let found = self.stones.reachable(alloc, stone).ok()?;
        Some(found.len())
    }

    /// An animal comes to a stone, and sings last.
    pub fn welcome(&mut self, animal: Animal, stone: NodeKey) -> Option<DefaultKey> {
        let voice = self.choir.push_back(animal).ok()?;
        let key = self
            .animals
            .spawn_with_both::<Stone, Voice>(animal, stone, voice);
        key.ok()
    }

    /// An animal hops to the next stone. Returns who it was, with the numbers of both stones.
    pub fn hop(&mut self, key: DefaultKey) -> Option<(Animal, u32, u32)> {
        let animal = *self.animals.get(key)?;
        let stone = self.animals.component_mut::<Stone>(key)?;
        let from = *stone;
        let to = next_stone(&self.stones, from)?;
        *stone = to;
        Some((animal, self.number(from)?, self.number(to)?))
    }

    /// An animal goes, and sings no more.
    pub fn take(&mut self, key: DefaultKey) -> Option<Animal> {
        let (animal, parts) = self.animals.despawn(key)?;
        if let Some(voice) = parts.1.0 {
            self.choir.remove(voice);
        }
        Some(animal)
    }

    /// Who sings, in their order.
    pub fn choir(&self, alloc: Global) -> Option<String> {
        let mut names = String::new(alloc);
        for animal in self.choir.values() {
            names.push_str(" ").ok()?;
            names.push_str(animal.name()).ok()?;
        }
        if names.is_empty() {
            names.push_str(" nobody").ok()?;
        }
        Some(names)
    }
}
