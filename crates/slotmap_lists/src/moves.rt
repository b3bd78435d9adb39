//! The calls that change a value, or move an element.

ghost use Rattle.std.specs.Prelude.{◌≡◌, ◌≢◌, ℕ, ◌<◌, ◌^◌, if◌then◌else◌, true, IsTrue, Some, None, is_some, length};
ghost use Rattle.std.specs.Option.{option_copied_mut};
ghost use Rattle.std.specs.Borrow.{sem};
ghost use Rattle.slotmap.specs.Words.{Key as KeyOf};
ghost use Rattle.slotmap_list.specs.Sequence.{first_or, key_after, key_before, last_or, without};
ghost use Rattle.slotmap_lists.specs.Sequences.{elements_of, list_with, number_with, value_under, without_key, put_into, are_two_in, can_move_to};
ghost use Rattle.slotmap_lists.specs.Sequences.{moved_to_front_of, moved_to_back_of, moved_behind, moved_ahead};
ghost use Rattle.slotmap_lists.specs.Places.{element_put, is_spot};

use crate::StableLists;
use crate::place::{Place, home_at, put_index};
use slotmap::Key;

impl<K: Key, T: Drop> StableLists<K, T> {
    ghost use Rattle.slotmap_lists.specs.Lends.{lends_in};

    /// Returns a mutable reference to the value of a cursor, or `None` if it is in no list. Constant
    /// time.
    ///
    /// ```
    /// let mut lists = StableLists::new(alloc, 1)?;
    /// let one = lists.push_back(0, 1)?;
    /// if let Some(value) = lists.get_mut(one) {
    ///     *value = 5;
    /// }
    /// assert_eq!(rt; lists.get(one), Some(&5));
    /// ```
    pub fn get_mut(&mut self, cursor: K) -> Option<&mut T>
        ensures* writes_back { sem 𝓛 (lends_in K.row T.row self.entry (K.data_of cursor) result) }
        ensures value { option_copied_mut result ≡ value_under (K.data_of cursor) self.old.lists }
    {
        match self.values.get_mut(cursor) {
            Some(value) => Some(value),
            None => None,
        }
    }

    /// Moves the element of a cursor to the front of a list, whichever list it is in. It returns
    /// `false`, and changes nothing, if the cursor is in no list, or if there is no list with this
    /// number.
    ///
    /// Constant time. The element keeps its cursor and its value, and the capacity stays.
    ///
    /// ```
    /// let mut lists = StableLists::new(alloc, 2)?;
    /// let one = lists.push_back(0, 1)?;
    /// let two = lists.push_back(1, 2)?;
    /// assert!(rt; lists.move_to_front(one, 1));
    /// assert_eq!(rt; (lists.first(0), lists.first(1), lists.last(1)), (None, Some(one), Some(two)));
    /// assert!(rt; !lists.move_to_front(one, 2));
    /// ```
    pub fn move_to_front(&mut self, cursor: K, list: usize) -> bool
        ensures which { result ≡ can_move_to (K.data_of cursor) list self.old.lists }
        ensures moved { self.new ≡ record self.old
            { lists = if result then moved_to_front_of (K.data_of cursor) list self.old.lists else self.old.lists } }
        ensures in_list { IsTrue result → number_with (K.data_of cursor) self.new.lists ≡ Some list }
        ensures others { IsTrue result → (q : ℕ) → q ≢ list → elements_of q self.new.lists ≡ without (K.data_of cursor) (elements_of q self.old.lists) }
        ensures first { IsTrue result → first_or (elements_of list self.new.lists) None ≡ Some (K.data_of cursor) }
        ensures values { (q : KeyOf) → value_under q self.new.lists ≡ value_under q self.old.lists }
        ensures as_many { length self.new.lists ≡ length self.old.lists }
    {
        if !self.can_move_to(cursor, list) {
            return false;
        }
        self.move_to(cursor, list as u32, Place::Front);
        true
    }

    /// Moves the element of a cursor to the back of a list, whichever list it is in. It returns
    /// `false`, and changes nothing, if the cursor is in no list, or if there is no list with this
    /// number.
    ///
    /// Constant time. The element keeps its cursor and its value, and the capacity stays.
    ///
    /// ```
    /// let mut lists = StableLists::new(alloc, 2)?;
    /// let one = lists.push_back(0, 1)?;
    /// let two = lists.push_back(1, 2)?;
    /// assert!(rt; lists.move_to_back(one, 1));
    /// assert_eq!(rt; (lists.first(0), lists.first(1), lists.last(1)), (None, Some(two), Some(one)));
    /// assert!(rt; !lists.move_to_back(one, 2));
    /// ```
    pub fn move_to_back(&mut self, cursor: K, list: usize) -> bool
        ensures which { result ≡ can_move_to (K.data_of cursor) list self.old.lists }
        ensures moved { self.new ≡ record self.old
            { lists = if result then moved_to_back_of (K.data_of cursor) list self.old.lists else self.old.lists } }
        ensures in_list { IsTrue result → number_with (K.data_of cursor) self.new.lists ≡ Some list }
        ensures others { IsTrue result → (q : ℕ) → q ≢ list → elements_of q self.new.lists ≡ without (K.data_of cursor) (elements_of q self.old.lists) }
        ensures last { IsTrue result → last_or (elements_of list self.new.lists) None ≡ Some (K.data_of cursor) }
        ensures values { (q : KeyOf) → value_under q self.new.lists ≡ value_under q self.old.lists }
        ensures as_many { length self.new.lists ≡ length self.old.lists }
    {
        if !self.can_move_to(cursor, list) {
            return false;
        }
        self.move_to(cursor, list as u32, Place::Back);
        true
    }

    /// Moves the element of a cursor to the place before another one, into the other's list. It returns
    /// `false`, and changes nothing, if one of the two is in no list, or if they are the same.
    ///
    /// Constant time. The element keeps its cursor and its value, and the capacity stays.
    ///
    /// ```
    /// let mut lists = StableLists::new(alloc, 2)?;
    /// let one = lists.push_back(0, 1)?;
    /// let two = lists.push_back(1, 2)?;
    /// assert!(rt; lists.move_before(one, two));
    /// assert_eq!(rt; (lists.first(0), lists.first(1), lists.last(1)), (None, Some(one), Some(two)));
    /// assert!(rt; !lists.move_before(one, one));
    /// ```
    pub fn move_before(&mut self, cursor: K, other: K) -> bool
        ensures which { result ≡ are_two_in (K.data_of cursor) (K.data_of other) self.old.lists }
        ensures moved { self.new ≡ record self.old
            { lists = if result then moved_ahead (K.data_of cursor) (K.data_of other) self.old.lists else self.old.lists } }
        ensures in_list { IsTrue result → number_with (K.data_of cursor) self.new.lists ≡ number_with (K.data_of other) self.old.lists }
        ensures prev { IsTrue result → key_before None (K.data_of other) (list_with (K.data_of other) self.new.lists) ≡ Some (K.data_of cursor) }
        ensures others { IsTrue result → (q : ℕ) → number_with (K.data_of other) self.old.lists ≢ Some q →
            elements_of q self.new.lists ≡ without (K.data_of cursor) (elements_of q self.old.lists) }
        ensures values { (q : KeyOf) → value_under q self.new.lists ≡ value_under q self.old.lists }
        ensures as_many { length self.new.lists ≡ length self.old.lists }
    {
        if !self.has_two(cursor, other) {
            return false;
        }
        let list = self.home(other);
        self.move_to(cursor, list, Place::Before(other.data()));
        true
    }

    /// Moves the element of a cursor to the place after another one, into the other's list. It returns
    /// `false`, and changes nothing, if one of the two is in no list, or if they are the same.
    ///
    /// Constant time. The element keeps its cursor and its value, and the capacity stays.
    ///
    /// ```
    /// let mut lists = StableLists::new(alloc, 2)?;
    /// let one = lists.push_back(0, 1)?;
    /// let two = lists.push_back(1, 2)?;
    /// assert!(rt; lists.move_after(one, two));
    /// assert_eq!(rt; (lists.first(0), lists.first(1), lists.last(1)), (None, Some(two), Some(one)));
    /// assert!(rt; !lists.move_after(one, one));
    /// ```
    pub fn move_after(&mut self, cursor: K, other: K) -> bool
        ensures which { result ≡ are_two_in (K.data_of cursor) (K.data_of other) self.old.lists }
        ensures moved { self.new ≡ record self.old
            { lists = if result then moved_behind (K.data_of cursor) (K.data_of other) self.old.lists else self.old.lists } }
        ensures in_list { IsTrue result → number_with (K.data_of cursor) self.new.lists ≡ number_with (K.data_of other) self.old.lists }
        ensures next { IsTrue result → key_after (K.data_of other) (list_with (K.data_of other) self.new.lists) ≡ Some (K.data_of cursor) }
        ensures others { IsTrue result → (q : ℕ) → number_with (K.data_of other) self.old.lists ≢ Some q →
            elements_of q self.new.lists ≡ without (K.data_of cursor) (elements_of q self.old.lists) }
        ensures values { (q : KeyOf) → value_under q self.new.lists ≡ value_under q self.old.lists }
        ensures as_many { length self.new.lists ≡ length self.old.lists }
    {
        if !self.has_two(cursor, other) {
            return false;
        }
        let list = self.home(other);
        self.move_to(cursor, list, Place::After(other.data()));
        true
    }

    // Moves the element of a cursor to a place in a list.
    fn move_to(&mut self, cursor: K, list: u32, place: Place)
        requires there { is_some (value_under (K.data_of cursor) self.old.lists) ≡ true }
        requires list { list < length self.old.lists }
        requires place { is_spot place (elements_of list (without_key (K.data_of cursor) self.old.lists)) ≡ true }
        ensures moved { self.new ≡ record self.old {
          lists = put_into (element_put place) list (K.data_of cursor)
              (value_under (K.data_of cursor) self.old.lists) self.old.lists;
        } }
        ensures in_list { number_with (K.data_of cursor) self.new.lists ≡ Some list }
        ensures others { (q : ℕ) → q ≢ list → elements_of q self.new.lists ≡ without (K.data_of cursor) (elements_of q self.old.lists) }
        ensures values { (q : KeyOf) → value_under q self.new.lists ≡ value_under q self.old.lists }
        ensures as_many { length self.new.lists ≡ length self.old.lists }
    {
        let index = cursor.data().idx();
        let home = home_at(&self.homes, index);
        self.links.take_out(home, index);
        put_index(&mut self.links, list, place, index);
        self.homes[index as usize] = list;
    }

    // Whether a cursor is in a list, and there is a list with this number.
    fn can_move_to(&self, cursor: K, list: usize) -> bool
        ensures which { result ≡ can_move_to (K.data_of cursor) list self.now.lists }
        ensures fits { result ≡ true → list < 2 ^ 32 }
    {
        self.contains(cursor) && list < self.lists()
    }

    // Whether both cursors are in lists, and are two.
    fn has_two(&self, cursor: K, other: K) -> bool
        ensures { result ≡ are_two_in (K.data_of cursor) (K.data_of other) self.now.lists }
    {
        cursor.data() != other.data() && self.contains(cursor) && self.contains(other)
    }
}
