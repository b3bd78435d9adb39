//! Keys: an index, and a version that tells the keys of one index apart.
//!
//! A primary map makes a key for each value that is inserted. The index names the value's slot. The
//! version is larger than that of each earlier key of the slot, so a stale key finds no later
//! value.

ghost use Rattle.std.specs.Prelude.{◌≡◌, ◌↔◌, ◌/◌, ◌%◌, ◌^◌, IsTrue, refl};
ghost use Rattle.slotmap_core.specs.Words.{Key as KeyOf, IsKey, null_key, ffi, key_from, is_older};

use std::fmt;
use std::hash::{Hash, Hasher};
use std::marker::Model;

mod node_key;

pub use node_key::NodeKey;

/// The data that every key type wraps: an index and an odd version, both of 32 bits.
///
/// - There is one null key, of index 4294967295 and version 1. No other key has that index.
/// - Keys are ordered by index, then by version.
/// - A key is hashed as the number that `as_ffi` returns.
/// - The debug text is `null`, or the index, `v` and the version.
/// - The default is the null key.
///
/// ```
/// let data = KeyData::new(2, 3);
/// assert_eq!(rt; format!(in alloc; "{data:?}")?.as_str(), "2v3");
/// assert!(rt; data < KeyData::new(2, 5));
/// assert!(rt; data < KeyData::default());
/// ```
#[derive(Clone, Copy, PartialEq, Eq, PartialOrd, Ord)]
pub struct KeyData {
    idx: u32,
    version: u32,
}

impl Model for KeyData {
    ghost use Rattle.slotmap_core.specs.Words.{Key, IsKey};

    ghost Value = { Key };

    ghost view = { λ k. record { index = k.idx; version = k.version } };

    ghost invariant = { λ k. IsKey (record { index = k.idx; version = k.version }) };

    ghost inverse = { λ k. record { idx = k.index; version = k.version } };
}

impl KeyData {
    /// Returns the key data of an index and a version.
    ///
    /// An even version is raised to the odd one after it. The index 4294967295 gives the null key,
    /// whatever the version. The result is that of `from_ffi` at `version * 2^32 + idx`. Constant
    /// time. Rust lacks this call.
    ///
    /// ```
    /// assert_eq!(rt; KeyData::new(2, 4), KeyData::new(2, 5));
    /// assert_eq!(rt; KeyData::new(4294967295, 9), KeyData::default());
    /// ```
    #[tactic(auto, using(crate::proofs::General::Odd::or_one))]
    pub fn new(idx: u32, version: u32) -> KeyData
        ensures value { result ≡ key_from idx version }
        ensures valid { IsKey result }
    {
        if idx == u32::MAX {
            return KeyData::default();
        }
        KeyData {
            idx,
            version: version | 1,
        }
    }

    /// Returns the key data of an index and a version that are those of a key.
    ///
    /// It is for maps, which know that the parts of a slot's key are such; others call `new`. The
    /// contract asks for an odd version and, at the greatest index, for version 1. In contrast to
    /// `new` nothing is tested or changed. Constant time. Rust lacks this call.
    ///
    /// ```
    /// assert_eq!(rt; KeyData::exact(2, 3), KeyData::new(2, 3));
    /// ```
    pub fn exact(idx: u32, version: u32) -> KeyData
        requires { IsKey (record { index = idx; version = version }) }
        ensures { result ≡ record { index = idx; version = version } }
    {
        KeyData { idx, version }
    }

    /// Returns the index.
    ///
    /// Constant time. Rust lacks this call.
    ///
    /// ```
    /// assert_eq!(rt; KeyData::new(2, 3).idx(), 2);
    /// assert_eq!(rt; KeyData::default().idx(), 4294967295);
    /// ```
    pub fn idx(self) -> u32
        ensures value { result ≡ self.index }
        ensures valid { IsKey self }
    {
        self.idx
    }

    /// Returns the version, which is odd.
    ///
    /// Constant time. Rust lacks this call.
    ///
    /// ```
    /// assert_eq!(rt; KeyData::new(2, 3).version(), 3);
    /// assert_eq!(rt; KeyData::default().version(), 1);
    /// ```
    pub fn version(self) -> u32
        ensures value { result ≡ self.version }
        ensures valid { IsKey self }
    {
        self.version
    }

    /// Returns the key as one number, `version * 2^32 + idx`.
    ///
    /// Code in other languages can hold a key as this number. `from_ffi` returns the key again.
    /// Constant time.
    ///
    /// ```
    /// assert_eq!(rt; KeyData::new(1, 3).as_ffi(), 12884901889);
    /// assert_eq!(rt; KeyData::default().as_ffi(), 8589934591);
    /// ```
    pub fn as_ffi(self) -> u64
        ensures value { result ≡ ffi self }
        ensures valid { IsKey self }
    {
        u64::from(self.version) << 32 | u64::from(self.idx)
    }

    /// Returns the key of a number that `as_ffi` returned.
    ///
    /// Any other number is read as well. Its low 32 bits are the index. Its high 32 bits, with the
    /// lowest bit set, are the version. If the index is 4294967295, the version becomes 1, so there
    /// is one null key. Rust keeps the version there, so its null keys can differ. Constant time.
    ///
    /// ```
    /// assert_eq!(rt; KeyData::from_ffi(12884901889), KeyData::new(1, 3));
    /// assert_eq!(rt; KeyData::from_ffi(17179869183), KeyData::default());
    /// ```
    pub fn from_ffi(value: u64) -> KeyData
        ensures value { result ≡ key_from (value % 2 ^ 32) (value / 2 ^ 32) }
        ensures round_trip { (k : KeyOf) → IsKey k → value ≡ ffi k → result ≡ k }
        ensures valid { IsKey result }
    {
        KeyData::new((value & 0xffff_ffff) as u32, (value >> 32) as u32)
    }
}

/// Returns whether version `a` is older than version `b`, where versions of 32 bits wrap around.
///
/// It is older if `(a - b) mod 2^32` is at least 2^31. So at a distance of exactly 2^31 each of the
/// two is older than the other. Constant time. In Rust it is private.
///
/// ```
/// assert!(rt; is_older_version(1, 3));
/// assert!(rt; is_older_version(4294967295, 0));
/// assert!(rt; !is_older_version(3, 3));
/// ```
pub fn is_older_version(a: u32, b: u32) -> bool
    ensures { result ≡ is_older a b }
{
    a.wrapping_sub(b) >= 1 << 31
}

impl Default for KeyData {
    ghost is_default = { λ k. k ≡ null_key };

    fn default() -> KeyData {
        KeyData {
            idx: u32::MAX,
            version: 1,
        }
    }
}

impl Hash for KeyData {
    ghost use Rattle.std.proofs.Common.{rules};
    ghost use Rattle.slotmap_core.specs.Words.{hashed, hashing};

    ghost hash_input = { hashed };

    ghost respects_eq = { Prim.search (hashing, rules) };

    fn hash<H: Hasher>(&self, state: &mut H) {
        state.write_u64(self.as_ffi());
    }
}

impl fmt::Debug for KeyData {
    fn fmt<W: fmt::Write>(&self, f: &mut fmt::Formatter<W>) -> fmt::Result {
        if self.idx == u32::MAX {
            write!(f, "null")
        } else {
            write!(f, "{}v{}", self.idx, self.version)
        }
    }
}

/// A type of keys: a wrapper around `KeyData` and nothing more.
///
/// If each map has a key type of its own, the compiler rejects a key of another map. `DefaultKey`
/// is the key type of a map that names no other. To make a key type, copy
/// `crates/slotmap_list/src/cursor.rt`, whose imports are those of a crate above. Rust has the macro
/// `new_key_type!` for it.
///
/// Every key type proves that it behaves as its data do:
///
/// - `K::from(key.data()) == key` and `K::from(data).data() == data`
/// - keys are equal, ordered and hashed as their data are
/// - the default is the null key
///
/// ```
/// let key = NodeKey::from(KeyData::new(2, 3));
/// assert_eq!(rt; key.data(), KeyData::new(2, 3));
/// assert!(rt; key < NodeKey::null());
/// ```
pub trait Key: From<KeyData> + Copy + Default + Eq + Ord + Hash + fmt::Debug {
    ghost use Rattle.slotmap_core.specs.Words.{Key, IsKey, key_cmp, hashed, null_key};

    /// The data of a key.
    ghost data_of: { Self → Key };

    /// The key of some data.
    ghost of_data: { Key → Self };

    /// Returns the null key, which is in no map.
    ///
    /// It is the default, too. Constant time.
    ///
    /// ```
    /// assert_eq!(rt; DefaultKey::null(), DefaultKey::default());
    /// assert_eq!(rt; DefaultKey::null().data(), KeyData::new(4294967295, 1));
    /// ```
    fn null() -> Self
        ensures { data_of result ≡ null_key };

    /// Returns whether this is the null key.
    ///
    /// Constant time.
    ///
    /// ```
    /// assert!(rt; DefaultKey::null().is_null());
    /// assert!(rt; !DefaultKey::from(KeyData::new(1, 1)).is_null());
    /// ```
    fn is_null(&self) -> bool
        ensures { IsTrue result ↔ data_of self.now ≡ null_key };

    /// Returns the data of this key, of which `from` makes the key again.
    ///
    /// Constant time.
    ///
    /// ```
    /// let key = DefaultKey::from(KeyData::new(2, 3));
    /// assert_eq!(rt; key.data().idx(), 2);
    /// assert_eq!(rt; DefaultKey::from(key.data()), key);
    /// ```
    fn data(&self) -> KeyData
        ensures value { result ≡ data_of self.now }
        ensures valid { IsKey result };

    ghost from_data: { (d : Key) → IsKey d → data_of (of_data d) ≡ d };

    ghost from_data_of: { (k : Self) → IsKey (data_of k) → of_data (data_of k) ≡ k };

    ghost from_gives_key: { (d : Key) (k : Self) → Self.from_gives d k → k ≡ of_data d };

    ghost clone_same: { (a b : Self) → Self.is_clone a b → a ≡ b };

    ghost default_null: { (k : Self) → Self.is_default k → data_of k ≡ null_key };

    ghost eq_by_data: { (a b : Self) → IsTrue (Self.eq a b) ↔ data_of a ≡ data_of b };

    ghost cmp_by_data: { (a b : Self) → Self.cmp a b ≡ key_cmp (data_of a) (data_of b) };

    ghost hash_by_data: { (k : Self) → Self.hash_input k ≡ hashed (data_of k) };
}

/// The key type of a map that names no other.
///
/// ```
/// let mut map: SlotMap<DefaultKey, u64> = SlotMap::new(alloc)?;
/// let key: DefaultKey = map.insert(5)?;
/// assert_eq!(rt; map.get(key), Some(&5));
/// ```
#[derive(Clone, Copy, PartialEq, Eq, PartialOrd, Ord, Hash, Debug)]
pub struct DefaultKey(KeyData);

impl Model for DefaultKey {
    ghost use Rattle.slotmap_core.specs.Words.{Key};

    ghost Value = { Key };

    ghost view = { λ k. k.0 };

    ghost inverse = { λ k. record { 0 = k } };
}

impl From<KeyData> for DefaultKey {
    ghost from_gives = { λ d k. k ≡ d };

    fn from(data: KeyData) -> DefaultKey {
        DefaultKey(data)
    }
}

impl Default for DefaultKey {
    ghost is_default = { λ k. k ≡ null_key };

    fn default() -> DefaultKey {
        DefaultKey(KeyData::default())
    }
}

impl Key for DefaultKey {
    ghost data_of = { λ k. k };

    ghost of_data = { λ d. d };

    fn null() -> DefaultKey {
        DefaultKey::default()
    }

    fn is_null(&self) -> bool {
        self.0.idx() == u32::MAX
    }

    fn data(&self) -> KeyData {
        let data = self.0;
        // by the contract of `idx`, the data is within its bounds
        let _ = data.idx();
        data
    }

    ghost from_data = { λ d h. refl };

    ghost from_data_of = { λ k h. refl };

    ghost from_gives_key = { λ d k h. h };

    ghost use Rattle.std.proofs.Common.{sym};
    ghost use Rattle.slotmap_core.specs.Words.{same_keys};

    ghost clone_same = { λ a b h. sym h };

    ghost default_null = { λ k h. h };

    ghost eq_by_data = { same_keys };

    ghost cmp_by_data = { λ a b. refl };

    ghost hash_by_data = { λ k. refl };
}
