//! Keys of one type inside of a structure.

ghost use Rattle.std.specs.Prelude.{◌≡◌};

use slotmap::{DefaultKey, Key};

/// Returns the key of the default type with the data of this key.
///
/// ```
/// let key = NodeKey::from(KeyData::new(2, 3));
/// assert_eq!(rt; inner(key), DefaultKey::from(KeyData::new(2, 3)));
/// ```
pub fn inner<K: Key>(key: K) -> DefaultKey
    ensures { result ≡ K.data_of key }
{
    DefaultKey::from(key.data())
}

/// Returns the key of any type with the data of a key of the default type.
///
/// ```
/// let key = DefaultKey::from(KeyData::new(2, 3));
/// let node: NodeKey = outer(key);
/// assert_eq!(rt; inner(node), key);
/// ```
pub fn outer<K: Key>(key: DefaultKey) -> K
    ensures { K.data_of result ≡ key }
{
    K::from(key.data())
}
