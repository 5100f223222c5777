//! Equal values hash alike.
ghost use Rattle.std.specs.Prelude.{◌≡◌, fold, true};
ghost use Rattle.std.specs.Hash.DefaultHasher as sip;

use std::hash::{DefaultHasher, Hash, Hasher};
use wax::filter::{Product, TreeResidue};

/// Returns whether the items have equal hashes if they are equal. It shows how to prove a law of a
/// type: by a function whose contract says that it always returns true.
pub fn items_hash_alike<K, T: Hash>(first: &Product<K, T>, second: &Product<K, T>) -> bool
    ensures { result ≡ true }
{
    *first != *second || hash_of(first) == hash_of(second)
}

/// Returns whether the residues have equal hashes if they are equal, which is always true, too.
pub fn residues_hash_alike<T: Hash>(residue: &TreeResidue<T>, other: &TreeResidue<T>) -> bool
    ensures { result ≡ true }
{
    *residue != *other || hash_of(residue) == hash_of(other)
}

fn hash_of<T: Hash>(value: &T) -> u64
    ensures { result ≡ sip.finish (fold sip.write sip.initial (T.hash_input value.now)) }
{
    let mut state = DefaultHasher::new();
    value.hash(&mut state);
    state.finish()
}
