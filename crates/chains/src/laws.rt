// The laws of contents, as a theorem.
ghost use Rattle.chains.specs.Laws.{ContentsLaws};

use keys::Key;

/// States, and so has the check prove, that contents behave as a sequence for each key and that the
/// four answers about keys are the nearest keys with values, for any kind of key and value.
pub fn contents_obey_their_laws<K: Key, V>()
    ensures { ContentsLaws K.Key.less V }
{}
