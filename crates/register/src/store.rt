// The store of the register.
ghost use Rattle.std.specs.Prelude.{◌≡◌, [], min, length};
ghost use Rattle.split.specs.Store.{state};
ghost use Rattle.register.specs.Store.{side};

use crate::usage::Use;
use hashed::{Cell, Hashed};
use keys::LengthKey;
use split::Split;

/// Two hashed stores, for short answers and for long ones.
pub type RegisterStore<'a> = Split<Hashed<'a, LengthKey, Use>, Hashed<'a, LengthKey, Use>>;

/// An empty store over lent cells: answers of fewer than eight bytes lie in `short`, all others in
/// `long`, and each side has a room of its own.
pub fn register_store<'a>(
    short: &'a mut [Cell<LengthKey, Use>],
    long: &'a mut [Cell<LengthKey, Use>],
) -> RegisterStore<'a>
    ensures empty { (state result).contents ≡ [] }
    ensures sections { (k : LengthKey) → (state result).section k ≡ side k }
    ensures short_room { (state result).room 0 ≡ min (length short.old) 32768 }
    ensures long_room { (state result).room 1 ≡ min (length long.old) 32768 }
{
    let first_long = LengthKey {
        length: 8,
        prefix: 0,
    };
    Split::new(Hashed::new(short), Hashed::new(long), first_long)
}
