// Keys that wait, in their array.
ghost use Rattle.std.specs.Prelude.{◌-◌, ◌≤◌, ◌≡◌, length, set};
ghost use Rattle.rules.specs.Numbers.{type_ahead_size};
ghost use Rattle.line.specs.KeyArray.{shift, keys_after};

use crate::Key;
use crate::acts::Act;

// A key goes behind those that wait, where there is room.
fn store(keys: &mut [Key; rules::TYPE_AHEAD_SIZE], waiting: usize, code: u8, quoted: bool)
    requires { length keys.old ≡ type_ahead_size }
    ensures { keys.new ≡ set keys.old waiting (record { code = code; quoted = quoted }) }
{
    if waiting < rules::TYPE_AHEAD_SIZE {
        keys[waiting] = Key { code, quoted };
    }
}

// The first key goes, the others each a place further down.
fn drop_first(keys: &mut [Key; rules::TYPE_AHEAD_SIZE], waiting: usize)
    requires keys_len { length keys.old ≡ type_ahead_size }
    requires waiting_le_type_ahead_size { waiting ≤ type_ahead_size }
    ensures { keys.new ≡ shift (waiting - 1) keys.old }
{
    if 1 < waiting {
        keys.copy_within(1..waiting, 0);
    }
}

// What an act does to the keys.
pub(crate) fn move_keys(keys: &mut [Key; rules::TYPE_AHEAD_SIZE], waiting: usize, act: Act)
    requires keys_len { length keys.old ≡ type_ahead_size }
    requires waiting_le_type_ahead_size { waiting ≤ type_ahead_size }
    ensures { keys.new ≡ keys_after act waiting keys.old }
{
    match act {
        Act::Stores(code) => store(keys, waiting, code, false),
        Act::StoresQuoted(code) => store(keys, waiting, code, true),
        Act::Takes(_) => drop_first(keys, waiting),
        _ => {}
    }
}
