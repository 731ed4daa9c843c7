// FLAGS as a number.
ghost use Rattle.std.specs.Prelude.{◌≡◌};
ghost use Rattle.fronts.specs.Flags.{packed, Packs};

// Its fields from bit 0 up, each with how many values its bits have. By cases: in a fold the bound of the sum would have to go
// through the closure.
pub(crate) fn packed(fields: &[(u8, u8)]) -> u32
    requires { Packs fields.now }
    ensures { result ≡ packed fields.now }
{
    match fields {
        [] => 0,
        [(value, values), above @ ..] => u32::from(*value) + u32::from(*values) * packed(above),
    }
}
