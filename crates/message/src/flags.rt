// The fields of FLAGS, one after the other, from bit 0 on.
ghost use Rattle.std.specs.Prelude.{◌≡◌, ◌<◌, ◌%◌, ◌/◌};

// What is left of them.
#[derive(Drop)]
pub(crate) struct Flags {
    pub(crate) rest: u32,
}

impl Flags {
    // The next field, by how many values it has.
    pub(crate) fn take(&mut self, values: u8) -> u8
        requires { 0 < values }
        ensures field { result ≡ self.old.rest % values }
        ensures rest { self.new.rest ≡ self.old.rest / values }
    {
        let values = values as u32;
        let field = self.rest % values;
        self.rest /= values;
        field as u8
    }
}
