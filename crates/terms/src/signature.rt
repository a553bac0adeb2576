// Kinds of constants: a signature's meaning is a function from constants (form and value) to kind numbers.
ghost use Rattle.std.specs.Prelude.{◌≡◌, ℕ, ◌<◌};
ghost use Rattle.terms.specs.Kinds.{declared_kind};

pub trait Signature {
    ghost kind: { Self → ℕ → ℕ → ℕ };

    fn kind_of(&self, form: u8, value: u32) -> u16
        ensures { result ≡ kind self.now form value };
}

// A constant's kind is its form.
#[derive(Clone, Copy, Debug, Default, PartialEq, Eq)]
pub struct ByForm;

impl Signature for ByForm {
    ghost kind = { λ _ f v. f };

    fn kind_of(&self, form: u8, _value: u32) -> u16 {
        form as u16
    }
}

// Each symbol has a group: byte i of the groups is that of symbol i, and past their end it is 0. An atom's kind is 16 plus its group, so atoms of two
// groups have two kinds, and none is the kind of another form.
#[derive(Clone, Copy, Debug)]
pub struct Declared<'a> {
    pub groups: &'a [u8],
}

impl Signature for Declared<'_> {
    ghost kind = { λ s f v. declared_kind s.groups.now f v };

    fn kind_of(&self, form: u8, value: u32) -> u16 {
        if form != 2 {
            return form as u16;
        }
        let group = self.groups.get(value as usize).copied().unwrap_or(0);
        16 + group as u16
    }
}
