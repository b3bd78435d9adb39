//! Who comes to the pond.

/// An animal.
#[derive(Clone, Copy, Debug, PartialEq, Eq)]
pub enum Animal {
    Frog,
    Newt,
    Duck,
}

impl Animal {
    /// Its name.
    pub fn name(self) -> &'static str {
        match self {
            Animal::Frog => "frog",
            Animal::Newt => "newt",
            Animal::Duck => "duck",
        }
    }
}
