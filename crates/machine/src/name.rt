ghost use Rattle.std.specs.Prelude.{◌≡◌, ◌≤◌, length};
ghost use Rattle.machine.specs.Limits.{longest_name};

/// The longest name that a query may ask for.
pub const LONGEST_NAME: usize = 24;

/// A name that queries ask for.
#[derive(Clone, Copy)]
pub struct Name {
    bytes: [u8; LONGEST_NAME],
    len: usize,
    ghost size: { length bytes ≡ longest_name },
    ghost within: { len ≤ longest_name },
}

impl Name {
    ghost use Rattle.std.specs.Prelude.{[]};
    ghost use Rattle.std.specs.Str.{bytes_eq};
    ghost use Rattle.machine.specs.Views.{bytes_of};

    pub(crate) fn none() -> Name
        ensures { bytes_of result ≡ [] }
    {
        Name {
            bytes: [0; LONGEST_NAME],
            len: 0,
        }
    }

    pub(crate) fn new(name: &[u8]) -> Name
        requires { length name.now ≤ longest_name }
        ensures { bytes_of result ≡ name.now }
    {
        let mut bytes = [0; LONGEST_NAME];
        bytes[..name.len()].copy_from_slice(name);
        Name {
            bytes,
            len: name.len(),
        }
    }

    /// The bytes that are in use.
    fn as_slice(&self) -> &[u8]
        ensures { result.now ≡ bytes_of self.now }
    {
        &self.bytes[..self.len]
    }

    /// Whether this is that name, byte for byte.
    pub(crate) fn is(&self, name: &[u8]) -> bool
        ensures { result ≡ bytes_eq (bytes_of self.now) name.now }
    {
        self.as_slice() == name
    }
}
