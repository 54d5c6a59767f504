//! A text that is written from its end to its beginning.

ghost use Rattle.std.specs.Prelude.{◌≡◌, [], ◌∷◌, ◌++◌, OnOk};
ghost use Rattle.std.specs.Fmt.{signed_decimal};
ghost use Rattle.res_printer.specs.Pieces.{dotted, ends_line, qualified, says};

use itoa::Buffer;
use math_terms::{Name, NoMemory};
use std::alloc::Global;
use std::marker::Model;

/// A text that grows at its beginning.
#[derive(Drop)]
pub(crate) struct Text {
    reversed: Vec<u8>,
}

impl Model for Text {
    ghost use Rattle.std.specs.Prelude.{List, ℕ, reverse};

    ghost Value = { List ℕ };

    ghost view = { λ t. reverse t.reversed.items };
}

impl Text {
    /// The empty text.
    pub fn new(alloc: Global) -> Text
        ensures { result ≡ [] }
    {
        Text {
            reversed: Vec::new(alloc),
        }
    }

    fn push(&mut self, byte: u8) -> Result<(), NoMemory>
        ensures { OnOk result (self.new ≡ byte ∷ self.old) }
    {
        match self.reversed.push(byte) {
            Ok(()) => Ok(()),
            Err(_) => Err(NoMemory),
        }
    }

    /// Writes a token, with nothing behind it.
    pub fn put(&mut self, token: &[u8]) -> Result<(), NoMemory>
        ensures { OnOk result (self.new ≡ token.now ++ self.old) }
    {
        for byte in token.iter().rev() {
            self.push(*byte)?;
        }
        Ok(())
    }

    /// Writes a token, with a space behind it.
    pub fn says(&mut self, token: &[u8]) -> Result<(), NoMemory>
        ensures { OnOk result (self.new ≡ says token.now self.old) }
    {
        self.push(b' ')?;
        self.put(token)
    }

    /// Writes the last token of a line.
    pub fn ends_line(&mut self, token: &[u8]) -> Result<(), NoMemory>
        ensures { OnOk result (self.new ≡ ends_line token.now self.old) }
    {
        self.push(b'\n')?;
        self.put(token)
    }

    /// Writes a number, with a space behind it.
    pub fn says_number(&mut self, n: i64) -> Result<(), NoMemory>
        ensures { OnOk result (self.new ≡ says (signed_decimal n) self.old) }
    {
        let mut buffer = Buffer::new();
        self.says(buffer.format(n).as_bytes())
    }

    /// Writes two names with a dot between them.
    pub fn says_dotted(&mut self, name: &Name, part: &Name) -> Result<(), NoMemory>
        ensures { OnOk result (self.new ≡ dotted name.now part.now self.old) }
    {
        self.says(part.bytes())?;
        self.says(b".")?;
        self.says(name.bytes())
    }

    /// Writes a name, behind that of a facility if there is one.
    pub fn says_qualified(&mut self, facility: &Option<Name>, name: &Name) -> Result<(), NoMemory>
        ensures { OnOk result (self.new ≡ qualified facility.now name.now self.old) }
    {
        match facility {
            Some(facility) => self.says_dotted(facility, name),
            None => self.says(name.bytes()),
        }
    }

    /// The bytes of the text.
    pub fn bytes(self) -> Vec<u8>
        ensures { result.items ≡ self }
    {
        let mut bytes = self.reversed;
        bytes.reverse();
        bytes
    }
}
