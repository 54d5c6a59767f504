//! Lists and texts that contracts see as plain lists.

ghost use Rattle.std.specs.Prelude.{◌≡◌, [], ◌∷◌, ◌++◌, ◌<◌, ◌↔◌, length, slice_set, IfOk, IsTrue, OnErr, OnOk, string_bytes};

use std::alloc::{AllocError, Global};
use std::marker::Model;

/// A `Vec` that contracts see as the list of its items.
#[derive(Debug, Drop)]
pub struct Listed<T> {
    items: Vec<T>,
}

impl<T> Model for Listed<T> {
    ghost use Rattle.std.specs.Prelude.{List};
    ghost use Rattle.std.specs.Coded.{coded_list};

    ghost Value = { List T };

    ghost coded = { coded_list T.code };

    ghost view = { λ listed. listed.items.items };
}

impl<T> Listed<T> {
    pub fn new(alloc: Global) -> Self
        ensures { result ≡ [] }
    {
        Listed {
            items: Vec::new(alloc),
        }
    }

    pub fn from_vec(items: Vec<T>) -> Self
        ensures { result ≡ items.items }
    {
        Listed { items }
    }

    pub fn into_vec(self) -> Vec<T>
        ensures { result.items ≡ self }
    {
        let Listed { items } = self;
        items
    }

    pub fn as_slice(&self) -> &[T]
        ensures { result.now ≡ self.now }
    {
        self.items.as_slice()
    }

    pub fn len(&self) -> usize
        ensures { result ≡ length self.now }
    {
        self.items.len()
    }

    pub fn is_empty(&self) -> bool
        ensures { IsTrue result ↔ (self.now ≡ []) }
    {
        self.items.is_empty()
    }

    /// What the list takes its memory from.
    pub fn alloc(&self) -> Global {
        *self.items.allocator()
    }
}

impl<T: Copy> Listed<T> {
    pub fn from_slice(alloc: Global, items: &[T]) -> Result<Self, AllocError>
        ensures { IfOk result (λ listed. listed ≡ items.now) }
    {
        let items = Vec::from_slice(alloc, items)?;
        Ok(Listed { items })
    }

    /// Appends the items. A list whose growth is refused stays as it was.
    pub fn extend_from_slice(&mut self, items: &[T]) -> Result<(), AllocError>
        ensures ok { OnOk result (self.new ≡ self.old ++ items.now) }
        ensures err { OnErr result (self.new ≡ self.old) }
    {
        self.items.extend_from_slice(items)?;
        Ok(())
    }
}

impl<T: Drop> Listed<T> {
    /// Appends the item. A list whose growth is refused stays as it was.
    pub fn push(&mut self, item: T) -> Result<(), AllocError>
        ensures ok { OnOk result (self.new ≡ self.old ++ item ∷ []) }
        ensures err { OnErr result (self.new ≡ self.old) }
    {
        self.items.push(item)?;
        Ok(())
    }

    pub fn replace(&mut self, at: usize, item: T)
        requires { at < length self.old }
        ensures { self.new ≡ slice_set self.old at item }
    {
        self.items[at] = item;
    }
}

/// A `String` that contracts see as its bytes.
#[derive(Debug, Drop)]
pub struct Text {
    text: String,
}

impl Model for Text {
    ghost use Rattle.std.specs.Prelude.{List, ℕ, string_bytes};
    ghost use Rattle.std.specs.Coded.{coded_list, coded_ℕ};

    ghost Value = { List ℕ };

    ghost coded = { coded_list coded_ℕ };

    ghost view = { λ text. string_bytes text.text };
}

impl Text {
    pub fn from_string(text: String) -> Self
        ensures { result ≡ string_bytes text }
    {
        Text { text }
    }

    pub fn from_str(alloc: Global, text: &str) -> Result<Self, AllocError>
        ensures { IfOk result (λ made. made ≡ text.now) }
    {
        let text = String::from_str(alloc, text)?;
        Ok(Text { text })
    }

    pub fn as_str(&self) -> &str
        ensures { result.now ≡ self.now }
    {
        self.text.as_str()
    }
}
