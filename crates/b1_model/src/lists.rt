ghost use Rattle.std.specs.Prelude.{◌≡◌, ◌==◌, ◌<◌, [], Some, length, set, slice_get, IfOk};
ghost use Rattle.std.specs.Option.{option_copied};

use std::alloc::{AllocError, Global};
use std::marker::Model;

/// A list of values. Contracts see it as a list, whatever room it has.
#[derive(Debug, Drop)]
pub struct Items<T> {
    items: Vec<T>,
}

impl<T> Model for Items<T> {
    ghost use Rattle.std.specs.Prelude.{List};

    ghost Value = { List T };

    ghost view = { λ l. l.items.items };
}

impl<T> Items<T> {
    /// No values. Takes no memory.
    pub fn new(alloc: Global) -> Self
        ensures { result ≡ [] }
    {
        Items {
            items: Vec::new(alloc),
        }
    }

    /// The values of a vector, in their order. Takes no memory.
    pub fn from_vec(items: Vec<T>) -> Self
        ensures { result ≡ items.items }
    {
        Items { items }
    }

    /// The values as a vector, with the room that they were made with. Takes no memory.
    pub fn into_vec(self) -> Vec<T>
        ensures { result.items ≡ self }
    {
        self.items
    }

    /// The values, to be read.
    pub fn as_slice(&self) -> &[T]
        ensures { result.now ≡ self.now }
    {
        self.items.as_slice()
    }

    /// How many values there are.
    pub fn len(&self) -> usize
        ensures { result ≡ length self.now }
    {
        self.items.len()
    }

    /// Whether there is no value.
    pub fn is_empty(&self) -> bool
        ensures { result ≡ (length self.now == 0) }
    {
        self.items.is_empty()
    }

    /// The value at an index, counted from 0; `None` past the end.
    pub fn get(&self, index: usize) -> Option<&T>
        ensures { option_copied result ≡ slice_get self.now index }
    {
        self.items.get(index)
    }

    /// Puts a value at an index in place of the one there, and answers that one. Takes no memory.
    pub fn replace(&mut self, index: usize, value: T) -> T
        requires { index < length self.old }
        ensures out { Some result ≡ slice_get self.old index }
        ensures list { self.new ≡ set self.old index value }
    {
        std::mem::replace(&mut self.items[index], value)
    }
}

impl<T: Copy> Items<T> {
    /// A copy of the values of a slice. An error is want of memory.
    pub fn from_slice(alloc: Global, items: &[T]) -> Result<Self, AllocError>
        ensures { IfOk result (λ list. list ≡ items.now) }
    {
        Ok(Items {
            items: Vec::from_slice(alloc, items)?,
        })
    }
}

/// Numbers of handles, or of slices.
pub type Nums = Items<u64>;

/// Numbers of peers.
pub type Nums32 = Items<u32>;

/// The bytes of a payload.
pub type Bytes = Items<u8>;
