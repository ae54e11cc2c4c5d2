//! A list whose memory is taken when it is made.
ghost use Rattle.std.specs.Prelude.{◌≡◌, ◌↔◌, ℕ, ◌+◌, ◌<◌, [], ◌∷◌, ◌++◌, ◌-◌, length, IsTrue, IfOk, slice_index_or, vec_len, vec_capacity};
ghost use Rattle.std.specs.Borrow.{sem};

use std::alloc::{AllocError, Global};
use std::marker::Model;

/// A list whose memory is taken when it is made: `push` takes none, and a contract sees the items and the room left.
#[derive(Drop)]
pub struct List<T> {
    items: Vec<T>,
}

impl<T> Model for List<T> {
    ghost use Rattle.std.specs.Prelude.{◌-◌, vec_len, vec_capacity};
    ghost use Rattle.clk_num.specs.Listed.{Listed, listed_code};

    ghost Value = { Listed T };

    ghost coded = { listed_code T.code };

    ghost view = { λ l. record { items = l.items.items; room = vec_capacity l.items - vec_len l.items } };
}

impl<T> List<T> {
    ghost use Rattle.clk_num.specs.Lent.{lends_items};

    /// An empty list with room for `n` items. The error is want of memory.
    pub fn with_room(alloc: Global, n: usize) -> Result<List<T>, AllocError>
        ensures items { IfOk result (λ l. l.items ≡ []) }
        ensures room { IfOk result (λ l. l.room ≡ n) }
    {
        Ok(List {
            items: Vec::with_capacity(alloc, n)?,
        })
    }

    /// The items of a `Vec`, with the room that it has. It takes no memory.
    pub fn from_vec(items: Vec<T>) -> List<T>
        ensures items { result.items ≡ items.items }
        ensures room { result.room ≡ vec_capacity items - vec_len items }
    {
        List { items }
    }

    /// The items as a `Vec`. It takes no memory.
    pub fn into_vec(self) -> Vec<T>
        ensures { result.items ≡ self.items }
    {
        self.items
    }

    /// Appends an item. There must be room for it.
    pub fn push(&mut self, item: T)
        requires { 0 < self.old.room }
        ensures items { self.new.items ≡ self.old.items ++ item ∷ [] }
        ensures room { self.new.room + 1 ≡ self.old.room }
    {
        self.items.push_reserved(item)
    }

    /// Takes the last item out, and its place becomes room. There must be one.
    pub fn pop(&mut self) -> T
        requires { 0 < length self.old.items }
        ensures items { self.new.items ++ result ∷ [] ≡ self.old.items }
        ensures room { self.new.room ≡ self.old.room + 1 }
    {
        self.items.pop().unwrap()
    }

    /// How many more items there is room for.
    pub fn room(&self) -> usize
        ensures { result ≡ self.now.room }
    {
        self.items.capacity() - self.items.len()
    }

    /// How many items the list has.
    pub fn len(&self) -> usize
        ensures { result ≡ length self.now.items }
    {
        self.items.len()
    }

    /// Whether the list has no items.
    pub fn is_empty(&self) -> bool
        ensures { IsTrue result ↔ (self.now.items ≡ []) }
    {
        self.items.is_empty()
    }

    /// The item at `i`, counted from 0. There must be one.
    pub fn get(&self, i: usize) -> &T
        requires { i < length self.now.items }
        ensures { result.now ≡ slice_index_or self.now.items i result.now }
    {
        &self.items[i]
    }

    /// The items, in order.
    pub fn items(&self) -> &[T]
        ensures { result.now ≡ self.now.items }
    {
        self.items.as_slice()
    }

    /// The items, in order, to write. What is there once they are given back is the list, and the room stays.
    pub fn items_mut(&mut self) -> &mut [T]
        ensures* writes_back { sem 𝓛 (lends_items T.row self.entry result) }
        ensures value { result.now ≡ self.old.items }
    {
        self.items.as_mut_slice()
    }
}
