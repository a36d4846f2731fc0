// A stack over a slice that the caller lends: it allocates nothing, and refuses an element that it has no place for.
#![tactic(auto)]

ghost use Rattle.std.specs.Prelude.{◌≡◌, ◌-◌, ◌<◌, ◌≤◌, ◌↔◌, [], ◌∷◌, reverse, length, drop, slice_get, slice_set, IsOk, IsTrue, OnOk, OnErr, ◌==◌};
ghost use Rattle.std.specs.Bool.{OnTrue, OnFalse};

// The first `count` of `items` are the elements, in the order in which they were pushed. The other places are free. A slice and a count, since a `Vec` would
// need a heap, and by a rule of the project there is none.
#[derive(Drop)]
pub struct Stack<'a, T> {
    items: &'a mut [T],
    count: usize,
}

// Every place is taken.
#[derive(Clone, Copy, Debug, PartialEq, Eq, Drop)]
pub struct Full;

impl<'a, T: Copy> Stack<'a, T> {
    ghost use Rattle.stack.specs.Contents.{SamePlaces, contents, lender, lent, room};

    // An empty stack with a place for each element of `items`.
    pub fn new(items: &'a mut [T]) -> Stack<'a, T>
        ensures contents { contents result ≡ [] }
        ensures lent { lent result ≡ items.old }
        ensures room { room result ≡ length items.old }
        ensures lender { lender result ≡ items.entry.ghost_name }
    {
        Stack { items, count: 0 }
    }

    // How many elements there are. No fact ties `count` to the slice, so the smaller of the two numbers counts.
    pub fn len(&self) -> usize
        ensures value { result ≡ length (contents self.now) }
        ensures bound { result ≤ room self.now }
    {
        self.count.min(self.items.len())
    }

    pub fn is_empty(&self) -> bool
        ensures { result ≡ (length (contents self.now) == 0) }
    {
        self.len() == 0
    }

    // How many places were lent.
    pub fn room(&self) -> usize
        ensures { result ≡ room self.now }
    {
        self.items.len()
    }

    // The elements in the order in which they were pushed.
    fn pushed(&self) -> &[T]
        ensures { result.now ≡ reverse (contents self.now) }
    {
        &self.items[..self.len()]
    }

    // The last element pushed.
    pub fn last(&self) -> Option<T>
        ensures { result ≡ slice_get (contents self.now) 0 }
    {
        self.pushed().last().copied()
    }

    // Element `i`, counted from the first pushed, which is 0.
    pub fn get(&self, i: usize) -> Option<T>
        ensures { result ≡ slice_get (reverse (contents self.now)) i }
    {
        self.pushed().get(i).copied()
    }

    // Adds `x`, or refuses it and changes nothing where every place is taken.
    pub fn push(&mut self, x: T) -> Result<(), Full>
        ensures test { IsOk result ↔ (length (contents self.old) < room self.old) }
        ensures contents { OnOk result (contents self.new ≡ x ∷ contents self.old) }
        ensures lent { OnOk result (lent self.new ≡ slice_set (lent self.old) (length (contents self.old)) x) }
        ensures refused { OnErr result (self.new ≡ self.old) }
        ensures places { SamePlaces self.old self.new }
    {
        if self.count >= self.items.len() {
            return Err(Full);
        }
        // By index, since std does not say what a slice holds after its `get_mut`.
        self.items[self.count] = x;
        self.count += 1;
        Ok(())
    }

    // Removes the last element pushed, and returns it.
    pub fn pop(&mut self) -> Option<T>
        ensures value { result ≡ slice_get (contents self.old) 0 }
        ensures contents { contents self.new ≡ drop 1 (contents self.old) }
        ensures lent { lent self.new ≡ lent self.old }
        ensures places { SamePlaces self.old self.new }
    {
        let last = self.last()?;
        self.count = self.len() - 1;
        Some(last)
    }

    // Puts `x` in the place of the last element pushed. Where there is none, changes nothing and returns false, a bool, since neither case has a value to give.
    pub fn set_last(&mut self, x: T) -> bool
        ensures test { IsTrue result ↔ (0 < length (contents self.old)) }
        ensures contents { contents self.new ≡ slice_set (contents self.old) 0 x }
        ensures lent { OnTrue result (lent self.new ≡ slice_set (lent self.old) (length (contents self.old) - 1) x) }
        ensures refused { OnFalse result (self.new ≡ self.old) }
        ensures places { SamePlaces self.old self.new }
    {
        let n = self.len();
        if n == 0 {
            return false;
        }
        // By index, since after the `last_mut` of a part of a slice only the length of that part is known.
        self.items[n - 1] = x;
        true
    }
}

#[cfg(test)]
mod tests;
