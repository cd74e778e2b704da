// A stack in lent memory, for any entry. It grows from the end of the slice to its front, so that what it holds, top first, is
// what stands in the slice from its top on. Nothing is asked of a caller: a full stack refuses an entry, an empty one has none.
ghost use Rattle.std.specs.Prelude.{◌≡◌, ◌+◌, ◌-◌, ◌<◌, [], ◌∷◌, ◌++◌, length, replicate, is_ok, Ok, Err, if◌then◌else◌, nat_lt};
ghost use Rattle.std.specs.Option.{option_to_list};
ghost use Rattle.plan.specs.Stacks.{content, room, at_depth};

/// Lent memory and a top, since a call has no heap. That the top is within is no invariant: its fields are public, so it would ask something of
/// whoever makes a stack.
#[derive(Drop)]
pub struct Stack<'a, T: Copy> {
    pub items: &'a mut [T],
    pub top: usize,
}

impl<'a, T: Copy> Stack<'a, T> {
    /// An empty stack with room for as many entries as the slice has.
    pub fn new(items: &'a mut [T]) -> Stack<'a, T>
        ensures loan { result.items.ghost_name ≡ items.entry.ghost_name }
        ensures items { result.items.now ≡ items.old }
        ensures content { content result ≡ [] }
        ensures room { room result ≡ length items.old }
    {
        let top = items.len();
        Stack { items, top }
    }

    /// Takes all entries off.
    pub fn clear(&mut self)
        ensures loan { self.new.items.ghost_name ≡ self.old.items.ghost_name }
        ensures content { content self.new ≡ [] }
        ensures room { room self.new ≡ length self.old.items.now }
    {
        self.top = self.items.len();
    }

    /// How many entries it holds.
    pub fn len(&self) -> usize
        ensures { result ≡ length (content self.now) }
    {
        self.items.len().saturating_sub(self.top)
    }

    /// How many entries more it can take.
    pub fn room(&self) -> usize
        ensures { result ≡ room self.now }
    {
        self.top.min(self.items.len())
    }

    /// One entry more; the entry comes back where there is no room.
    pub fn push(&mut self, entry: T) -> Result<(), T>
        ensures loan { self.new.items.ghost_name ≡ self.old.items.ghost_name }
        ensures len { length self.new.items.now ≡ length self.old.items.now }
        ensures value { result ≡ (if nat_lt 0 (room self.old) then Ok tt else Err entry) }
        ensures content { content self.new ≡ (if is_ok result then entry ∷ content self.old else content self.old) }
        ensures room { room self.new ≡ room self.old - 1 }
    {
        let top = self.room();
        if top == 0 {
            return Err(entry);
        }
        self.items[top - 1] = entry;
        self.top = top - 1;
        Ok(())
    }

    /// Takes the top entry off; none where there is none.
    pub fn pop(&mut self) -> Option<T>
        ensures loan { self.new.items.ghost_name ≡ self.old.items.ghost_name }
        ensures len { length self.new.items.now ≡ length self.old.items.now }
        ensures value { result ≡ at_depth (content self.old) 0 }
        ensures content { content self.old ≡ option_to_list result ++ content self.new }
        ensures room { room self.new ≡ room self.old + length (option_to_list result) }
    {
        if self.top >= self.items.len() {
            return None;
        }
        let entry = self.items[self.top];
        self.top += 1;
        Some(entry)
    }

    /// The entry so many below the top; none where there are not so many.
    pub fn peek(&self, depth: usize) -> Option<T>
        ensures { result ≡ at_depth (content self.now) depth }
    {
        self.items.get(self.top..)?.get(depth).copied()
    }
}

/// Makes every entry of lent memory blank. Of the library's `fill` the same is known where the entries' `Clone` says that it copies; `Copy`
/// alone does not say so.
pub fn wipe<T: Copy>(items: &mut [T], blank: T)
    ensures { items.new ≡ replicate (length items.old) blank }
{
    for item in items.iter_mut() {
        *item = blank;
    }
}
