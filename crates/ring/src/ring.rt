//! A first-in first-out queue in a slice of slots that its owner lends: a circular buffer.
//!
//! The oldest entry stands in slot `head`, and the other `len - 1` in the slots after it, oldest first, where slot 0
//! follows the last slot. What the other slots hold has no meaning.
//!
//! Any values of the three fields are a queue: a `head` past the last slot stands for slot 0, and a `len` past the
//! number of slots stands for that number. So no method has a precondition, and a queue never has more entries than
//! slots.
ghost use Rattle.std.specs.Prelude.{◌≡◌, ℕ, ◌+◌, ◌-◌, ◌<◌, ◌≤◌, min, [], ◌∷◌, ◌++◌, length, Some, None, Ok, Err, nat_le, slice_index_or, slice_set};
ghost use Rattle.ring.specs.Circular.{stored, first_slot, slot_after, first};
ghost use Rattle.ring.specs.Entries.{entries, slot_count};

use std::error::Error;
use std::fmt;

/// Why an entry is not taken: every slot holds one.
#[derive(Clone, Copy, Debug, PartialEq, Eq)]
pub struct Full;

impl fmt::Display for Full {
    fn fmt<W: fmt::Write>(&self, f: &mut fmt::Formatter<W>) -> fmt::Result {
        f.write_str("the queue is full")
    }
}

impl Error for Full {}

// No heap: the owner lends the slots, and the queue counts what it holds. No Model: behind one, the owner would not know its slots again
// once the queue is gone.
/// A first-in first-out queue of at most as many entries as the owner lends slots.
#[derive(Drop)]
pub struct Ring<'a, T> {
    slots: &'a mut [T],
    head: usize,
    len: usize,
}

impl<'a, T: Copy> Ring<'a, T> {
    /// Makes an empty queue in `slots`.
    ///
    /// The slots stay as they are. Without a slot the queue is always full.
    pub fn new(slots: &'a mut [T]) -> Self
        ensures empty { entries result ≡ [] }
        ensures kept { result.slots ≡ slots.entry }
    {
        Ring {
            slots,
            head: 0,
            len: 0,
        }
    }

    /// Returns the number of entries.
    ///
    /// It is at most the number of slots.
    pub fn len(&self) -> usize
        ensures count { result ≡ length (entries self.now) }
        ensures within { result ≤ slot_count self.now }
    {
        self.span().1
    }

    /// Returns `true` if there is no entry.
    pub fn is_empty(&self) -> bool
        ensures { result ≡ nat_le (length (entries self.now)) 0 }
    {
        self.len() == 0
    }

    /// Returns `true` if every slot holds an entry.
    ///
    /// A queue without slots is full.
    pub fn is_full(&self) -> bool
        ensures { result ≡ nat_le (slot_count self.now) (length (entries self.now)) }
    {
        self.slots.len() <= self.len()
    }

    /// Returns the oldest entry, which stays in the queue.
    ///
    /// Returns `None` if the queue is empty.
    pub fn front(&self) -> Option<T>
        ensures { result ≡ first (entries self.now) }
    {
        let slots: &[T] = &*self.slots;
        let (head, len) = self.span();
        // An `if` here and in `get`: only under its test is there such a slot.
        if len > 0 { Some(slots[head]) } else { None }
    }

    /// Returns the entry that `i` others are older than, which stays in the queue.
    ///
    /// Returns `None` if there are no more than `i` entries.
    pub fn get(&self, i: usize) -> Option<T>
        ensures { elim result [ Some x ↦ (i < length (entries self.now)) × ((d : T) → x ≡ slice_index_or (entries self.now) i d) | None ↦ length (entries self.now) ≤ i ] }
    {
        let slots: &[T] = &*self.slots;
        let (head, len) = self.span();
        if i < len {
            let slot = slot_after(head, i, slots.len());
            Some(slots[slot])
        } else {
            None
        }
    }

    /// Returns the entries in two slices, oldest first: those up to the last slot, and those from slot 0 on.
    #[tactic(auto, using(crate::proofs::Circular::two_slices))]
    pub fn as_slices(&self) -> (&[T], &[T])
        ensures { result.0.now ++ result.1.now ≡ entries self.now }
    {
        let slots: &[T] = &*self.slots;
        let (head, len) = self.span();
        let (low, high) = slots.split_at(head);
        let upper = len.min(high.len());
        (&high[..upper], &low[..len - upper])
    }

    /// Adds `entry` after the newest entry.
    ///
    /// Returns `Full` if the queue is full. The queue and its slots are then as they were.
    pub fn push(&mut self, entry: T) -> Result<(), Full>
        ensures taken { elim result [ Ok _ ↦ (length (entries self.old) < slot_count self.old) × (entries self.new ≡ entries self.old ++ (entry ∷ [])) | Err _ ↦ (slot_count self.old ≤ length (entries self.old)) × (self.new ≡ self.old) ] }
        ensures kept { slot_count self.new ≡ slot_count self.old }
    {
        let slots = self.slots.len();
        let (head, len) = self.span();
        if slots <= len {
            return Err(Full);
        }
        let slot = slot_after(head, len, slots);
        self.slots[slot] = entry;
        self.head = head;
        self.len = len + 1;
        Ok(())
    }

    /// Removes the oldest entry and returns it.
    ///
    /// The slots stay as they are, and the slot of the entry is free for another.
    /// Returns `None` if the queue is empty. The queue is then as it was.
    pub fn pop(&mut self) -> Option<T>
        ensures taken { elim result [ None ↦ (entries self.old ≡ []) × (self.new ≡ self.old) | Some x ↦ entries self.old ≡ x ∷ entries self.new ] }
        ensures kept { self.new.slots ≡ self.old.slots }
    {
        let (head, len) = self.span();
        if len == 0 {
            return None;
        }
        let entry = self.slots[head];
        self.head = head + 1;
        self.len = len - 1;
        Some(entry)
    }

    /// Removes every entry.
    ///
    /// The slots stay as they are, and all of them are free.
    pub fn clear(&mut self)
        ensures empty { entries self.new ≡ [] }
        ensures kept { self.new.slots ≡ self.old.slots }
    {
        self.len = 0;
    }

    /// Returns the slot of the oldest entry, and the number of entries.
    ///
    /// For an empty queue the slot is where its next entry goes, if it has slots.
    fn span(&self) -> (usize, usize)
        ensures slot { 0 < slot_count self.now → result.0 < slot_count self.now }
        ensures count { result.1 ≡ length (entries self.now) }
        ensures within { result.1 ≤ slot_count self.now }
        ensures low { result.0 ≤ slot_count self.now }
        ensures same { stored self.now.slots.now result.0 result.1 ≡ entries self.now }
        ensures none { result.1 ≡ 0 → entries self.now ≡ [] }
        ensures each { (i : ℕ) (d : T) → i < result.1 → slice_index_or (entries self.now) i d ≡ slice_index_or self.now.slots.now (slot_after result.0 i (slot_count self.now)) d }
        ensures oldest { (d : T) → 0 < result.1 → entries self.now ≡ slice_index_or self.now.slots.now result.0 d ∷ stored self.now.slots.now (result.0 + 1) (result.1 - 1) }
        ensures next { (x : T) → result.1 < slot_count self.now → stored (slice_set self.now.slots.now (slot_after result.0 result.1 (slot_count self.now)) x) result.0 (result.1 + 1) ≡ entries self.now ++ (x ∷ []) }
    {
        let slots = self.slots.len();
        (first_slot(self.head, slots), used_slots(self.len, slots))
    }
}

/// Returns the slot that `head` stands for: slot 0, if it is past the last of `slots` slots.
fn first_slot(head: usize, slots: usize) -> usize
    ensures slot { result ≡ first_slot head slots }
    ensures within { 0 < slots → result < slots }
{
    if head < slots { head } else { 0 }
}

/// Returns how many of `slots` slots hold an entry: all of them, if `len` is past their number.
fn used_slots(len: usize, slots: usize) -> usize
    ensures { result ≡ min len slots }
{
    len.min(slots)
}

/// Returns the slot that is `offset` after the slot `head`, where slot 0 follows the last.
fn slot_after(head: usize, offset: usize, slots: usize) -> usize
    requires { (head < slots) × (offset < slots) }
    ensures slot { result ≡ slot_after head offset slots }
    ensures within { result < slots }
{
    let above = slots - head;
    if offset < above {
        head + offset
    } else {
        offset - above
    }
}
