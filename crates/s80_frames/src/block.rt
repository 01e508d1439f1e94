// One block of raw memory that holds items from its beginning on. Nothing here takes memory but `allocate`.
ghost use Rattle.std.specs.Prelude.{◌≡◌, ℕ, ◌-◌, ◌<◌, ◌≤◌, List, [], ◌∷◌, ◌++◌, length, take, drop, IfOk, IsTrue};
ghost use Rattle.std.specs.Borrow.{sem};
ghost use Rattle.std.specs.Vec.Ownership.{FitsInBlock};
ghost use prog.Memory.{size, capped};
ghost use denote.Param.{layout};
ghost use Rattle.s80_frames.specs.Blocks.{block_owns};

use std::alloc::{AllocError, Allocator};
use std::marker::{Model, PhantomData};
use std::mem::{align_of, size_of};
use std::slice;

/// A block of an allocator with room for so many items, of which the first ones are written. With room for none it has no
/// memory. Whoever holds it counts its items and its room.
pub(crate) struct Block<T, A: Allocator> {
    ptr: *mut T,
    by: PhantomData<A>,
    pub(crate) ghost heap: { A },
    pub(crate) ghost room: { ℕ },
    pub(crate) ghost items: { List T },
}

impl<T, A: Allocator> Model for Block<T, A> {
    ghost also_owns = { λ b. block_owns (A.dealloc_token b.heap) T.row b.ptr b.room b.items };
}

// The size of an item, as a plain number.
fn item_size<T>() -> usize
    ensures { result ≡ capped (size (layout T.row)) }
{
    size_of::<T>()
}

/// Whether a block may have room for so many items.
pub(crate) fn fits<T>(room: usize) -> bool
    ensures { IsTrue result → FitsInBlock T.row room }
{
    let most = isize::MAX as usize;
    match room.checked_mul(item_size::<T>()) {
        Some(bytes) => bytes <= most && room <= most,
        None => false,
    }
}

impl<T, A: Allocator> Block<T, A> {
    ghost use Rattle.s80_frames.specs.BlockLending.{LendsRun};

    /// A block with room for no item. Contracts remember the allocator.
    pub(crate) fn none(_alloc: &A) -> Self
        ensures { (result.heap ≡ _alloc.now) × (result.room ≡ 0) × (result.items ≡ []) }
    {
        let nothing: [T; 0] = [];
        Block {
            ptr: &raw const nothing as *mut T,
            by: PhantomData,
        }
    }

    pub(crate) fn allocate(alloc: &A, room: usize) -> Result<Self, AllocError>
        requires { FitsInBlock T.row room × (0 < room) }
        ensures { IfOk result (λ b. (b.heap ≡ alloc.now) × (b.room ≡ room) × (b.items ≡ [])) }
    {
        match alloc.allocate(room * size_of::<T>(), align_of::<T>()) {
            Ok(at) => Ok(Block {
                ptr: at as *mut T,
                by: PhantomData,
            }),
            Err(refused) => Err(refused),
        }
    }

    /// Writes an item behind the others.
    pub(crate) fn put(&mut self, count: usize, item: T)
        requires { (count ≡ length self.old.items) × (count < self.old.room) }
        ensures { (self.new.items ≡ self.old.items ++ item ∷ []) × (self.new.room ≡ self.old.room) × (self.new.heap ≡ self.old.heap) }
    {
        unsafe { self.ptr.add(count).write(item) }
    }

    /// Lends the items from one place to another.
    pub(crate) fn run_mut(&mut self, start: usize, end: usize) -> &mut [T]
        requires { (start ≤ end) × (end ≤ length self.old.items) × (length self.old.items ≤ self.old.room) }
        ensures* writes_back { sem 𝓛 (LendsRun T.row A.row A.Allocator self.entry start result) }
        ensures value { result.now ≡ take (end - start) (drop start self.old.items) }
    {
        unsafe { slice::from_raw_parts_mut(self.ptr.add(start), end - start) }
    }

    /// Gives the memory back, where there is some.
    pub(crate) fn free(self, alloc: &A, room: usize)
        requires { (self.room ≡ room) × (length self.items ≤ room) × (self.heap ≡ alloc.now) }
    {
        let Block { ptr, by: _ } = self;
        if room != 0 {
            unsafe {
                alloc.deallocate(ptr as *mut u8, room * size_of::<T>(), align_of::<T>());
            }
        }
    }
}
