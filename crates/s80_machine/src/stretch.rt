// Stretches of instructions that need nothing but the active context, its variables and ticks.
ghost use Rattle.std.specs.Prelude.{◌≡◌, ◌+◌, ◌<◌, ◌∷◌, ◌+ℤ◌, ℕ, pos, IfSome, MatchBool, Some, if◌then◌else◌, length, slice_get, slice_set};
ghost use Rattle.s80_code.specs.declared.code.Code.{Code};
ghost use Rattle.s80_code.specs.declared.instruction.Instruction.TheVariants.{Duplicate, Jump, JumpOnFalse, JumpOnTrue, Pop, PopInto, Push, PushFixed, SendSpecial, Store};
ghost use Rattle.s80_code.specs.declared.instruction.Storage.TheVariants.{Temporary};
ghost use Rattle.s80_machine.specs.Counted.{block_in};
ghost use Rattle.s80_machine.specs.World.{World, field_read, field_set, temporary, with_objects, with_temporary};
ghost use Rattle.s80_machine.specs.Turn.{State, place_at};
ghost use Rattle.s80_machine.specs.Shared.{fixed};
ghost use Rattle.s80_machine.specs.Seen.{Given, activation_of, listing};
ghost use Rattle.s80_machine.specs.Came.{Shows};
ghost use Rattle.s80_machine.specs.Quick.{IsQuick};
ghost use Rattle.s80_machine.specs.Stretch.{LeadsFar, Reaches, Tries, local, stored_in};

use crate::context::{Activation, Context, push_on};
use crate::machine::Machine;
use crate::quick::{AT, AT_PUT, Quick, item_of, put_item};
use crate::sends::{integers_at_once, one_at_once};
use crate::steps::as_bool;
use s80_code::{BLOCK_COPY, Instruction, Storage, special_arguments};
use s80_object::{Objects, Value};

impl<'a> Machine<'a> {
    /// Takes the instructions of the active context that need nothing else, up to one that does. What they can't do is left to `step`.
    pub(crate) fn go_on(&mut self, quick: &Quick)
        ensures { (on : Given) (s : State) → IsQuick on quick.now → Shows on self.old s → (t : State) × ((n : ℕ) × Reaches on n s t) × Shows on self.new t }
    {
        let Some(active) = self.contexts.active() else {
            return;
        };
        let Some(listing) = self.methods.listing(active.method) else {
            return;
        };
        self.contexts
            .go_on(quick, listing, &mut self.objects, &mut self.ticks);
    }
}

impl Context {
    /// Takes the instructions of its code, which these entries list, from its place on, up to one that needs more.
    pub(crate) fn go_on(
        &mut self,
        quick: &Quick,
        entries: &[Option<(Instruction, u32)>],
        objects: &mut Objects,
        ticks: &mut u64,
    )
        ensures stays { block_in self.new.activation ≡ block_in self.old.activation }
        ensures goes { (on : Given) (code : Code) → IsQuick on quick.now → entries.now ≡ listing code.bytes
            → (n : ℕ) × LeadsFar on code n (local self.old objects.old ticks.old) (local self.new objects.new ticks.new) }
    {
        for _ in 0..entries.len() {
            let Some(Some((instruction, width))) = entries.get(self.place as usize) else {
                return;
            };
            let Some(next) = self.place.checked_add(*width) else {
                return;
            };
            if !self.advance(quick, *instruction, next, objects, ticks) {
                return;
            }
        }
    }

    // Takes an instruction behind which this place stands, or changes nothing.
    #[inline(always)]
    fn advance(
        &mut self,
        quick: &Quick,
        instruction: Instruction,
        next: u32,
        objects: &mut Objects,
        ticks: &mut u64,
    ) -> bool
        ensures stays { block_in self.new.activation ≡ block_in self.old.activation }
        ensures tries { (on : Given) (code : Code) → IsQuick on quick.now
            → Tries on code instruction next (local self.old objects.old ticks.old) (local self.new objects.new ticks.new) result }
    {
        match instruction {
            Instruction::Push(storage) => self.push_stored(objects, storage, next),
            Instruction::Store(Storage::Temporary(i)) => self.store_top(objects, i, next),
            Instruction::PopInto(Storage::Temporary(i)) => self.pop_into(objects, i, next),
            Instruction::PushFixed(number) => self.push_fixed(number, next),
            Instruction::SendSpecial(number) => {
                self.answer_special(quick, objects, ticks, number, next)
            }
            Instruction::Pop => self.drop_top(next),
            Instruction::Duplicate => self.push_again(next),
            Instruction::Jump(distance) => self.jump_or_back(next, distance, ticks, quick.budget),
            Instruction::JumpOnTrue(distance) => self.jump_on(true, next, distance),
            Instruction::JumpOnFalse(distance) => self.jump_on(false, next, distance),
            _ => false,
        }
    }

    // ---- pushes

    #[inline(always)]
    fn push_and_go(&mut self, value: Value, next: u32) -> bool
        ensures stays { block_in self.new.activation ≡ block_in self.old.activation }
        ensures goes { MatchBool result (self.new ≡ record self.old { place = next; stack = value ∷ self.old.stack }) (self.new ≡ self.old) }
    {
        if !push_on(&mut self.stack, value) {
            return false;
        }
        self.place = next;
        true
    }

    #[inline(always)]
    fn push_stored(&mut self, objects: &Objects, storage: Storage, next: u32) -> bool
        ensures stays { block_in self.new.activation ≡ block_in self.old.activation }
        ensures tries { (on : Given) (code : Code) (ticks : ℕ) → Tries on code (Push storage) next (local self.old objects.now ticks) (local self.new objects.now ticks) result }
    {
        let Some(value) = self.stored(objects, storage) else {
            return false;
        };
        self.push_and_go(value, next)
    }

    // A variable of its receiver, where that is an object, or a temporary.
    #[inline(always)]
    fn stored(&self, objects: &Objects, storage: Storage) -> Option<Value>
        ensures { IfSome result (λ v. (w : World) → w.objects ≡ objects.now → stored_in w self.now storage ≡ Some v) }
    {
        match storage {
            Storage::Receiver(i) => match self.receiver {
                Value::Object(n) => field(objects, n, i),
                _ => None,
            },
            Storage::Temporary(i) => self.temporary(objects, i),
            _ => None,
        }
    }

    /// A temporary.
    #[inline(always)]
    pub(crate) fn temporary(&self, objects: &Objects, i: u8) -> Option<Value>
        ensures { (w : World) → w.objects ≡ objects.now → result ≡ temporary w self.now.activation i }
    {
        match &self.activation {
            Activation::Own(temporaries) => temporaries.get(usize::from(i)).copied(),
            Activation::Home(home) => field(objects, *home, i),
            Activation::Block { home, .. } => field(objects, *home, i),
        }
    }

    #[inline(always)]
    fn push_fixed(&mut self, number: u8, next: u32) -> bool
        ensures stays { block_in self.new.activation ≡ block_in self.old.activation }
        ensures tries { (on : Given) (code : Code) (objects : _) (ticks : ℕ) → Tries on code (PushFixed number) next (local self.old objects ticks) (local self.new objects ticks) result }
    {
        let Some(value) = self.fixed(number) else {
            return false;
        };
        self.push_and_go(value, next)
    }

    /// Its receiver, true, false, nil, -1, 0, 1 or 2.
    #[inline(always)]
    pub(crate) fn fixed(&self, number: u8) -> Option<Value>
        ensures { result ≡ slice_get (fixed self.now.receiver) number }
    {
        match number {
            0 => Some(self.receiver),
            1 => Some(Value::True),
            2 => Some(Value::False),
            3 => Some(Value::Nil),
            4 => Some(Value::Small(-1)),
            5 => Some(Value::Small(0)),
            6 => Some(Value::Small(1)),
            7 => Some(Value::Small(2)),
            _ => None,
        }
    }

    #[inline(always)]
    fn push_again(&mut self, next: u32) -> bool
        ensures stays { block_in self.new.activation ≡ block_in self.old.activation }
        ensures tries { (on : Given) (code : Code) (objects : _) (ticks : ℕ) → Tries on code Duplicate next (local self.old objects ticks) (local self.new objects ticks) result }
    {
        let Some(value) = self.stack.last().copied() else {
            return false;
        };
        self.push_and_go(value, next)
    }

    // ---- the top

    #[inline(always)]
    fn drop_top(&mut self, next: u32) -> bool
        ensures stays { block_in self.new.activation ≡ block_in self.old.activation }
        ensures tries { (on : Given) (code : Code) (objects : _) (ticks : ℕ) → Tries on code Pop next (local self.old objects ticks) (local self.new objects ticks) result }
    {
        if self.stack.pop().is_none() {
            return false;
        }
        self.place = next;
        true
    }

    #[inline(always)]
    fn store_top(&mut self, objects: &mut Objects, i: u8, next: u32) -> bool
        ensures stays { block_in self.new.activation ≡ block_in self.old.activation }
        ensures tries { (on : Given) (code : Code) (ticks : ℕ) → Tries on code (Store (Temporary i)) next (local self.old objects.old ticks) (local self.new objects.new ticks) result }
    {
        let Some(value) = self.stack.last().copied() else {
            return false;
        };
        if !self.activation.store(objects, i, value) {
            return false;
        }
        self.place = next;
        true
    }

    #[inline(always)]
    fn pop_into(&mut self, objects: &mut Objects, i: u8, next: u32) -> bool
        ensures stays { block_in self.new.activation ≡ block_in self.old.activation }
        ensures tries { (on : Given) (code : Code) (ticks : ℕ) → Tries on code (PopInto (Temporary i)) next (local self.old objects.old ticks) (local self.new objects.new ticks) result }
    {
        let Some(value) = self.stack.last().copied() else {
            return false;
        };
        if !self.activation.store(objects, i, value) {
            return false;
        }
        self.stack.pop();
        self.place = next;
        true
    }

    // Answers a special message that needs nothing else. The first of them are of two SmallIntegers, and none behind the last answers.
    #[inline(always)]
    fn answer_special(
        &mut self,
        quick: &Quick,
        objects: &mut Objects,
        ticks: &mut u64,
        number: u8,
        next: u32,
    ) -> bool
        ensures stays { block_in self.new.activation ≡ block_in self.old.activation }
        ensures tries { (on : Given) (code : Code) → IsQuick on quick.now
            → Tries on code (SendSpecial number) next (local self.old objects.old ticks.old) (local self.new objects.new ticks.new) result }
    {
        if number < AT {
            return self.answer_integers(number, next);
        }
        if number >= BLOCK_COPY {
            return false;
        }
        self.answer_others(quick, objects, ticks, number, next)
    }

    // Answers a message that isn't of SmallIntegers alone.
    #[inline(never)]
    fn answer_others(
        &mut self,
        quick: &Quick,
        objects: &mut Objects,
        ticks: &mut u64,
        number: u8,
        next: u32,
    ) -> bool
        ensures stays { block_in self.new.activation ≡ block_in self.old.activation }
        ensures tries { (on : Given) (code : Code) → IsQuick on quick.now
            → Tries on code (SendSpecial number) next (local self.old objects.old ticks.old) (local self.new objects.new ticks.new) result }
    {
        if number == AT {
            return self.read_item(quick, objects, ticks, next);
        }
        if number == AT_PUT {
            return self.put_item(quick, objects, ticks, next);
        }
        self.answer_at_once(number, next)
    }

    // Answers one of the messages of two SmallIntegers.
    #[inline(always)]
    fn answer_integers(&mut self, number: u8, next: u32) -> bool
        requires { number < 22 }
        ensures stays { block_in self.new.activation ≡ block_in self.old.activation }
        ensures tries { (on : Given) (code : Code) (objects : _) (ticks : ℕ) → Tries on code (SendSpecial number) next (local self.old objects ticks) (local self.new objects ticks) result }
    {
        if special_arguments(number) != 1 {
            return false;
        }
        let Some(below) = self.stack.len().checked_sub(2) else {
            return false;
        };
        let Some(answer) = integers_at_once(number, self.stack[below], self.stack[below + 1]) else {
            return false;
        };
        self.stack[below] = answer;
        self.stack.pop();
        self.place = next;
        true
    }

    // Reads an item of an Array.
    #[inline(always)]
    fn read_item(&mut self, quick: &Quick, objects: &Objects, ticks: &mut u64, next: u32) -> bool
        ensures stays { block_in self.new.activation ≡ block_in self.old.activation }
        ensures tries { (on : Given) (code : Code) → IsQuick on quick.now
            → Tries on code (SendSpecial 16) next (local self.old objects.now ticks.old) (local self.new objects.now ticks.new) result }
    {
        let Some(below) = self.stack.len().checked_sub(2) else {
            return false;
        };
        let (array, place) = (self.stack[below], self.stack[below + 1]);
        let Some(item) = item_of(quick, objects, array, place) else {
            return false;
        };
        if !counted(ticks, quick.budget) {
            return false;
        }
        self.stack[below] = item;
        self.stack.pop();
        self.place = next;
        true
    }

    // Puts an item of an Array.
    #[inline(always)]
    fn put_item(&mut self, quick: &Quick, objects: &mut Objects, ticks: &mut u64, next: u32) -> bool
        ensures stays { block_in self.new.activation ≡ block_in self.old.activation }
        ensures tries { (on : Given) (code : Code) → IsQuick on quick.now
            → Tries on code (SendSpecial 17) next (local self.old objects.old ticks.old) (local self.new objects.new ticks.new) result }
    {
        let Some(below) = self.stack.len().checked_sub(3) else {
            return false;
        };
        let (array, place) = (self.stack[below], self.stack[below + 1]);
        let value = self.stack[below + 2];
        if !put_item(quick, objects, ticks, array, place, value) {
            return false;
        }
        self.stack[below] = value;
        self.stack.truncate(below + 1);
        self.place = next;
        true
    }

    // Answers a special message of two values that has an answer at once.
    #[inline(always)]
    fn answer_at_once(&mut self, number: u8, next: u32) -> bool
        ensures stays { block_in self.new.activation ≡ block_in self.old.activation }
        ensures tries { (on : Given) (code : Code) (objects : _) (ticks : ℕ) → Tries on code (SendSpecial number) next (local self.old objects ticks) (local self.new objects ticks) result }
    {
        if special_arguments(number) != 1 {
            return false;
        }
        let Some(below) = self.stack.len().checked_sub(2) else {
            return false;
        };
        let Some(answer) = one_at_once(number, self.stack[below], self.stack[below + 1]) else {
            return false;
        };
        self.stack[below] = answer;
        self.stack.pop();
        self.place = next;
        true
    }

    // ---- jumps

    // A jump back costs a tick.
    #[inline(always)]
    fn jump_or_back(&mut self, next: u32, distance: i32, ticks: &mut u64, budget: u64) -> bool
        ensures stays { block_in self.new.activation ≡ block_in self.old.activation }
        ensures tries { (on : Given) (code : Code) (objects : _) → on.budget ≡ budget
            → Tries on code (Jump distance) next (local self.old objects ticks.old) (local self.new objects ticks.new) result }
    {
        let Some(place) = next.checked_add_signed(distance) else {
            return false;
        };
        if distance < 0 && !counted(ticks, budget) {
            return false;
        }
        self.place = place;
        true
    }

    // Jumps where the top is as wanted.
    #[inline(always)]
    fn jump_on(&mut self, wanted: bool, next: u32, distance: i32) -> bool
        ensures stays { block_in self.new.activation ≡ block_in self.old.activation }
        ensures tries { (on : Given) (code : Code) (objects : _) (ticks : ℕ)
            → Tries on code (if wanted then JumpOnTrue distance else JumpOnFalse distance) next (local self.old objects ticks) (local self.new objects ticks) result }
    {
        let Some(value) = self.stack.last().copied() else {
            return false;
        };
        let Some(is_true) = as_bool(value) else {
            return false;
        };
        let Some(place) = target(is_true == wanted, next, distance) else {
            return false;
        };
        self.stack.pop();
        self.place = place;
        true
    }
}

impl Activation {
    // Sets a temporary, its own or its home's, or changes nothing.
    #[inline(always)]
    fn store(&mut self, objects: &mut Objects, i: u8, value: Value) -> bool
        ensures stays { block_in (activation_of self.new) ≡ block_in (activation_of self.old) }
        ensures stores { MatchBool result
            ((w : World) → with_temporary (with_objects w objects.old) (activation_of self.old) i value ≡ Some (with_objects w objects.new, activation_of self.new))
            ((activation_of self.new ≡ activation_of self.old) × (objects.new ≡ objects.old)) }
    {
        match self {
            Activation::Own(temporaries) => store_own(temporaries, usize::from(i), value),
            Activation::Home(home) => store_field(objects, *home, i, value),
            Activation::Block { home, .. } => store_field(objects, *home, i, value),
        }
    }
}

#[inline(always)]
fn store_own(temporaries: &mut Vec<Value>, i: usize, value: Value) -> bool
    ensures { MatchBool result ((i < length temporaries.old.items) × (temporaries.new.items ≡ slice_set temporaries.old.items i value)) (temporaries.new.items ≡ temporaries.old.items) }
{
    let Some(temporary) = temporaries.get_mut(i) else {
        return false;
    };
    *temporary = value;
    true
}

// Sets a field of an object, or a temporary of a home.
#[inline(always)]
fn store_field(objects: &mut Objects, n: u32, i: u8, value: Value) -> bool
    ensures { MatchBool result ((w : World) → field_set (with_objects w objects.old) n i value ≡ Some (with_objects w objects.new)) (objects.new ≡ objects.old) }
{
    objects
        .set_field(Value::Object(n), u32::from(i), value)
        .is_ok()
}

/// A field of an object, or a temporary of a home.
#[inline(always)]
pub(crate) fn field(objects: &Objects, n: u32, i: u8) -> Option<Value>
    ensures { (w : World) → w.objects ≡ objects.now → result ≡ field_read w n i }
{
    objects.field(Value::Object(n), u32::from(i)).ok()
}

// Counts one more tick, where the budget has one.
#[inline(always)]
fn counted(ticks: &mut u64, budget: u64) -> bool
    ensures { MatchBool result ((ticks.old < budget) × (ticks.new ≡ ticks.old + 1)) (ticks.new ≡ ticks.old) }
{
    if *ticks >= budget {
        return false;
    }
    *ticks += 1;
    true
}

// Where the code goes on, with a jump or without.
#[inline(always)]
fn target(jumps: bool, next: u32, distance: i32) -> Option<u32>
    ensures { IfSome result (λ place. Some place ≡ (if jumps then place_at (pos next +ℤ distance) else Some next)) }
{
    if jumps {
        next.checked_add_signed(distance)
    } else {
        Some(next)
    }
}
