// Laws of the table, for the crates above.
ghost use Rattle.std.specs.Prelude.{◌≡◌, ℕ, ◌-◌, ◌<◌, ◌≤◌, ◌⊎◌, ◌↔◌, ◌≢◌, List, ◌∷◌, ◌++◌, true, false, Some, None, IsSome, codes, get_or, length, take, slice_get, slice_range};
ghost use Rattle.s80_code.specs.declared.instruction.Instruction.{Instruction};
ghost use Rattle.std.specs.List.{All};
ghost use Rattle.s80_code.specs.Special.{SpecialMessage, block_copy, number_of, special_arguments, special_messages, special_number, special_selectors};
ghost use Rattle.s80_code.specs.Spelling.{IsSpellable, spelled};
ghost use Rattle.s80_code.specs.Table.{Row, rows, formed, decoded, width_of, is_unused, Stands};

/// An instruction has one to three bytes.
pub fn widths_are_one_to_three()
    ensures { (bytes : List ℕ) (instruction : Instruction) (width : ℕ)
        → decoded bytes ≡ Some (instruction, width) → (1 ≤ width) × (width ≤ 3) }
{}

/// Only the bytes of an instruction say what it is.
pub fn an_instruction_is_its_bytes()
    ensures { (bytes : List ℕ) (instruction : Instruction) (width : ℕ)
        → decoded bytes ≡ Some (instruction, width)
        → (width ≤ length bytes) × ((other : List ℕ) → decoded (take width bytes ++ other) ≡ Some (instruction, width)) }
{}

/// Every byte but the unused ones begins an instruction where two bytes follow.
pub fn used_bytes_stand_for_instructions()
    ensures { (b c d : ℕ) (more : List ℕ) → b < 256 → is_unused b ≡ false
        → IsSome (decoded (b ∷ c ∷ d ∷ more)) }
{}

/// An unused byte begins no instruction.
pub fn unused_bytes_stand_for_nothing()
    ensures { (b : ℕ) (more : List ℕ) → is_unused b ≡ true → decoded (b ∷ more) ≡ None }
{}

/// There is no instruction exactly where the byte is unused or the bytes end inside it.
pub fn none_is_unused_or_cut_off()
    ensures { (b : ℕ) (behind : List ℕ) → b < 256
        → decoded (b ∷ behind) ≡ None ↔ (is_unused b ≡ true) ⊎ (length (b ∷ behind) < width_of b) }
{}

/// A byte in a row of the table is what the row says: no two rows share a byte.
pub fn a_byte_has_one_row()
    ensures { (k b : ℕ) (r : Row) (behind : List ℕ) → slice_get rows k ≡ Some r → r.first ≤ b → b ≤ r.last
        → decoded (b ∷ behind) ≡ formed r.form (b - r.first) behind }
{}

/// An instruction that stands at a place ends within the bytes, and stands wherever its bytes stand there.
pub fn a_place_and_the_next()
    ensures { (bytes : List ℕ) (at next : ℕ) (instruction : Instruction)
        → Stands bytes at instruction next
        → (at < next) × (next ≤ length bytes)
        × ((other : List ℕ) → slice_range other at next ≡ slice_range bytes at next
        → Stands other at instruction next) }
{}

/// What is spelled is decoded, whatever follows.
pub fn what_is_spelled_is_decoded()
    ensures { (instruction : Instruction) (rest : List ℕ) → IsSpellable instruction
        → decoded (spelled instruction ++ rest) ≡ Some (instruction, length (spelled instruction)) }
{}

/// What is decoded from bytes has a spelling, and none is shorter.
pub fn a_spelling_is_the_shortest()
    ensures { (bytes : List ℕ) (instruction : Instruction) (width : ℕ) → All (λ b. b < 256) bytes
        → decoded bytes ≡ Some (instruction, width)
        → IsSpellable instruction × (length (spelled instruction) ≤ width) }
{}

/// A special message's number is its place in the table, where no other has its selector. All are sent by their numbers but
/// `blockCopy:`, whose number is 24.
pub fn a_special_message_has_one_number()
    ensures columns { (n : ℕ) (message : SpecialMessage) → slice_get special_messages n ≡ Some message
        → (slice_get special_selectors n ≡ Some message.selector) × (get_or special_arguments n 0 ≡ message.arguments) }
    ensures numbers { (selector : List ℕ) (n : ℕ) → number_of selector ≡ Some n ↔ slice_get special_selectors n ≡ Some selector }
    ensures copy { (n : ℕ) → slice_get special_selectors n ≡ Some (codes "blockCopy:") ↔ n ≡ block_copy }
    ensures sent { (selector : List ℕ) (n : ℕ)
        → special_number selector ≡ Some n ↔ (slice_get special_selectors n ≡ Some selector) × (n ≢ block_copy) }
{}
