// Laws of the format and of the reader, for the crates above.
ghost use Rattle.std.specs.Prelude.{◌≡◌, ℕ, List, [], ◌++◌, true, All};
ghost use Rattle.s80_chunk.specs.declared.item.Item.{Item};
ghost use Rattle.s80_chunk.specs.Chunks.{IsBlank, IsPlainText, IsReading, chunk_lines, plain_items};
ghost use Rattle.s80_chunk.specs.Held.{Held, HasRead};

/// An input has one reading.
pub fn one_reading()
    ensures { (bytes : List ℕ) (given others : List Item) (rest end : List ℕ)
        → IsReading bytes given rest → IsReading bytes others end → (given ≡ others) × (rest ≡ end) }
{}

/// Whatever bytes follow, the items given so far are the first of the whole input.
pub fn given_come_first()
    ensures { (held : Held) (bytes more : List ℕ) (given all : List Item) (rest : List ℕ)
        → HasRead held bytes given → (held.ended ≡ true → more ≡ [])
        → IsReading (bytes ++ more) all rest → (others : List Item) × (all ≡ given ++ others) }
{}

/// Texts that are written one after the other, each as a chunk and a line feed, are read again,
/// and nothing else is.
pub fn chunks_are_read()
    ensures { (texts : List (List ℕ)) → All IsPlainText texts
        → (rest : List ℕ) × IsReading (chunk_lines texts) (plain_items texts) rest × IsBlank rest }
{}
