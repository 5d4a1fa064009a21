//! What holds of the grammar and of reading. These functions do nothing: their contracts are the
//! laws.

ghost use Rattle.std.specs.Prelude.{◌≡◌, ◌≢◌, ℕ, ◌≤◌, ◌<◌, Ok, All, IsUtf8};
ghost use Rattle.std.specs.Prelude.{List, ◌++◌, ◌∷◌, length};
ghost use Rattle.pv_tree.specs.declared.Tree.{Tree};
ghost use Rattle.pv_notation.specs.Strings.{quoted};
ghost use Rattle.pv_notation.specs.Compact.{compact};
ghost use Rattle.pv_json_grammar.specs.Bytes.{line_feed, space, quote};
ghost use Rattle.pv_json_grammar.specs.Strings.{string};
ghost use Rattle.pv_json_grammar.specs.Documents.{whole, bad, reading};
ghost use Rattle.pv_json_grammar.specs.SpelledStrings.{SpellsString};
ghost use Rattle.pv_json_grammar.specs.Spells.{SpellsDocument};
ghost use Rattle.pv_json_grammar.specs.DocumentTrees.{IsDocumentTree};

/// What spells a text is read as that text, whatever follows.
pub fn strings_are_read()
    ensures { (text bytes tail rest : List ℕ) → SpellsString text bytes →
        text ++ rest ≡ quote ∷ tail → string tail ≡ Ok (bytes, rest) }
{}

/// What is read as a text is spelled by the bytes that were taken, and is UTF-8.
pub fn strings_are_spelled()
    ensures spelled { (tail bytes rest : List ℕ) → string tail ≡ Ok (bytes, rest) →
        (text : List ℕ) × SpellsString text bytes × (quote ∷ tail ≡ text ++ rest) }
    ensures utf8 { (tail bytes rest : List ℕ) → string tail ≡ Ok (bytes, rest) → IsUtf8 bytes }
{}

/// What is read as a document is spelled by all of the bytes.
pub fn documents_are_spelled()
    ensures { (n : ℕ) (bs : List ℕ) (t : Tree) → reading n bs ≡ whole t → SpellsDocument n bs t }
{}

/// What spells a document is read as that document.
pub fn documents_are_read()
    ensures { (n : ℕ) (bs : List ℕ) (t : Tree) → SpellsDocument n bs t → reading n bs ≡ whole t }
{}

/// A byte that fits nowhere is one of the input.
pub fn faults_have_places()
    ensures { (n : ℕ) (bs : List ℕ) (at : ℕ) → reading n bs ≡ bad at → at < length bs }
{}

/// No bytes spell two trees.
pub fn one_tree()
    ensures { (n : ℕ) (bs : List ℕ) (t u : Tree) →
        SpellsDocument n bs t → SpellsDocument n bs u → t ≡ u }
{}

/// A text in quotes, with its escapes, spells that text.
pub fn quoted_is_spelled()
    ensures { (text : List ℕ) → IsUtf8 text → SpellsString (quoted text) text }
{}

/// The compact JSON of a tree that a document can spell spells that tree.
pub fn compact_is_read()
    ensures { (n : ℕ) (t : Tree) → IsDocumentTree n t → SpellsDocument n (compact t) t }
{}

/// What a document spells is a tree that a document can spell.
pub fn documents_are_trees()
    ensures { (n : ℕ) (bs : List ℕ) (t : Tree) → SpellsDocument n bs t → IsDocumentTree n t }
{}

/// The compact JSON of a tree that was read is read as that tree.
pub fn compact_round_trip()
    ensures { (n : ℕ) (bs : List ℕ) (t : Tree) →
        reading n bs ≡ whole t → reading n (compact t) ≡ whole t }
{}

/// The compact JSON of a tree is one line, and holds no control character.
pub fn compact_has_no_line_feed()
    ensures line { (n : ℕ) (t : Tree) → IsDocumentTree n t → All (λ b. b ≢ line_feed) (compact t) }
    ensures printed { (n : ℕ) (t : Tree) → IsDocumentTree n t → All (λ b. space ≤ b) (compact t) }
{}
