//! What the definitions say of all code.

ghost use Rattle.std.specs.Prelude.{◌≡◌, ℕ, List, [], ◌++◌};
ghost use Rattle.cf_insns.specs.declared.insn.Insn.{Insn};
ghost use Rattle.cf_insns.specs.Listing.{IsListing, Listing};
ghost use Rattle.cf_insns.specs.Spelling.{Spells};

/// No code has two listings.
pub fn one_listing()
    ensures { (code : List ℕ) (one other : Listing) → IsListing code one → IsListing code other
        → one ≡ other }
{}

/// No spelling of an instruction at an offset is the front of a spelling of another one there, or
/// of a longer spelling of its own.
pub fn one_spelling()
    ensures { (offset : ℕ) (one other rest more : List ℕ) (insn others : Insn)
        → Spells offset one insn → Spells offset other others → one ++ rest ≡ other ++ more
        → (one ≡ other) × (insn ≡ others) }
{}
