//! Laws of words, each the contract of a function that does nothing.

ghost use Rattle.std.specs.Prelude.{◌≡◌, ℕ};
ghost use Rattle.vm_heap.specs.Tagged.{Tagged, IsWord, IsInitialised};

/// No two references share a word: null, the objects of the heap and the remote ones have words of
/// their own.
pub fn references_have_words_of_their_own()
    ensures { (one other : Tagged) (word : ℕ)
        → IsInitialised one
        → IsInitialised other
        → IsWord one word
        → IsWord other word
        → one ≡ other }
{}
