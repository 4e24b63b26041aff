//! Class files as `javap` shows them: instructions, and the types that locals and operands hold before each of them.
//! These are texts for people: every call is safe, and no more is promised.
#![tactic(auto)]

pub use frames::{CodeFrame, HeldType};
pub use instructions::write_instruction;
pub use mnemonics::mnemonic;
pub use shown_text::Shown;
pub use walk::{CodeWalk, falls_through, targets};
pub use wanted::{Wanted, wanted_by};

mod frames;
mod instructions;
mod mnemonics;
mod stack_map;
mod walk;
mod wanted;
