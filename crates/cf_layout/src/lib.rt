//! What the bytes of a class file lay out (JVMS 4.1, 4.5 to 4.7): its raw items with their positions,
//! and what stands inside the attributes that are entered. No index is followed.
#![tactic(auto)]

pub use code::{check_table, read_code};
pub use constant::read_constant;
pub use inside::between;
pub use items::{Attribute, CodeHead, CodeLayout, Item, Layout, Member};
pub use layout::{MAX_LEN, read_layout};

mod code;
mod constant;
mod inside;
mod items;
mod layout;
