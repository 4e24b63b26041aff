//! The program as a library: what it does for its command line, over the folder that it reads.
#![tactic(auto)]

pub use entry::{class_files, command};
pub use explaining::{StartWords, explain_command, explain_folder};
pub use showing::show_command;
pub use sp_texts::Status;
pub use sp_words::{Disk, Folder, FolderFault};

mod entry;
mod explaining;
mod showing;
