//! What the program is told: the words of its command line, and the paths of the files of a folder.
#![tactic(auto)]

pub use folder::{Disk, Folder, FolderFault};
pub use words::{Request, RunRequest, SimRequest, request_of};

mod folder;
mod words;
