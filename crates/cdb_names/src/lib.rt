//! File names and paths of tiles (OGC CDB 1.2 Volume 1, tile naming).
#![tactic(auto)]

mod digits;
mod fields;
mod folder;
mod laws;
mod path_reading;
mod paths;
mod reading;
mod root_paths;
mod writing;

pub use cdb_model::NameError;
pub use laws::{names_are_short, names_have_no_wrong_place, one_wrong_place, versions_are_apart};
pub use path_reading::read_path;
pub use paths::{
    folder_of, metadata_folder, record_path, source_path, sources_folder, version_folder,
    write_path,
};
pub use reading::read_name;
pub use root_paths::{head_path, new_head_path, root_folder};
pub use writing::write_name;
