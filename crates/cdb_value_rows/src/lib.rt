//! Worked rows of the values: the grid, sources, images and tiles, as tests alone.
#![tactic(auto)]

#[cfg(test)]
mod built;
#[cfg(test)]
mod drawn;
#[cfg(test)]
mod folds;
#[cfg(test)]
mod grid;
#[cfg(test)]
mod images;
#[cfg(test)]
mod samples;
#[cfg(test)]
mod source_files;
#[cfg(test)]
mod sources;
#[cfg(test)]
mod tile_files;
#[cfg(test)]
mod touched;
#[cfg(test)]
mod windows;
