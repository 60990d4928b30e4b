//! TIFF files that are read, and that are refused.
mod accepted;
mod files;
mod refused;
