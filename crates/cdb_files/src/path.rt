use arrayvec::ArrayString;

/// The path of a file or a folder: names with a slash between them. The root is the empty text.
pub type Path = ArrayString<128>;
