//! Rows: `NAME|WORDS|FILE|OLD|NEW`.

/// A row: its name, the words of the program, and the edit of a file, in which the first OLD becomes NEW. In both `^` is a line
/// feed and `~` a byte that is no text. An OLD of `-` takes the file away, of `!` lets a read behind its last byte fail, and of `*` is the whole file. Nothing is edited where
/// FILE is empty.
#[derive(Clone, Copy, Debug)]
pub struct Row<'a> {
    pub name: &'a str,
    pub words: &'a str,
    pub file: &'a str,
    pub old: &'a str,
    pub new: &'a str,
}

/// The row of a line.
pub fn row_of(line: &str) -> Option<Row<'_>> {
    let (name, rest) = line.split_once("|")?;
    let (words, rest) = rest.split_once("|")?;
    let (file, rest) = rest.split_once("|")?;
    let (old, new) = rest.split_once("|")?;
    Some(Row {
        name,
        words,
        file,
        old,
        new,
    })
}
