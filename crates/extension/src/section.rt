// A section: a number of items that stand one after another in bytes. docs/RULES.md, "Extension body and match" and "Settings update".

// How many items, and where in the bytes they begin and end.
#[derive(Clone, Copy, Default)]
pub struct Section {
    pub count: u32,
    pub begin: usize,
    pub end: usize,
}
