// The text of a certificate.
use crate::bytes::Bytes;
use crate::stops::Stop;
use crate::tree::Tree;
use bid_rules::GoodsCase;

/// What a certificate says of a case: the limit, the owners by good, the steps, and the players who show how many can have points.
#[derive(Clone, Copy)]
pub(crate) struct Said<'a> {
    pub(crate) case: &'a GoodsCase,
    pub(crate) limit: u32,
    pub(crate) owners: &'a [u8],
    pub(crate) steps: u32,
    pub(crate) short: &'a [u8],
}

// The lines before the tree's own.
fn put_head(text: &mut Bytes<'_>, said: &Said<'_>) -> Result<(), Stop> {
    let case = said.case;
    text.put(b"fairsplit 2\nkind goods\n")?;
    text.put_small("players", &[case.values.len() as u8])?;
    text.put_small("goods", &[case.facts.goods])?;
    text.put_line("limit", &[said.limit])?;
    text.put_small("who", case.who.as_slice())?;
    for row in case.values.iter() {
        text.put_line("values", row.as_slice())?;
    }
    text.put_small("owners", said.owners)?;
    text.put_line("steps", &[said.steps])?;
    text.put_small("short", said.short)
}

// The line of the tree.
fn put_marks(text: &mut Bytes<'_>, tree: &Tree<'_>) -> Result<(), Stop> {
    text.put(b"tree ")?;
    for before in 0..tree.marks() {
        text.put(&[tree.mark(before.saturating_add(1))])?;
    }
    text.put(b"\n")
}

/// Writes the whole text from the front of the memory on.
pub(crate) fn put_text(text: &mut Bytes<'_>, said: &Said<'_>, tree: &Tree<'_>) -> Result<(), Stop> {
    text.set_len(0);
    put_head(text, said)?;
    text.put(tree.lines())?;
    put_marks(text, tree)?;
    text.put(b"end\n")
}
